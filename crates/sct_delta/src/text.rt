//! The text of a version vector, and the delta text in its two forms. Both begin with a head line and end with a line that has the number of entries.
//! Form 1 has a line for each entry. Form 2 has a line for each origin and one for each of its messages.

mod entries;
pub mod fields;
mod groups;
pub mod laws;
mod parts;
pub mod reading;
pub mod vectors;
pub mod writing;

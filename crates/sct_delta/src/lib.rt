//! Exchange between sites: entries numbered by the site that took their message, version vectors that count entries,
//! deltas cut above a vector, and logs that deltas are joined into.
#![tactic(auto)]

mod delta;
mod entry;
mod fault;
mod fits;
mod join;
pub mod laws;
mod logs;
mod shelf;
mod sites;
mod text;
mod vector;

pub use delta::{Delta, entries_make_a_delta};
pub use entry::{Entry, messages_in};
pub use fault::{DeltaFault, push_fault};
pub use logs::Logs;
pub use sites::{MOST_SITES, is_site};
pub use text::fields::{after_prefix, number_before_space, number_of};
pub use text::laws::{
    a_text_is_a_form_of_one_delta, a_text_is_read_where_it_is_a_form,
    a_wrong_line_goes_by_its_front, a_wrong_line_means_no_form, both_forms_are_read_alike,
    lines_make_the_text, the_lines_before_a_wrong_one_are_right,
};
pub use text::reading::read_delta;
pub use text::vectors::{a_written_vector_is_read_back, origin_of, read_vector, write_vector};
pub use text::writing::write_delta;
pub use vector::{Vector, vectors_are_equal_by_their_counts};

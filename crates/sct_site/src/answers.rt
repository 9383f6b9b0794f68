//! The answers of a site to a message and to a delta.

/// How a message came to a site.
#[derive(Debug, Drop, PartialEq, Eq)]
pub enum Took {
    /// It was new. It is now the site's own entry of this number; own entries are numbered from 1.
    Taken { n: u64 },
    /// The site held it already, from any origin. Nothing changed.
    Repeat,
}

/// The effect of an accepted delta.
#[derive(Debug, Drop, PartialEq, Eq)]
pub struct Accepted {
    /// How many entries of the delta the site did not hold.
    pub fresh: u64,
}

//! How a message comes to an archive.

/// The answer of an archive to a message that is added.
#[derive(Clone, Copy, Debug, PartialEq, Eq)]
pub enum Added {
    /// No message of its identity was held.
    Fresh,
    /// The same message is held already. Nothing changed.
    Repeat,
    /// The message was not held, and another message of its identity was. Both are held now.
    Against,
}

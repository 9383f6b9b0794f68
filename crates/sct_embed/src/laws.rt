//! The law of what changed. It is the contract of a function with an empty body.

ghost use Rattle.sct_embed.specs.Laws.{OtherTransfersKeepTheirLines};

/// Every transfer that [`Question::Changes`](crate::Question::Changes) does not name has the lines that it had when changes were
/// asked for before.
pub fn other_transfers_keep_their_lines()
    ensures { OtherTransfersKeepTheirLines }
{}

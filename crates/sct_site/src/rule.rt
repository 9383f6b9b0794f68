//! The rule that a history keeps, and its one step.

use logbook::{Gain, Plain, Play, Rule};
use sct_delta::Entry;

/// The rule: the word that threads share is the length of the history.
pub struct HistoryRule;

impl Rule<Entry, u64> for HistoryRule {
    ghost use Rattle.std.specs.Prelude.{[]};
    ghost use base.Fml.{ftrue};
    ghost use Rattle.sct_site.specs.Rules.{IsKept};

    ghost holds = { λ cells log. IsKept cells log };

    ghost first = { [] };

    ghost hinted = { λ n log. Unit {0} };

    ghost shows = { λ log. [] };

    ghost keeps = { λ names log. ftrue };

    ghost moves = { λ ask before after answer. Unit {0} };
}

/// What a caller trades with the history: nothing.
pub(crate) struct NoTrade;

impl Gain<Entry, u64> for NoTrade {
    ghost use base.Fml.{ftrue};

    ghost after = { λ names about answer. ftrue };
}

/// The step that adds an arrival.
pub(crate) struct Append;

impl Play<Entry, u64> for Append {
    ghost use Rattle.sct_site.specs.Rules.{Adds};

    ghost then = { Adds };
}

/// The input of the step: the arrival.
impl Plain<Entry, Entry, u64> for Append {
    ghost use Rattle.std.specs.Prelude.{None};

    ghost ask = { λ entry. entry };

    ghost state = { λ entry. None };
}

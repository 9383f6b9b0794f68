//! A history that threads share.

ghost use Rattle.std.specs.Prelude.{◌≡◌, []};

use crate::rule::HistoryRule;
use crate::track::Track;
use logbook::{Seen, Start, Word};
use sct_delta::Entry;
use std::marker::Model;

/// The history of one site. In memory it is only its length, a word that is written only when the history grows.
/// Contracts see which history it is.
#[derive(Drop)]
pub struct History {
    pub(crate) head: Word<Entry, u64, HistoryRule>,
}

impl Model for History {
    ghost use Rattle.std.specs.Prelude.{◌≡◌};
    ghost use Rattle.logbook.specs.Pages.{Book, book_coded};
    ghost use Rattle.sct_site.specs.Rules.{head_of};

    ghost Value = { Book };

    ghost coded = { book_coded };

    ghost view = { λ h. h.head.book };

    ghost invariant = { λ h. h.head ≡ head_of h.head.book };
}

impl History {
    /// A new history without arrivals, and the track of its empty beginning.
    pub fn open() -> (History, Track)
        ensures book { result.1.book ≡ result.0 }
        ensures empty { result.1.log ≡ [] }
    {
        let (seen, mut first, _second) = Seen::open(Start::alone(), 0, 0);
        (
            History {
                head: Word::tracked(0, &mut first),
            },
            Track::of(seen),
        )
    }
}

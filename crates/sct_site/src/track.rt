//! A beginning of a history.

ghost use Rattle.std.specs.Prelude.{◌≡◌, ◌+◌, ◌<◌, ◌^◌, ◌++◌, ◌∷◌, [], length, MatchBool};
ghost use mathlib.Core.List.{IsPrefix};
ghost use Rattle.sct_delta.specs.Entries.{IsArrivals};
ghost use Rattle.sct_site.specs.Sights.{IsLonger};

use crate::history::History;
use crate::rule::{Append, HistoryRule, NoTrade};
use logbook::{Offer, Seen};
use sct_delta::Entry;
use std::marker::Model;

/// A beginning of a site's history that was seen: the arrivals up to some position. In memory it is only the number of
/// these arrivals. Contracts see the arrivals, and which history they are of.
#[derive(Drop)]
pub struct Track {
    len: u64,
    seen: Seen<Entry, u64, HistoryRule>,
}

impl Model for Track {
    ghost use Rattle.std.specs.Prelude.{◌≡◌, length};
    ghost use Rattle.sct_delta.specs.Entries.{IsArrivals};
    ghost use Rattle.sct_site.specs.Sights.{Sight};

    ghost Value = { Sight };

    ghost view = { λ t. record { book = t.seen.book; log = t.seen.log } };

    ghost invariant = { λ t. (t.len ≡ length t.seen.log) × IsArrivals t.seen.log };
}

impl Track {
    // The track of a history without arrivals.
    pub(crate) fn of(seen: Seen<Entry, u64, HistoryRule>) -> Track
        requires { seen.log ≡ [] }
        ensures { result ≡ record { book = seen.book; log = [] } }
    {
        Track { len: 0, seen }
    }

    /// How many arrivals it has.
    pub fn len(&self) -> u64
        ensures length { result ≡ length self.now.log }
        ensures arrivals { IsArrivals self.now.log }
    {
        self.len
    }

    /// A copy. It does not allocate. O(1).
    pub fn again(&self) -> Track
        ensures { result ≡ self.now }
    {
        Track {
            len: self.len,
            seen: self.seen.again(),
        }
    }

    /// The longer of two beginnings of one history. The other is a prefix of it. O(1).
    pub fn longer(&self, other: &Track) -> Track
        requires { self.now.book ≡ other.now.book }
        ensures book { result.book ≡ self.now.book }
        ensures longer { IsLonger self.now.log other.now.log result.log }
    {
        let mut both = self.seen.again();
        both.learn(&other.seen);
        if self.len < other.len {
            other.again()
        } else {
            self.again()
        }
    }

    /// Whether `self` is a prefix of `other`; if not, `other` is the shorter one. Both
    /// are beginnings of one history. O(1).
    pub fn begins(&self, other: &Track) -> bool
        requires { self.now.book ≡ other.now.book }
        ensures { MatchBool result (IsPrefix self.now.log other.now.log)
            (length other.now.log < length self.now.log) }
    {
        let mut both = self.seen.again();
        both.learn(&other.seen);
        if self.len <= other.len { true } else { false }
    }

    /// Adds an arrival to the history. Returns whether it did. It does not if the history has other arrivals than
    /// this track; nothing has then changed. O(1).
    pub fn add(&mut self, history: &History, entry: &Entry) -> bool
        requires history { history.now ≡ self.old.book }
        requires next { IsArrivals (self.old.log ++ entry.now ∷ []) }
        requires room { length self.old.log < 2 ^ 63 }
        ensures book { self.new.book ≡ self.old.book }
        ensures added { MatchBool result
            (self.new.log ≡ self.old.log ++ entry.now ∷ []) (self.new.log ≡ self.old.log) }
    {
        let mut seen = self.seen.again();
        let mut offer: Offer<Entry, u64, HistoryRule, NoTrade> = seen.plain::<
            NoTrade,
            Entry,
            Append,
        >(entry);
        let mut pen = seen.no_pen();
        let len = self.len;
        let found = history
            .head
            .compare_exchange::<Append, NoTrade>(len, len + 1, &mut seen, &mut offer, &mut pen);
        if found != len {
            return false;
        }
        self.seen = seen;
        self.len = len + 1;
        true
    }
}

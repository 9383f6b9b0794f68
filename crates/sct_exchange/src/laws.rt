//! Laws of journals, rounds and hubs. Each law is the contract of a function with an empty body.
//!
//! A *hub* is a list of runs on several machines. Each run names a site, its journal, and the texts that it is given. It is
//! *honest* if five things hold of each run. Its site is one of the group, whose size is the same in all runs. Its journal is of
//! whole lines. The journal begins with that of the site's run before. Each text that it is given is a delta text with entries
//! that sites of earlier runs hold: one that `cut` wrote, or a piece of one. The text that it cuts is written whole. The texts may
//! come from any site, in any order, again, or not at all.

ghost use Rattle.sct_exchange.specs.Laws.{CutsMayBeGiven, EqualVectorsHoldAlike, EqualVectorsWriteAlike, HoldsExactly, HubsNeverFork, JournalsMakeLogs, NumbersLast, OrderDoesNotMatter, OwnEntriesGoByTheJournal, RefusalsAreTheLast, RoundsExchange, RunsAgainEndAlike};

/// A longer journal never changes the number of an earlier message.
pub fn numbers_last()
    ensures { NumbersLast }
{}

/// A site that took the messages of its journal holds its own log, numbered from 1, and nothing else.
pub fn journals_make_logs()
    ensures { JournalsMakeLogs }
{}

/// A site's own entries and their numbers go by its journal alone, whatever texts it is given. So a site that is run again
/// from its journal comes back under its old number.
pub fn own_entries_go_by_the_journal()
    ensures { OwnEntriesGoByTheJournal }
{}

/// A site that is run again from the same own log and the same files is the same site, with the same arrivals in the same
/// order.
pub fn runs_again_end_alike()
    ensures { RunsAgainEndAlike }
{}

/// After the rounds, the site accepted some of the deltas, and has every entry of each that it does not refuse.
pub fn rounds_exchange()
    ensures { RoundsExchange }
{}

/// The files that are reported are those that the site refuses as it ends, each with that refusal, and no others.
pub fn refusals_are_the_last()
    ensures { RefusalsAreTheLast }
{}

/// A site holds exactly the messages of its journal and of the deltas that it accepted.
pub fn a_site_holds_exactly_what_it_took_and_accepted()
    ensures { HoldsExactly }
{}

/// In an honest hub no run refuses a text for anything but that its delta is early (41): never with 42, 43, 44 or 45.
pub fn hubs_never_fork()
    ensures { HubsNeverFork }
{}

/// In an honest hub each text that `cut` wrote in a run has entries that the run's site holds. So later runs may be given it.
pub fn cuts_may_be_given()
    ensures { CutsMayBeGiven }
{}

/// In an honest hub two runs with equal vectors hold the same entries.
pub fn equal_vectors_hold_alike()
    ensures { EqualVectorsHoldAlike }
{}

/// In an honest hub the archive texts of two runs with equal vectors are the same bytes.
pub fn equal_vectors_write_alike()
    ensures { EqualVectorsWriteAlike }
{}

/// In an honest hub the order of the texts that a run is given does not matter, nor how often each is given.
pub fn the_order_of_texts_does_not_matter()
    ensures { OrderDoesNotMatter }
{}

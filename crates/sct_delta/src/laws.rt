//! Laws of logs and deltas, whatever they hold. Each law is the contract of a function with an empty body.

ghost use Rattle.sct_delta.specs.Laws.{AreEntrySet, CutsWhatIsAbove, CutsNothingForItself, JoinsBothSides, KeepsWhatWasHeld, JoinsOnce, CatchesUp, JoinsInAnyOrder, IsRefusedWhereItDoesNotFit, PairsMakeAVector, ReportsTheFirstEntry, ReportsTheFirstGap, ReportsTheFirstPair};

/// The entries that logs hold are an entry set: the numbers of each origin are 1 to some count, each with one message.
pub fn logs_hold_an_entry_set()
    ensures { AreEntrySet }
{}

/// A cut above a vector has exactly the entries that are held and numbered above the vector's count of their origin.
pub fn a_cut_is_what_is_above_the_vector()
    ensures { CutsWhatIsAbove }
{}

/// A cut above a site's own vector is empty.
pub fn a_site_cuts_nothing_for_itself()
    ensures { CutsNothingForItself }
{}

/// After a delta that fits was joined, an entry is held exactly if it was held before or is in the delta.
pub fn a_join_holds_both_sides()
    ensures { JoinsBothSides }
{}

/// A join keeps every entry that was held.
pub fn a_join_keeps_what_was_held()
    ensures { KeepsWhatWasHeld }
{}

/// A delta that was joined fits again, and joining it again changes nothing.
pub fn joining_twice_is_joining_once()
    ensures { JoinsOnce }
{}

/// If two deltas both fit, and no number has two messages in them, they can be joined in either order with one result.
pub fn deltas_are_joined_in_any_order()
    ensures { JoinsInAnyOrder }
{}

/// A site that holds the entries of another up to a vector, and joins the other's cut
/// above it, holds all entries of the other.
pub fn a_site_catches_up()
    ensures { CatchesUp }
{}

/// A delta is refused exactly if it does not fit. It does not fit in four cases: it has an entry of a site that the
/// group does not have; it has an own entry above the own count; it has an origin none of whose entries is at most the
/// next one; it has a number that is held with another message.
pub fn a_delta_is_refused_where_it_does_not_fit()
    ensures { IsRefusedWhereItDoesNotFit }
{}

/// A gap (41) is reported with the first origin that has one, with the count held of it, and with its least number in
/// the delta. An origin has a gap if that number is past the next one.
pub fn the_gap_reported_is_the_first()
    ensures { ReportsTheFirstGap }
{}

/// Entries of sites are refused (45) with the place of the first entry that is out of order: the entries before it are
/// a delta, and with it they are not.
pub fn the_entry_reported_is_the_first()
    ensures { ReportsTheFirstEntry }
{}

/// Pairs make a version vector exactly if their origins are sites and ascend strictly.
pub fn pairs_make_a_vector()
    ensures { PairsMakeAVector }
{}

/// Pairs of sites are refused (45) with the place of the first pair that does not ascend: the pairs before it make a
/// version vector, and with it they do not.
pub fn the_pair_reported_is_the_first()
    ensures { ReportsTheFirstPair }
{}

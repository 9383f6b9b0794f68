//! Laws of worlds, whatever their histories. Each law is the contract of a function with an empty body.

ghost use Rattle.sct_world.specs.Laws.{EqualSetsHoldAlike, EqualSetsGiveEqualTexts, EqualSetsReportAlike, NeverLosesAnEntry, EqualVectorsInAWorldHoldAlike, HandingAgainChangesNothing, HistoriesGoByValues};
ghost use Rattle.sct_world.specs.SettlingLaws.{SettledAnswerAlike, SettlesOnce, SettlesInAnyOrder};

/// Sites of one world or of two that took or accepted the same messages hold the same messages.
pub fn equal_sets_hold_alike()
    ensures { EqualSetsHoldAlike }
{}

/// Sites of one world or of two that took or accepted the same messages answer the same bytes.
pub fn equal_sets_answer_alike()
    ensures { EqualSetsGiveEqualTexts }
{}

/// Sites of one world or of two that took or accepted the same messages give the same report on a list.
pub fn equal_sets_report_alike()
    ensures { EqualSetsReportAlike }
{}

/// A site never loses an entry.
pub fn a_site_never_loses_an_entry()
    ensures { NeverLosesAnEntry }
{}

/// In one world, sites with equal version vectors hold the same entries. So vectors may
/// be compared in place of archives.
pub fn equal_vectors_hold_alike()
    ensures { EqualVectorsInAWorldHoldAlike }
{}

/// If a site accepted a delta, handing it the delta again changes nothing, at any later time.
pub fn handing_again_changes_nothing()
    ensures { HandingAgainChangesNothing }
{}

/// A history depends only on values: events of equal values have equal outcomes and equal
/// effects, wherever their messages are in memory.
pub fn histories_go_by_values()
    ensures { HistoriesGoByValues }
{}

/// Settled sites answer the same bytes.
pub fn settled_sites_answer_alike()
    ensures { SettledAnswerAlike }
{}

/// Settling twice is settling once.
pub fn settling_twice_is_settling_once()
    ensures { SettlesOnce }
{}

/// After sites are settled, each holds the same, in whatever order they were settled.
pub fn sites_settle_in_any_order()
    ensures { SettlesInAnyOrder }
{}

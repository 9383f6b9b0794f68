//! A law of sites. It is the contract of a function with an empty body.

ghost use Rattle.sct_site.specs.Laws.{IsSiteAfterDeltas, IsSiteAfterTakes, IsSiteWhenOpened};

/// Takes and accepted deltas leave a site's arrivals in order, and each entry is of a site of its group.
pub fn sites_stay_sites()
    ensures opened { IsSiteWhenOpened }
    ensures taken { IsSiteAfterTakes }
    ensures joined { IsSiteAfterDeltas }
{}

//! Laws of sites that are made anew and of peers that catch up. Each law is the contract of a function with an empty body.

ghost use Rattle.sct_hub.specs.Restored.{JournalsGrowWithTheirSites, OneCutIsEnough, PeersCatchUp, SitesAreRestored, SitesOfAHubArePeers, SitesOfAHubCatchUp};

use sct_read_again::messages_are_read_again;

/// A site that is restored from its own journal and one cut of everything is the site that it was. Only the order in which
/// its entries came may differ. The cut is not refused.
pub fn sites_are_restored()
    ensures { SitesAreRestored }
{}

/// One cut of everything is as good as all deltas that a site was given.
pub fn one_cut_is_enough()
    ensures { OneCutIsEnough }
{}

/// A peer that asks catches up: it accepts what another cuts above a vector that is at most its own, and then holds all that
/// the other holds.
pub fn peers_catch_up()
    ensures { PeersCatchUp }
{}

/// So does each site of a hub, since any two sites of a hub are peers.
pub fn sites_of_a_hub_catch_up()
    ensures peers { SitesOfAHubArePeers }
    ensures texts { SitesOfAHubCatchUp }
{
    messages_are_read_again();
}

/// A journal grows with its site by the lines of the own entries that it lacks.
pub fn journals_grow_with_their_sites()
    ensures { JournalsGrowWithTheirSites }
{}

//! The receipts of a desk.

ghost use Rattle.std.specs.Prelude.{◌≡◌};

use sct_site::Track;
use std::marker::Model;

/// A desk's receipt of a call. It says that the call published `count` of the site's arrivals, from position `from` on,
/// and that the first `carried` of these came by earlier calls. Positions count from 1. If nothing was pending, `count`
/// is 0 and `from` is one past the last published position.
/// A receipt cannot be copied. The answers of a query that learned it include all that it shows.
#[derive(Drop)]
pub struct Receipt {
    pub(crate) site: u16,
    pub(crate) from: u64,
    pub(crate) count: u64,
    pub(crate) carried: u64,
    pub(crate) track: Track,
}

impl Model for Receipt {
    ghost use Rattle.std.specs.Prelude.{◌≡◌, ◌+◌, ◌≤◌, length};
    ghost use Rattle.sct_desk.specs.Passes.{Told};

    ghost Value = { Told };

    ghost view = { λ r. record {
      site = r.site;
      from = r.from;
      count = r.count;
      carried = r.carried;
      book = r.track.book;
      shown = r.track.log;
    } };

    ghost invariant = { λ r. (r.from + r.count ≡ length r.track.log + 1)
        × (1 ≤ r.from) × (r.carried ≤ r.count) };
}

impl Receipt {
    ghost use Rattle.std.specs.Prelude.{◌+◌, ◌≤◌, length};
    ghost use Rattle.sct_delta.specs.Entries.{IsArrivals};

    /// The number of the desk's site.
    pub fn site(&self) -> u16
        ensures { result ≡ self.now.site }
    {
        self.site
    }

    /// The first position that the call published.
    pub fn from(&self) -> u64
        ensures from { result ≡ self.now.from }
        ensures first { 1 ≤ result }
        ensures last { result + self.now.count ≡ length self.now.shown + 1 }
        ensures arrivals { IsArrivals self.now.shown }
    {
        // The call is made for its contract: a track's log is a list of arrivals.
        let _len = self.track.len();
        self.from
    }

    /// How many arrivals the call published.
    pub fn count(&self) -> u64
        ensures { result ≡ self.now.count }
    {
        self.count
    }

    /// How many of the published arrivals came by earlier calls.
    pub fn carried(&self) -> u64
        ensures carried { result ≡ self.now.carried }
        ensures most { result ≤ self.now.count }
    {
        self.carried
    }
}

//! The state under a desk's lock, and the identity of the site that it is of.

ghost use Rattle.std.specs.Prelude.{◌≡◌};
ghost use Rattle.sct_desk.specs.Passes.{site_with};

use crate::shown::ShownWriter;
use sct_site::{SiteCore, Track};
use std::marker::{Brand, Model, PhantomData};
use std::sync::Wait;

/// The site of a desk: its history, its number and its group. Each call of a program that opens a desk picks its own,
/// so that the state under a lock is known to be of this site.
pub trait Site {
    ghost use Rattle.std.specs.Prelude.{ℕ};
    ghost use Rattle.logbook.specs.Pages.{Book};

    ghost book: { Book };

    ghost number: { ℕ };

    ghost group: { ℕ };
}

/// The site that a call picks.
impl Site for Brand {
    ghost book = { record { number = 0; log_name = 0; cells_name = 0 } };

    ghost number = { 1 };

    ghost group = { 1 };
}

/// The core of a site, and the writer of its published view. The published arrivals, followed by
/// the pending ones, are the core's arrivals.
pub struct HeldArrivals<J: Site, R: Wait + Drop> {
    pub(crate) core: SiteCore,
    pub(crate) writer: ShownWriter,
    /// The beginning of the core's arrivals that the history has.
    pub(crate) track: Track,
    /// How many arrivals were handed to the writer.
    pub(crate) handed: usize,
    /// A mark for each arrival. When the desk is closed, it counts the receipts that cover the arrival.
    pub(crate) marks: Vec<u8>,
    pub(crate) rt: R,
    pub(crate) of: PhantomData<J>,
}

impl<J: Site, R: Wait + Drop> Model for HeldArrivals<J, R> {
    ghost use Rattle.std.specs.Prelude.{drop};
    ghost use Rattle.sct_desk.specs.HeldOk.{IsHeld};
    ghost use Rattle.sct_desk.specs.Locked.{Locked};

    ghost Value = { Locked };

    ghost view = { λ h. record { core = h.core; published = h.writer.desk.shown.value.track.log } };

    ghost invariant = { λ h. IsHeld J.book J.number J.group h.core h.track h.writer.desk.shown.value
        (drop h.writer.behind h.writer.log.items) h.handed h.marks.items };
}

impl<J: Site, R: Wait + Drop> Drop for HeldArrivals<J, R> {
    fn drop(self) {
        let Self {
            core: _core,
            writer,
            track: _track,
            handed: _,
            marks: _marks,
            rt,
            of: _,
        } = self;
        drop(writer.take(&rt));
    }
}

impl<J: Site, R: Wait + Drop> HeldArrivals<J, R> {
    // Ends the publication and returns the core.
    pub(crate) fn end(self) -> SiteCore
        ensures { result ≡ site_with J.number J.group self.core.arrivals }
    {
        let Self {
            core,
            writer,
            track: _track,
            handed: _,
            marks: _marks,
            rt,
            of: _,
        } = self;
        drop(writer.take(&rt));
        core
    }
}

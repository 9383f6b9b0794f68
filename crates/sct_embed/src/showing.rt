//! What follows the arrivals of a site: a view, digests, what is filed by transfer and by bank, and the blocks that snapshots share.

ghost use Rattle.std.specs.FinSet as set;
ghost use Rattle.std.specs.Prelude.{◌≡◌, [], None, length, OnErr, OnOk};
ghost use Rattle.sct_delta.specs.Entries.{messages_of};
ghost use Rattle.sct_message.specs.Sets.{messages_in};
ghost use Rattle.sct_set.specs.Contents.{contents_of};
ghost use Rattle.sct_view.specs.Filed.{IsFiled};
ghost use Rattle.sct_rights.specs.ByBanks.{IsFiledForBanks};
ghost use Rattle.sct_embed.specs.Showing.{IsShowing, watched_by};

use crate::changes::{Watch, watch_after};
use crate::shelf::Shelf;
use sct_delta::{Entry, messages_in};
use sct_digest::Digests;
use sct_message::Message;
use sct_set::Archive;
use sct_snapshot::Blocks;
use sct_view::View;
use std::alloc::{AllocError, Global};
use std::sync::Arc;

/// A view of the first arrivals of a site, what changed since its changes were asked for, digests of its entries, and those that are
/// filed, and blocks of them that snapshots share.
#[derive(Drop)]
pub(crate) struct Showing {
    pub(crate) view: View,
    /// How many arrivals the view shows.
    pub(crate) count: usize,
    /// What changed since changes were asked for last; none before the first time.
    pub(crate) watch: Option<Watch>,
    /// The digests that were worked out.
    pub(crate) digests: Digests,
    /// What is filed by transfer and by bank.
    pub(crate) shelf: Shelf,
    /// The first arrivals, in blocks.
    pub(crate) blocks: Blocks,
}

// Adds messages to a view of so many arrivals. The view of the first ones is built at once: that takes less than to evaluate a batch.
#[tactic(auto, using(crate::proofs::SetLemmas::all_added))]
fn apply(
    alloc: Global,
    view: &mut View,
    count: usize,
    messages: &[Arc<Message>],
) -> Result<(), AllocError>
    requires { count ≡ 0 → view.old ≡ set.empty }
    ensures ok { OnOk result (view.new ≡ set.union view.old (contents_of (messages_in messages.now))) }
    ensures unchanged { OnErr result (view.new ≡ view.old) }
{
    if count > 0 {
        view.apply(messages)?;
        return Ok(());
    }
    let mut archive = Archive::new(alloc);
    archive.add_all(messages)?;
    *view = View::of(alloc, archive)?;
    Ok(())
}

impl Showing {
    /// The view of no arrivals. No digest is worked out, and nothing is filed.
    pub(crate) fn new(alloc: Global) -> Showing
        ensures shown { IsShowing result [] }
        ensures unwatched { result.watch ≡ None }
    {
        Showing {
            view: View::new(alloc),
            count: 0,
            watch: None,
            digests: Digests::new(alloc),
            shelf: Shelf::new(alloc),
            blocks: Blocks::new(alloc),
        }
    }

    /// Takes whole blocks of the arrivals in, if memory allows. O(messages that are new).
    pub(crate) fn seal(&mut self, arrivals: &[Entry])
        requires { IsShowing self.old arrivals.now }
        ensures shown { IsShowing self.new arrivals.now }
        ensures watched { watched_by self.new.watch ≡ watched_by self.old.watch }
    {
        let _ = self.blocks.follow(arrivals);
    }

    /// Has the view show all arrivals. Only those that it does not show yet are added. O(messages that are new, and those of
    /// the transfers that they touch).
    pub(crate) fn show_all(&mut self, alloc: Global, arrivals: &[Entry]) -> Result<(), AllocError>
        requires { IsShowing self.old arrivals.now }
        ensures shown { IsShowing self.new arrivals.now }
        ensures view { OnOk result (self.new.view ≡ messages_of arrivals.now) }
        ensures count { OnOk result (self.new.count ≡ length arrivals.now) }
        ensures watched { watched_by self.new.watch ≡ watched_by self.old.watch }
    {
        if self.count == arrivals.len() {
            return Ok(());
        }
        let messages = messages_in(alloc, &arrivals[self.count..])?;
        let watch = watch_after(&self.watch, alloc, &self.view, &messages)?;
        apply(alloc, &mut self.view, self.count, &messages)?;
        self.watch = watch;
        self.count = arrivals.len();
        Ok(())
    }

    /// Has all arrivals filed by transfer, as it has to be known who may send a message. O(transactions of the messages that are new).
    #[tactic(auto, using(crate::proofs::ShelfLemmas::filed_by_transfer))]
    pub(crate) fn file_all(&mut self, alloc: Global, arrivals: &[Entry]) -> Result<(), AllocError>
        requires { IsShowing self.old arrivals.now }
        ensures shown { IsShowing self.new arrivals.now }
        ensures watched { watched_by self.new.watch ≡ watched_by self.old.watch }
        ensures filed { OnOk result (IsFiled (messages_of arrivals.now) self.new.shelf.by_transfer) }
    {
        self.shelf.file_by_transfer(alloc, arrivals)
    }

    /// Has the view show all arrivals, and all of them filed by transfer, as answers to banks on a transfer need it. O(messages that
    /// are new, and those of the transfers that they touch).
    #[tactic(auto, using(crate::proofs::ShelfLemmas::filed_by_transfer))]
    pub(crate) fn show_by_transfer(
        &mut self,
        alloc: Global,
        arrivals: &[Entry],
    ) -> Result<(), AllocError>
        requires { IsShowing self.old arrivals.now }
        ensures shown { IsShowing self.new arrivals.now }
        ensures watched { watched_by self.new.watch ≡ watched_by self.old.watch }
        ensures view { OnOk result (self.new.view ≡ messages_of arrivals.now) }
        ensures filed { OnOk result (IsFiled self.new.view self.new.shelf.by_transfer) }
    {
        self.show_all(alloc, arrivals)?;
        self.shelf.file_by_transfer(alloc, arrivals)
    }

    /// Has the view show all arrivals, and all of them filed by bank, as reports need it. O(messages that are new, and those of
    /// the transfers that they touch).
    #[tactic(auto, using(crate::proofs::ShelfLemmas::filed_by_bank))]
    pub(crate) fn show_by_bank(
        &mut self,
        alloc: Global,
        arrivals: &[Entry],
    ) -> Result<(), AllocError>
        requires { IsShowing self.old arrivals.now }
        ensures shown { IsShowing self.new arrivals.now }
        ensures watched { watched_by self.new.watch ≡ watched_by self.old.watch }
        ensures view { OnOk result (self.new.view ≡ messages_of arrivals.now) }
        ensures by_bank { OnOk result (IsFiledForBanks self.new.view self.new.shelf.by_bank) }
    {
        self.show_all(alloc, arrivals)?;
        self.shelf.file_by_bank(alloc, arrivals)
    }

    /// Has the view show all arrivals, and all of them filed in both ways, as reports for banks need it. O(messages that are new, and
    /// those of the transfers that they touch).
    #[tactic(auto, using(crate::proofs::ShelfLemmas::filed_by_transfer, crate::proofs::ShelfLemmas::filed_by_bank))]
    pub(crate) fn show_for_banks(
        &mut self,
        alloc: Global,
        arrivals: &[Entry],
    ) -> Result<(), AllocError>
        requires { IsShowing self.old arrivals.now }
        ensures shown { IsShowing self.new arrivals.now }
        ensures watched { watched_by self.new.watch ≡ watched_by self.old.watch }
        ensures view { OnOk result (self.new.view ≡ messages_of arrivals.now) }
        ensures filed { OnOk result (IsFiled self.new.view self.new.shelf.by_transfer) }
        ensures by_bank { OnOk result (IsFiledForBanks self.new.view self.new.shelf.by_bank) }
    {
        self.show_all(alloc, arrivals)?;
        self.shelf.file_by_transfer(alloc, arrivals)?;
        self.shelf.file_by_bank(alloc, arrivals)
    }
}

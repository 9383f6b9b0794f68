//! What a site held at a moment.

ghost use Rattle.std.specs.Prelude.{◌≡◌, ◌⊎◌, ◌-◌, ◌≤◌, ◌++◌, List, true, drop, length, IfOk, OnOk};
ghost use mathlib.Core.List.{IsPrefix};
ghost use Rattle.sct_delta.specs.Entries.{IsArrivals, Placed};
ghost use Rattle.sct_site.specs.Cores.{is_open};
ghost use Rattle.sct_snapshot.specs.Blocks.{in_blocks};

use crate::blocks::Blocks;
use crate::copying::push_copies;
use sct_delta::Entry;
use sct_site::SiteCore;
use std::alloc::{AllocError, Global};
use std::marker::Model;
use std::sync::Arc;

/// What a site held at a moment. The site goes on, and the snapshot stays as it is.
#[derive(Drop)]
pub struct Snapshot {
    number: u16,
    group: u16,
    blocks: Blocks,
}

impl Model for Snapshot {
    ghost use Rattle.std.specs.Prelude.{◌≡◌, true};
    ghost use Rattle.sct_delta.specs.Entries.{IsArrivals};
    ghost use Rattle.sct_site.specs.Cores.{Core, is_open};

    ghost Value = { Core };

    ghost view = { λ s. record { number = s.number; group = s.group; arrivals = s.blocks } };

    ghost invariant = { λ s. IsArrivals s.blocks × (is_open s.number s.group ≡ true) };
}

// How many of a block's entries are left out, of so many that are to be left out.
fn skipped(left: usize, length: usize) -> usize
    ensures within { result ≤ length }
    ensures most { result ≤ left }
    ensures all { (left - result ≡ 0) ⊎ (result ≡ length) }
{
    if left <= length { left } else { length }
}

// Appends the entries of a block after those that are left out. Returns how many are to be left out of the next blocks.
#[tactic(auto, using(crate::proofs::BlockLemmas::rest_more))]
fn push_rest(out: &mut Vec<Entry>, left: usize, block: &[Entry]) -> Result<usize, AllocError>
    ensures { IfOk result (λ next. (rest : List Placed) → out.new.items ++ drop next rest ≡ out.old.items ++ drop left (block.now ++ rest)) }
{
    let skipped = skipped(left, block.len());
    let (_, entries) = block.split_at(skipped);
    push_copies(out, entries)?;
    Ok(left - skipped)
}

// The entries of blocks after the first `count`.
#[tactic(auto, using(crate::proofs::BlockLemmas::so_far_all))]
fn entries_after(
    alloc: Global,
    blocks: &[Arc<Vec<Entry>>],
    count: usize,
) -> Result<Vec<Entry>, AllocError>
    ensures { IfOk result (λ entries. entries.items ≡ drop count (in_blocks blocks.now)) }
{
    let mut entries = Vec::new(alloc);
    let mut left = count;
    let mut rest = blocks;
    while let Some((block, after)) = rest.split_first() {
        left = push_rest(&mut entries, left, block)?;
        rest = after;
    }
    Ok(entries)
}

impl Snapshot {
    /// What a site holds now. `blocks` are some that follow the site. It shares them, and copies the handles of the entries after
    /// them. The error is that it is out of memory.
    pub fn of(blocks: &Blocks, core: &SiteCore) -> Result<Snapshot, AllocError>
        requires { IsPrefix blocks.now core.now.arrivals }
        ensures { IfOk result (λ snapshot. snapshot ≡ core.now) }
    {
        Ok(Snapshot {
            number: core.number(),
            group: core.group(),
            blocks: blocks.with_rest(core.arrivals())?,
        })
    }

    /// The same snapshot once more. It shares the blocks. The error is that it is out of memory.
    pub fn share(&self) -> Result<Snapshot, AllocError>
        ensures { IfOk result (λ snapshot. snapshot ≡ self.now) }
    {
        Ok(Snapshot {
            number: self.number,
            group: self.group,
            blocks: self.blocks.share()?,
        })
    }

    /// The number of the site.
    pub fn number(&self) -> u16
        ensures number { result ≡ self.now.number }
        ensures open { is_open self.now.number self.now.group ≡ true }
    {
        self.number
    }

    /// How many sites the group has.
    pub fn group(&self) -> u16
        ensures { result ≡ self.now.group }
    {
        self.group
    }

    /// How many entries it has.
    pub fn count(&self) -> usize
        ensures { result ≡ length self.now.arrivals }
    {
        self.blocks.len()
    }

    /// The entries after the first `count`, which share their messages. The error is that it is out of memory.
    /// O(blocks), and O(these entries).
    pub fn entries_after(&self, alloc: Global, count: usize) -> Result<Vec<Entry>, AllocError>
        ensures entries { IfOk result (λ entries. entries.items ≡ drop count self.now.arrivals) }
        ensures order { IsArrivals self.now.arrivals }
    {
        entries_after(alloc, &self.blocks.blocks, count)
    }
}

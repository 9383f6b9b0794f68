//! Entries in blocks that are shared.

ghost use Rattle.std.specs.Prelude.{◌≡◌, ◌<◌, ◌+◌, ◌^◌, ◌++◌, [], map, length, IfOk, OnOk, OnErr};
ghost use Rattle.std.specs.Arc.{arc_value};
ghost use mathlib.Core.List.{IsPrefix};

use crate::copying::push_copies;
use sct_delta::Entry;
use std::alloc::{AllocError, Global};
use std::marker::Model;
use std::sync::Arc;

// The entries of a block.
const BLOCK: usize = 4096;

/// Entries in blocks. Copies share them.
#[derive(Drop)]
pub struct Blocks {
    pub(crate) alloc: Global,
    pub(crate) blocks: Vec<Arc<Vec<Entry>>>,
    len: usize,
}

impl Model for Blocks {
    ghost use Rattle.std.specs.Prelude.{◌≡◌, List, length};
    ghost use Rattle.sct_delta.specs.Entries.{Placed};
    ghost use Rattle.sct_snapshot.specs.Blocks.{in_blocks};

    ghost Value = { List Placed };

    ghost view = { λ b. in_blocks b.blocks.items };

    ghost invariant = { λ b. b.len ≡ length (in_blocks b.blocks.items) };
}

// Handles to the same blocks, with room for one more.
fn shared(alloc: Global, blocks: &[Arc<Vec<Entry>>]) -> Result<Vec<Arc<Vec<Entry>>>, AllocError>
    ensures { IfOk result (λ handles. map arc_value handles.items ≡ map arc_value blocks.now) }
{
    let mut handles = Vec::with_capacity(alloc, blocks.len() + 1)?;
    for block in blocks {
        handles.push(block.clone()?)?;
    }
    Ok(handles)
}

impl Blocks {
    /// No entries.
    pub fn new(alloc: Global) -> Blocks
        ensures { result ≡ [] }
    {
        Blocks {
            alloc,
            blocks: Vec::new(alloc),
            len: 0,
        }
    }

    /// How many entries there are.
    pub fn len(&self) -> usize
        ensures { result ≡ length self.now }
    {
        self.len
    }

    // Appends a block of entries. If out of memory, nothing changes.
    #[tactic(auto, using(crate::proofs::BlockLemmas::blocks_join))]
    fn push(&mut self, entries: &[Entry]) -> Result<(), AllocError>
        requires { length self.old + length entries.now < 2 ^ 63 }
        ensures pushed { OnOk result (self.new ≡ self.old ++ entries.now) }
        ensures unchanged { OnErr result (self.new ≡ self.old) }
    {
        let mut copies = Vec::with_capacity(self.alloc, entries.len())?;
        push_copies(&mut copies, entries)?;
        let block = Arc::new(self.alloc, copies)?;
        self.blocks.push(block)?;
        self.len += entries.len();
        Ok(())
    }

    /// Takes in whole blocks of what a site holds: all but fewer entries than a block has. O(entries that are new).
    /// If out of memory, some are taken in.
    #[tactic(auto, using(crate::proofs::BlockLemmas::front_more))]
    pub fn follow(&mut self, arrivals: &[Entry]) -> Result<(), AllocError>
        requires { IsPrefix self.old arrivals.now }
        ensures { IsPrefix self.new arrivals.now }
    {
        while self.len + BLOCK <= arrivals.len() {
            let (_, rest) = arrivals.split_at(self.len);
            let (block, _) = rest.split_at(BLOCK);
            self.push(block)?;
        }
        Ok(())
    }

    /// The same entries once more, in the same blocks. The error is that it is out of memory.
    #[tactic(auto, using(crate::proofs::BlockLemmas::blocks_same))]
    pub(crate) fn share(&self) -> Result<Blocks, AllocError>
        ensures { IfOk result (λ all. all ≡ self.now) }
    {
        Ok(Blocks {
            alloc: self.alloc,
            blocks: shared(self.alloc, &self.blocks)?,
            len: self.len,
        })
    }

    /// All that a site holds. The blocks are shared, and what they lack is a block of its own. O(blocks) and fewer entries than
    /// a block has, if the blocks follow the site.
    #[tactic(auto, using(crate::proofs::BlockLemmas::blocks_same, crate::proofs::BlockLemmas::front_whole))]
    pub(crate) fn with_rest(&self, arrivals: &[Entry]) -> Result<Blocks, AllocError>
        requires { IsPrefix self.now arrivals.now }
        ensures { IfOk result (λ all. all ≡ arrivals.now) }
    {
        let mut all = self.share()?;
        let (_, rest) = arrivals.split_at(self.len);
        all.push(rest)?;
        Ok(all)
    }
}

//! A set of messages with the order of its archive text, both built at the same time, and that text in pieces, each
//! written in a thread of its own if a thread can be started.

ghost use Rattle.std.specs.Prelude.{◌≡◌, ◌<◌, ◌≤◌, map, IfOk};
ghost use Rattle.std.specs.Thread.{IsSync};
ghost use Rattle.sct_message.specs.Ascending.{ascending};
ghost use Rattle.sct_message.specs.Keys.{identity_of};
ghost use Rattle.sct_message.specs.Order.{identity_order};
ghost use Rattle.sct_set.specs.Archive.{archive_text_of, AreReadAgain};
ghost use Rattle.sct_set.specs.Contents.{contents_of};
ghost use Rattle.sct_set.specs.Drafts.{drafts_in};
ghost use Rattle.sct_set.specs.Groups.{AreWritten};
ghost use Rattle.sct_set.specs.Pieces.{joined};

use crate::arrivals::Arrivals;
use crate::fault::SetFault;
use crate::text::{identities_of, lines_by};
use rayon::prelude::*;
use sct_message::{Identity, Message, keys_are_ordered};
use std::alloc::{AllocError, Global};
use std::marker::Model;
use std::sync::Arc;
use std::thread::{Threads, available_parallelism, join};

// The most halvings of a list.
const MOST_HALVINGS: u32 = 16;
// Fewer identities than this are written in one piece.
const WORTH_A_THREAD: usize = 256;

// The identities of the messages, ascending, each once, sorted in several threads.
fn identities_in_order<R: Threads + Sync>(
    rt: &R,
    alloc: Global,
    messages: &[Arc<Message>],
) -> Result<Vec<Identity>, AllocError>
    ensures { IfOk result (λ found. found.items ≡ ascending identity_order (map identity_of (drafts_in messages.now))) }
{
    keys_are_ordered();
    let mut found = identities_of(alloc, messages)?;
    par_sort(rt, alloc, &mut found)?;
    found.dedup();
    Ok(found)
}

// The lines of the messages of these identities, as one piece.
fn one_piece(arrivals: &Arrivals, identities: &[Identity]) -> Result<Vec<Vec<u8>>, AllocError>
    ensures { IfOk result (λ pieces. AreWritten arrivals.now identities.now (joined pieces.items)) }
{
    let mut pieces = Vec::new(arrivals.allocator());
    pieces.push(lines_by(arrivals, identities)?)?;
    Ok(pieces)
}

// The lines of the messages of these identities. The list is halved `halvings` times, and each part is one piece.
#[cycle(halves)]
fn pieces_by_halves<R: Threads + Sync>(
    rt: &R,
    arrivals: &Arrivals,
    identities: &[Identity],
    halvings: u32,
) -> Result<Vec<Vec<u8>>, AllocError>
    requires { halvings ≤ 16 }
    ensures { IfOk result (λ pieces. AreWritten arrivals.now identities.now (joined pieces.items)) }
{
    if halvings == 0 {
        return one_piece(arrivals, identities);
    }
    let (front, back) = identities.split_at(identities.len() / 2);
    let (first, second) = join(
        rt,
        || -> Result<Vec<Vec<u8>>, AllocError>
            requires { IsSync R.row × (0 < halvings) × (halvings ≤ 16) }
            ensures { IfOk result (λ pieces. AreWritten arrivals.entry.now front.entry.now (joined pieces.items)) }
        { pieces_by_halves(rt, arrivals, front, halvings - 1) },
        || -> Result<Vec<Vec<u8>>, AllocError>
            requires { IsSync R.row × (0 < halvings) × (halvings ≤ 16) }
            ensures { IfOk result (λ pieces. AreWritten arrivals.entry.now back.entry.now (joined pieces.items)) }
        { pieces_by_halves(rt, arrivals, back, halvings - 1) },
    );
    let mut pieces = first?;
    let mut more = second?;
    pieces.append(&mut more)?;
    Ok(pieces)
}

// How often a list of identities is halved: so often that there are about two pieces for each processor.
fn halvings<R: Threads>(rt: &R, identities: &[Identity]) -> u32
    ensures { result ≤ 16 }
{
    if identities.len() < WORTH_A_THREAD {
        return 0;
    }
    match available_parallelism(rt) {
        Ok(processors) => processors
            .get()
            .saturating_mul(2)
            .ilog2()
            .min(MOST_HALVINGS),
        Err(_) => 0,
    }
}

// The archive text in pieces, from the identities of the messages in order.
fn archive_pieces<R: Threads + Sync>(
    rt: &R,
    arrivals: &Arrivals,
    identities: &[Identity],
) -> Result<Vec<Vec<u8>>, AllocError>
    requires { identities.now ≡ ascending identity_order (map identity_of arrivals.now) }
    ensures text { IfOk result (λ pieces. joined pieces.items ≡ archive_text_of (contents_of arrivals.now)) }
    ensures again { IfOk result (λ pieces. AreReadAgain (contents_of arrivals.now)) }
{
    pieces_by_halves(rt, arrivals, identities, halvings(rt, identities))
}

// Each of the messages once, in the order of their arrival.
fn arrivals_of(alloc: Global, messages: &[Arc<Message>]) -> Result<Arrivals, AllocError>
    ensures { IfOk result (λ arrivals. contents_of arrivals ≡ contents_of (drafts_in messages.now)) }
{
    let mut arrivals = Arrivals::new(alloc);
    arrivals.add_all(messages)?;
    Ok(arrivals)
}

/// Messages, each held once, with their identities in order.
#[derive(Drop)]
pub struct SortedArchive {
    arrivals: Arrivals,
    identities: Vec<Identity>,
}

impl Model for SortedArchive {
    ghost use Rattle.std.specs.Prelude.{◌≡◌, map};
    ghost use Rattle.std.specs.FinSet as set;
    ghost use Rattle.sct_message.specs.Ascending.{ascending};
    ghost use Rattle.sct_message.specs.Keys.{identity_of};
    ghost use Rattle.sct_message.specs.contracts.messages.Message as message;
    ghost use Rattle.sct_message.specs.Order.{identity_order, message_order};

    ghost Value = { set.FinSet message_order };

    ghost coded = { set.code message.the_row.coded };

    ghost view = { λ o. set.from_list o.arrivals };

    ghost invariant = { λ o. o.identities.items ≡ ascending identity_order (map identity_of o.arrivals) };
}

impl SortedArchive {
    ghost use Rattle.sct_set.specs.Archive.{archive_text_of, AreReadAgain};

    /// The set of the messages, which may be in any order and may repeat.
    /// Its order is computed at the same time, in as many threads as there are processors. Error: `Memory` (39).
    pub fn of<R: Threads + Sync>(
        rt: &R,
        alloc: Global,
        messages: &[Arc<Message>],
    ) -> Result<Self, SetFault>
        ensures { IfOk result (λ ordered. ordered ≡ contents_of (drafts_in messages.now)) }
    {
        let (filled, sorted) = join(
            rt,
            || -> Result<Arrivals, AllocError>
                ensures { IfOk result (λ arrivals. contents_of arrivals ≡ contents_of (drafts_in messages.entry.now)) }
            { arrivals_of(alloc, messages) },
            || -> Result<Vec<Identity>, AllocError>
                requires { IsSync R.row }
                ensures { IfOk result (λ found.
                    found.items ≡ ascending identity_order (map identity_of (drafts_in messages.entry.now))) }
            { identities_in_order(rt, alloc, messages) },
        );
        let arrivals = filled?;
        let identities = sorted?;
        Ok(SortedArchive {
            arrivals,
            identities,
        })
    }

    /// The archive text in pieces, one after another, written in as many threads as there are processors.
    /// If a thread cannot be started, another thread does its work. Error: `Memory` (39).
    pub fn text_in_pieces<R: Threads + Sync>(&self, rt: &R) -> Result<Vec<Vec<u8>>, SetFault>
        ensures text { IfOk result (λ pieces. joined pieces.items ≡ archive_text_of self.now) }
        ensures again { IfOk result (λ pieces. AreReadAgain self.now) }
    {
        Ok(archive_pieces(rt, &self.arrivals, &self.identities)?)
    }
}

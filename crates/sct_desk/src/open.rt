//! How a desk is opened.

ghost use Rattle.std.specs.Prelude.{◌≡◌, ◌≤◌, ◌<◌, ◌^◌, [], Some, true, drop, vec_len, IfOk, IfErr, OnOk};
ghost use Rattle.sct_desk.specs.declared.fault.DeskFault.TheVariants as fault;
ghost use Rattle.std.specs.List.{All};
ghost use Rattle.left_right.specs.Sides.{view as seat_view};
ghost use Rattle.sct_site.specs.Cores.{is_open};
ghost use Rattle.sct_desk.specs.Openings.{FailsToOpen, IsNewQuery};
ghost use Rattle.sct_desk.specs.Rules.{view_of};

use crate::desk::Desk;
use crate::fault::DeskFault;
use crate::held::{HeldArrivals, Site};
use crate::query::Query;
use crate::shown::{Shown, ShownWriter, ShowsArrivals, WriterKnowledge};
use sct_site::{History, SiteCore, Track};
use sct_view::View;
use std::alloc::Global;
use std::marker::PhantomData;
use std::sync::{Mutex, Wait};

/// A desk has places for at most this many queries.
const MOST_PLACES: usize = 16;

// The view of no message, with the empty beginning of the history.
fn nothing(alloc: Global, track: &Track) -> Shown
    requires { track.now.log ≡ [] }
    ensures { result ≡ view_of track.now.book [] }
{
    Shown {
        view: View::new(alloc),
        track: track.again(),
    }
}

// A writer that has published the view of no message. From then on it knows which history it is of.
fn writer<R: Wait>(
    rt: &R,
    alloc: Global,
    track: &Track,
    places: usize,
) -> Result<ShownWriter, DeskFault>
    requires track { track.now.log ≡ [] }
    requires places { (0 < places) × (places < 2 ^ 32) }
    ensures shown { IfOk result (λ w. w.desk.shown.value ≡ view_of track.now.book []) }
    ensures none { IfOk result (λ w. drop w.behind w.log.items ≡ []) }
    ensures book { IfOk result (λ w. (seat_view w.desk.place).book ≡ Some track.now.book) }
    ensures refused { IfErr result (λ refusal. refusal ≡ fault.Memory) }
{
    let first = nothing(alloc, track);
    let second = nothing(alloc, track);
    let Ok(writer) = ShownWriter::new(alloc, first, second, places) else {
        return Err(DeskFault::Memory);
    };
    let (writer, published) = writer.publish_as::<ShowsArrivals, R>(rt);
    match published {
        Ok(()) => Ok(writer),
        Err(_) => {
            drop(writer.take(rt));
            Err(DeskFault::Memory)
        }
    }
}

// One more query, which knows the history and has seen nothing. The writer has a place for each query of its desk. So a
// reader is refused only for memory: its owners cannot be counted any further.
fn query(writer: &mut ShownWriter, number: u16, track: &Track) -> Result<Query, DeskFault>
    requires { (seat_view writer.old.desk.place).book ≡ Some track.now.book }
    ensures shown { writer.new.desk.shown ≡ writer.old.desk.shown }
    ensures pending { drop writer.new.behind writer.new.log.items
        ≡ drop writer.old.behind writer.old.log.items }
    ensures knows { seat_view writer.new.desk.place ≡ seat_view writer.old.desk.place }
    ensures query { IfOk result (λ q. q
        ≡ record { site = number; book = track.now.book; seen = track.now.log }) }
    ensures refused { IfErr result (λ refusal. refusal ≡ fault.Memory) }
{
    let Ok(mut reader) = writer.factory().reader() else {
        return Err(DeskFault::Memory);
    };
    reader.learn::<WriterKnowledge>(writer.tell::<WriterKnowledge>());
    Ok(Query {
        site: number,
        reader,
        track: track.again(),
    })
}

// As many queries as `places`.
fn queries(
    alloc: Global,
    writer: &mut ShownWriter,
    number: u16,
    track: &Track,
    places: usize,
) -> Result<Vec<Query>, DeskFault>
    requires { (seat_view writer.old.desk.place).book ≡ Some track.now.book }
    ensures shown { writer.new.desk.shown ≡ writer.old.desk.shown }
    ensures pending { drop writer.new.behind writer.new.log.items
        ≡ drop writer.old.behind writer.old.log.items }
    ensures len { IfOk result (λ qs. vec_len qs ≡ places) }
    ensures queries { IfOk result (λ qs. All (λ q. q
        ≡ record { site = number; book = track.now.book; seen = track.now.log }) qs.items) }
    ensures refused { IfErr result (λ refusal. refusal ≡ fault.Memory) }
{
    let mut queries = Vec::new(alloc);
    for _ in 0..places {
        let query = query(writer, number, track)?;
        let Ok(()) = queries.push(query) else {
            return Err(DeskFault::Memory);
        };
    }
    Ok(queries)
}

impl<J: Site, R: Wait + Drop> Desk<J, R> {
    /// Opens the desk of the site `number` of a group of `group` sites, on a history that
    /// was just opened, with `places` queries.
    /// The desk keeps `rt`, so that it can wait for readers when it is dropped. The first of these errors is returned:
    /// - `BadSite` (44): the group does not have 1 to 1024 sites, or does not have this site;
    /// - `NoPlace` (52): `places` is not 1 to 16;
    /// - `Memory` (50).
    pub fn open(
        rt: R,
        alloc: Global,
        history: History,
        track: Track,
        number: u16,
        group: u16,
        places: usize,
    ) -> Result<(Desk<J, R>, Vec<Query>), DeskFault>
        requires history { history ≡ J.book }
        requires track { (track.book ≡ J.book) × (track.log ≡ []) }
        requires number { number ≡ J.number }
        requires group { group ≡ J.group }
        ensures site { OnOk result (is_open number group ≡ true) }
        ensures places { OnOk result ((1 ≤ places) × (places ≤ 16)) }
        ensures len { IfOk result (λ d. vec_len d.1 ≡ places) }
        ensures queries { IfOk result (λ d. All (IsNewQuery J.book J.number) d.1.items) }
        ensures refused { IfErr result (FailsToOpen number group places) }
    {
        let Ok(core) = SiteCore::open(alloc, number, group) else {
            return Err(DeskFault::BadSite);
        };
        if places == 0 || places > MOST_PLACES {
            return Err(DeskFault::NoPlace);
        }
        let mut writer = writer(&rt, alloc, &track, places)?;
        let queries = match queries(alloc, &mut writer, number, &track, places) {
            Ok(queries) => queries,
            Err(refusal) => {
                drop(writer.take(&rt));
                return Err(refusal);
            }
        };
        let held = HeldArrivals {
            core,
            writer,
            track,
            handed: 0,
            marks: Vec::new(alloc),
            rt,
            of: PhantomData,
        };
        let desk = Desk {
            history,
            lock: Mutex::new(held),
        };
        Ok((desk, queries))
    }
}

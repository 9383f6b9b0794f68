//! Desks other than the one under trial: one that is opened and not used, and one of another site.

ghost use Rattle.std.specs.Prelude.{◌≡◌, []};

use super::texts::{fault_text, taken_text};
use anyhow::{Result, bail};
use sct_desk::{Desk, Query, Site};
use sct_message::Message;
use sct_site::{History, Track};
use std::alloc::Global;
use std::marker::Brand;
use std::sync::{Arc, Wait};

// The answer of opening a desk of site 1.
fn opened<J: Site, R: Wait>(
    rt: &R,
    alloc: Global,
    history: History,
    track: Track,
    group: u16,
    places: usize,
) -> Result<String>
    requires history { history ≡ J.book }
    requires track { (track.book ≡ J.book) × (track.log ≡ []) }
    requires site { (1 ≡ J.number) × (group ≡ J.group) }
{
    match Desk::<J, &R>::open(rt, alloc, history, track, 1, group, places) {
        Ok((_desk, queries)) => Ok(format!(in alloc; "opened {}\n", queries.len())?),
        Err(fault) => fault_text(alloc, &fault),
    }
}

/// How many queries a desk of site 1 of this group has after it is opened with this number of places.
pub fn opened_text<R: Wait>(rt: &R, alloc: Global, group: u16, places: usize) -> Result<String> {
    let (history, track) = History::open();
    opened::<Brand, R>(rt, alloc, history, track, group, places)
}

// Takes a message at a desk of site 2, makes the query of site 1 learn the receipt, and returns the receipt's text.
fn learn_from<K: Site, R: Wait>(
    rt: &R,
    alloc: Global,
    history: History,
    track: Track,
    message: Arc<Message>,
    query: &mut Query,
) -> Result<String>
    requires history { history ≡ K.book }
    requires track { (track.book ≡ K.book) × (track.log ≡ []) }
    requires site { (2 ≡ K.number) × (2 ≡ K.group) }
    requires other { query.old.site ≡ 1 }
    ensures { (query.new.site ≡ query.old.site) × (query.new.book ≡ query.old.book) }
{
    let Ok((desk, _queries)) = Desk::<K, &R>::open(rt, alloc, history, track, 2, 2, 1) else {
        bail!("no other desk");
    };
    match desk.take(rt, alloc, message) {
        Ok((took, receipt)) => {
            query.learn(&receipt);
            taken_text(alloc, &took, &receipt)
        }
        Err(fault) => fault_text(alloc, &fault),
    }
}

/// Takes a message at a new desk of site 2, makes the query of site 1 learn the receipt,
/// and returns the receipt's text.
pub fn learn_other<R: Wait>(
    rt: &R,
    alloc: Global,
    message: Arc<Message>,
    query: &mut Query,
) -> Result<String>
    requires { query.old.site ≡ 1 }
    ensures { (query.new.site ≡ query.old.site) × (query.new.book ≡ query.old.book) }
{
    let (history, track) = History::open();
    learn_from::<Brand, R>(rt, alloc, history, track, message, query)
}

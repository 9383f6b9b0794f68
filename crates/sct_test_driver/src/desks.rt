//! Trials of desks.

mod asking;
mod calls;
mod other;
mod texts;
mod times;

use anyhow::{Result, bail};
use calls::try_calls;
use std::alloc::Global;
use std::io::{BufRead, Write};
use std::sync::Wait;
use std::thread::Threads;
use std::time::Clock;
use times::try_times;

/// Does what a word and the number after it say of desks.
pub fn try_desks<R: Threads + Wait + Clock + Sync, B: BufRead + Drop, W: Write>(
    rt: &R,
    alloc: Global,
    word: &str,
    number: u64,
    reader: B,
    out: &mut W,
) -> Result<()> {
    match word {
        "group" => try_calls(rt, alloc, u16::try_from(number)?, reader, out),
        "times" => try_times(rt, alloc, number, out),
        _ => bail!("no trial of that name"),
    }
}

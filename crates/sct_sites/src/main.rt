//! The program: answers on the messages of standard input, or of files, as the command line asks. The process ends
//! after one run, so its memory is given back only when it ends.
#![tactic(auto)]

use sct_commands::{Release, read_words};
use sct_engine::{Storage, run_over_std};
use sct_journal::HostDisks;
use sct_streams::HostFiles;
use sqlite_disk::Wary;
use std::env;
use std::marker::Brand;
use std::process::ExitCode;
use std::sync::ledger::Blank;

fn main(rt: HostRuntime) -> ExitCode {
    let mut left = None;
    ExitCode::from(run_over_std::<_, _, _, _, _, _, Brand, Brand, Brand, Brand>(
        &rt,
        rt.alloc(),
        Release::AtExit,
        Storage {
            files: &HostFiles::new(&rt),
            disks: HostDisks::new(&rt, Wary),
        },
        read_words(rt.alloc(), env::args(&rt)),
        (rt.stdin(), Blank::new(1)),
        (rt.stdout(), Blank::new(1)),
        (rt.stderr(), Blank::new(1)),
        Blank::new(1),
        &mut left,
    ))
}

//! An example of a program over the libraries. It reads messages on standard input, one JSON object a line, and prints the lines of
//! one transfer. Its words are the originator bank and the identification of the transfer:
//!
//!     sct_library_example LUTEFRPP LU20250310B6 < bank-day.jsonl
//!
//! [`view_of`] reads the lines and makes a view of their messages, and [`lines_of`] asks it. Their contracts say which view and
//! which text that is, in terms of the definitions. They are proved from the contracts of the calls.
#![tactic(auto)]

ghost use Rattle.std.specs.Prelude.{◌≡◌, IfOk};
ghost use Rattle.sct_lines.specs.Lines.{messages_read};
ghost use Rattle.sct_set.specs.Contents.{contents_of};
ghost use Rattle.sct_view.specs.StatusText.{lines_on};

use anyhow::{Result, bail};
use sct_case::CaseFault;
use sct_element::{read_bic, read_identification};
use sct_lines::{Intake, read_lines};
use sct_message::TransferKey;
use sct_view::View;
use std::alloc::Global;
use std::env;
use std::io::{Read, Write};
use std::thread::Threads;

// The view of the messages of an input. A line that is not a message is left out. Error: `Memory` (39).
fn view_of<R: Threads + Sync>(rt: &R, alloc: Global, input: &[u8]) -> Result<View, CaseFault>
    ensures { IfOk result (λ view. view ≡ contents_of (messages_read input.now)) }
{
    let Intake {
        messages,
        refusals: _,
    } = read_lines(rt, alloc, input)?;
    View::of_messages(rt, alloc, &messages)
}

// The T, F and R lines of a transfer, by the set of the messages of an input. Error: `Memory` (39).
fn lines_of<R: Threads + Sync>(
    rt: &R,
    alloc: Global,
    input: &[u8],
    transfer: &TransferKey,
) -> Result<Vec<u8>, CaseFault>
    ensures { IfOk result (λ text. text.items ≡ lines_on (contents_of (messages_read input.now)) transfer.now) }
{
    let view = view_of(rt, alloc, input)?;
    let text = view.transfer_text(transfer)?;
    Ok(text)
}

// The transfer that two words name.
fn transfer_of(words: &[String]) -> Result<TransferKey> {
    match words {
        [_, bank, tx] => Ok(TransferKey {
            debtor_agent: read_bic(bank.as_str())?,
            tx: read_identification(tx.as_str())?,
        }),
        _ => bail!("the words are a bank and the identification of a transfer"),
    }
}

fn main(rt: HostRuntime) -> Result<()> {
    let alloc = rt.alloc();
    let words: Vec<String> = env::args(&rt)?.collect(alloc)?;
    let transfer = transfer_of(&words)?;
    let mut input = Vec::new(alloc);
    rt.stdin().read_to_end(&mut input)?;
    rt.stdout()
        .write_all(&lines_of(&rt, alloc, &input, &transfer)?)?;
    Ok(())
}

//! Copies of entries, which share their messages.

ghost use Rattle.std.specs.Prelude.{◌≡◌, ◌++◌, ◌≤◌, OnOk};

use sct_delta::Entry;
use std::alloc::AllocError;

/// Appends copies of entries. The error is that it is out of memory.
pub(crate) fn push_copies(out: &mut Vec<Entry>, entries: &[Entry]) -> Result<(), AllocError>
    ensures { OnOk result (out.new.items ≡ out.old.items ++ entries.now) }
{
    for entry in entries {
        out.push(Entry {
            origin: entry.origin,
            n: entry.n,
            message: entry.message.clone()?,
        })?;
    }
    Ok(())
}

//! Calls of a disk that leave nothing under way.

ghost use Rattle.std.specs.Prelude.{◌≡◌, ◌⊎◌, ◌+◌, ◌<◌, ◌≤◌, List, ℕ, IsTrue, IsErr, IsErrOf, IfOk, IfErr, OnOk, length, take, drop};
ghost use Rattle.sqlite_disk.specs.Disk.{Cut, MoreFaults, Only, Torn};
ghost use Rattle.sct_journal.specs.Disks.{is_with};
ghost use Rattle.sct_journal.specs.declared.error.JournalError.TheVariants as error;

use crate::error::JournalError;
use sqlite_disk::Disk;
use std::alloc::Global;
use std::io;

// Writes bytes at an offset, and syncs.
pub(crate) fn put<D: Disk>(disk: &mut D, at: usize, bytes: &[u8]) -> io::Result<()>
    requires usable { IsTrue (D.Disk.is_usable disk.old) }
    requires durable { Only (D.Disk.seen disk.old) (D.Disk.may_leave disk.old) }
    requires some { 0 < length bytes.now }
    ensures written { OnOk result (at ≤ length (D.Disk.seen disk.old) → D.Disk.seen disk.new ≡ is_with (D.Disk.seen disk.old) at bytes.now) }
    ensures durable { OnOk result (Only (D.Disk.seen disk.new) (D.Disk.may_leave disk.new)) }
    ensures usable { OnOk result (IsTrue (D.Disk.is_usable disk.new)) }
    ensures crash { (c : List ℕ) → D.Disk.may_leave disk.new c → Torn at (length bytes.now) (D.Disk.seen disk.old) c }
    ensures clean { D.Disk.is_clean disk.new ≡ D.Disk.is_clean disk.old }
    ensures cause { IsErr result → MoreFaults (D.Disk.faults disk.old) (D.Disk.faults disk.new) }
    ensures faults { D.Disk.faults disk.old ≤ D.Disk.faults disk.new }
{
    disk.write_at(at, bytes)?;
    disk.sync()?;
    Ok(())
}

// Cuts a file to a length, and syncs.
pub(crate) fn cut<D: Disk>(disk: &mut D, len: usize) -> io::Result<()>
    requires usable { IsTrue (D.Disk.is_usable disk.old) }
    requires durable { Only (D.Disk.seen disk.old) (D.Disk.may_leave disk.old) }
    ensures cut { OnOk result (Cut len (D.Disk.seen disk.old) (D.Disk.seen disk.new)) }
    ensures length { OnOk result (length (D.Disk.seen disk.new) ≡ len) }
    ensures durable { OnOk result (Only (D.Disk.seen disk.new) (D.Disk.may_leave disk.new)) }
    ensures usable { OnOk result (IsTrue (D.Disk.is_usable disk.new)) }
    ensures crash { (c : List ℕ) → D.Disk.may_leave disk.new c → Cut len (D.Disk.seen disk.old) c }
    ensures clean { D.Disk.is_clean disk.new ≡ D.Disk.is_clean disk.old }
    ensures cause { IsErr result → MoreFaults (D.Disk.faults disk.old) (D.Disk.faults disk.new) }
    ensures faults { D.Disk.faults disk.old ≤ D.Disk.faults disk.new }
{
    disk.set_len(len)?;
    disk.sync()?;
    Ok(())
}

// So many bytes of a file from a place on.
pub(crate) fn read_part<D: Disk>(
    alloc: Global,
    disk: &mut D,
    at: usize,
    count: usize,
) -> Result<Vec<u8>, JournalError>
    requires { IsTrue (D.Disk.is_usable disk.old) }
    ensures bytes { IfOk result (λ bytes. IsTrue (D.Disk.is_clean disk.new) → at + count ≤ length (D.Disk.seen disk.old)
        → bytes.items ≡ take count (drop at (D.Disk.seen disk.old))) }
    ensures length { IfOk result (λ bytes. length bytes.items ≡ count) }
    ensures seen { D.Disk.seen disk.new ≡ D.Disk.seen disk.old }
    ensures usable { IsTrue (D.Disk.is_usable disk.new) }
    ensures crash { (c : List ℕ) → D.Disk.may_leave disk.new c → D.Disk.may_leave disk.old c }
    ensures clean { IsTrue (D.Disk.is_clean disk.new) → IsTrue (D.Disk.is_clean disk.old) }
    ensures failed { (IsTrue (D.Disk.is_clean disk.old) → at + count ≤ length (D.Disk.seen disk.old))
        → IsErrOf result error.Disk → MoreFaults (D.Disk.faults disk.old) (D.Disk.faults disk.new) }
    ensures faults { D.Disk.faults disk.old ≤ D.Disk.faults disk.new }
    ensures errors { IfErr result (λ e. (e ≡ error.Memory) ⊎ (e ≡ error.Disk)) }
{
    let mut bytes = vec![in alloc; 0u8; count]?;
    if count > 0 {
        disk.read_at(at, &mut bytes)?;
    }
    Ok(bytes)
}

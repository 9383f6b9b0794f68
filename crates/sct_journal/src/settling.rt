//! The end of a file that a stop may have left.

ghost use Rattle.std.specs.Prelude.{◌≡◌, ◌+◌, ◌≤◌, List, ℕ, IsErr, IsTrue, IfOk, OnOk, length, drop, max};
ghost use Rattle.sqlite_disk.specs.Disk.{MoreFaults, Only};
ghost use Rattle.sct_journal.specs.Kept.{is_ajar, kept};
ghost use Rattle.sct_journal.specs.Settled.{EndsKept, IsAtRest};

use crate::disks::{cut, put};
use crate::lines::{OPEN, SHUT};
use sqlite_disk::Disk;
use std::io;

// Shuts the gate behind the kept lines of a file, and cuts off what is behind it.
pub(crate) fn settle<D: Disk>(disk: &mut D, len: usize, end: usize) -> io::Result<()>
    requires usable { IsTrue (D.Disk.is_usable disk.old) }
    requires durable { Only (D.Disk.seen disk.old) (D.Disk.may_leave disk.old) }
    requires fits { end ≤ len }
    requires len { IsTrue (D.Disk.is_clean disk.old) → len ≡ length (D.Disk.seen disk.old) }
    ensures usable { OnOk result (IsTrue (D.Disk.is_usable disk.new)) }
    ensures durable { OnOk result (Only (D.Disk.seen disk.new) (D.Disk.may_leave disk.new)) }
    ensures rest { IsTrue (D.Disk.is_clean disk.new) → EndsKept (D.Disk.seen disk.old) end → OnOk result (IsAtRest (D.Disk.seen disk.new) end) }
    ensures same { IsTrue (D.Disk.is_clean disk.new) → EndsKept (D.Disk.seen disk.old) end → OnOk result (kept (D.Disk.seen disk.new) ≡ kept (D.Disk.seen disk.old)) }
    ensures crash { IsTrue (D.Disk.is_clean disk.new) → EndsKept (D.Disk.seen disk.old) end → (c : List ℕ) → D.Disk.may_leave disk.new c → kept c ≡ kept (D.Disk.seen disk.old) }
    ensures cut { IsTrue (D.Disk.is_clean disk.new) → EndsKept (D.Disk.seen disk.old) end → OnOk result (length (D.Disk.seen disk.new) ≡ end + 1) }
    ensures clean { IsTrue (D.Disk.is_clean disk.new) → IsTrue (D.Disk.is_clean disk.old) }
    ensures cause { IsErr result → MoreFaults (D.Disk.faults disk.old) (D.Disk.faults disk.new) }
    ensures faults { D.Disk.faults disk.old ≤ D.Disk.faults disk.new }
{
    shut(disk, len, end)?;
    trim(disk, len, end)?;
    Ok(())
}

// Shuts the gate behind the kept lines, where none stands yet or an open one: no whole line is behind that.
fn shut<D: Disk>(disk: &mut D, len: usize, end: usize) -> io::Result<()>
    requires usable { IsTrue (D.Disk.is_usable disk.old) }
    requires durable { Only (D.Disk.seen disk.old) (D.Disk.may_leave disk.old) }
    requires fits { end ≤ len }
    requires len { IsTrue (D.Disk.is_clean disk.old) → len ≡ length (D.Disk.seen disk.old) }
    ensures usable { OnOk result (IsTrue (D.Disk.is_usable disk.new)) }
    ensures durable { OnOk result (Only (D.Disk.seen disk.new) (D.Disk.may_leave disk.new)) }
    ensures rest { IsTrue (D.Disk.is_clean disk.new) → EndsKept (D.Disk.seen disk.old) end → OnOk result (IsAtRest (D.Disk.seen disk.new) end) }
    ensures same { IsTrue (D.Disk.is_clean disk.new) → EndsKept (D.Disk.seen disk.old) end → OnOk result (kept (D.Disk.seen disk.new) ≡ kept (D.Disk.seen disk.old)) }
    ensures crash { IsTrue (D.Disk.is_clean disk.new) → EndsKept (D.Disk.seen disk.old) end → (c : List ℕ) → D.Disk.may_leave disk.new c → kept c ≡ kept (D.Disk.seen disk.old) }
    ensures length { IsTrue (D.Disk.is_clean disk.new) → EndsKept (D.Disk.seen disk.old) end → OnOk result (length (D.Disk.seen disk.new) ≡ max len (end + 1)) }
    ensures clean { IsTrue (D.Disk.is_clean disk.new) → IsTrue (D.Disk.is_clean disk.old) }
    ensures cause { IsErr result → MoreFaults (D.Disk.faults disk.old) (D.Disk.faults disk.new) }
    ensures faults { D.Disk.faults disk.old ≤ D.Disk.faults disk.new }
{
    if !stands_ajar(disk, len, end)? {
        return Ok(());
    }
    put(disk, end, &[SHUT])?;
    Ok(())
}

// Whether a line could still be kept at a place of a file behind which no line is: no gate is there, or an open one.
fn stands_ajar<D: Disk>(disk: &mut D, len: usize, place: usize) -> io::Result<bool>
    requires usable { IsTrue (D.Disk.is_usable disk.old) }
    requires fits { place ≤ len }
    requires len { IsTrue (D.Disk.is_clean disk.old) → len ≡ length (D.Disk.seen disk.old) }
    ensures ajar { IfOk result (λ ajar. IsTrue (D.Disk.is_clean disk.new) → ajar ≡ is_ajar (drop place (D.Disk.seen disk.old))) }
    ensures seen { D.Disk.seen disk.new ≡ D.Disk.seen disk.old }
    ensures usable { IsTrue (D.Disk.is_usable disk.new) }
    ensures crash { (c : List ℕ) → D.Disk.may_leave disk.new c → D.Disk.may_leave disk.old c }
    ensures clean { IsTrue (D.Disk.is_clean disk.new) → IsTrue (D.Disk.is_clean disk.old) }
    ensures cause { IsErr result → MoreFaults (D.Disk.faults disk.old) (D.Disk.faults disk.new) }
    ensures faults { D.Disk.faults disk.old ≤ D.Disk.faults disk.new }
{
    if place >= len {
        return Ok(true);
    }
    let mut gate = [0u8];
    disk.read_at(place, &mut gate)?;
    Ok(gate[0] == OPEN)
}

// Cuts off what is behind the shut gate.
fn trim<D: Disk>(disk: &mut D, len: usize, end: usize) -> io::Result<()>
    requires usable { IsTrue (D.Disk.is_usable disk.old) }
    requires durable { Only (D.Disk.seen disk.old) (D.Disk.may_leave disk.old) }
    ensures usable { OnOk result (IsTrue (D.Disk.is_usable disk.new)) }
    ensures durable { OnOk result (Only (D.Disk.seen disk.new) (D.Disk.may_leave disk.new)) }
    ensures rest { IsAtRest (D.Disk.seen disk.old) end → OnOk result (IsAtRest (D.Disk.seen disk.new) end) }
    ensures same { IsAtRest (D.Disk.seen disk.old) end → OnOk result (kept (D.Disk.seen disk.new) ≡ kept (D.Disk.seen disk.old)) }
    ensures crash { IsAtRest (D.Disk.seen disk.old) end → (c : List ℕ) → D.Disk.may_leave disk.new c → kept c ≡ kept (D.Disk.seen disk.old) }
    ensures cut { length (D.Disk.seen disk.old) ≡ max len (end + 1) → OnOk result (length (D.Disk.seen disk.new) ≡ end + 1) }
    ensures clean { D.Disk.is_clean disk.new ≡ D.Disk.is_clean disk.old }
    ensures cause { IsErr result → MoreFaults (D.Disk.faults disk.old) (D.Disk.faults disk.new) }
    ensures faults { D.Disk.faults disk.old ≤ D.Disk.faults disk.new }
{
    if len <= 1 || len - 1 <= end {
        return Ok(());
    }
    cut(disk, end + 1)?;
    Ok(())
}

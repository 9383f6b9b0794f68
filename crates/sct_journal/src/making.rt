//! A journal that is made in a new file.

ghost use Rattle.std.specs.Prelude.{◌≡◌, ◌⊎◌, ◌++◌, ◌∷◌, ◌≤◌, [], List, ℕ, IsErr, IsErrOf, IsTrue, IfErr, IfOk, OnOk, true, length, max};
ghost use Rattle.sqlite_disk.specs.Disk.{MoreFaults, Only};
ghost use Rattle.sct_journal.specs.Fronts.{IsMaking, front_in, is_shut, is_staged};
ghost use Rattle.sct_journal.specs.Kept.{IsLine, at_rest};
ghost use Rattle.sct_journal.specs.declared.error.JournalError.TheVariants as error;
ghost use Rattle.sct_journal.specs.declared.front.Front.TheVariants as front;

use crate::disks::put;
use crate::error::JournalError;
use crate::front::is_staged;
use crate::lines::{OPEN, SHUT};
use sqlite_disk::Disk;
use std::alloc::{AllocError, Global};
use std::io;

// Makes a journal in a file that is new: the header behind a shut gate, with a shut gate behind it. Then the first gate opens.
pub(crate) fn make<D: Disk>(
    alloc: Global,
    disk: &mut D,
    header: &[u8],
    file: &[u8],
) -> Result<(), JournalError>
    requires usable { IsTrue (D.Disk.is_usable disk.old) }
    requires durable { Only (D.Disk.seen disk.old) (D.Disk.may_leave disk.old) }
    requires line { IsLine header.now }
    ensures made { file.now ≡ D.Disk.seen disk.old → front_in header.now file.now ≡ front.New → OnOk result (D.Disk.seen disk.new ≡ at_rest (header.now ∷ [])) }
    ensures crash { file.now ≡ D.Disk.seen disk.old → front_in header.now file.now ≡ front.New → (c : List ℕ) → D.Disk.may_leave disk.new c → IsMaking header.now c }
    ensures usable { OnOk result (IsTrue (D.Disk.is_usable disk.new)) }
    ensures durable { OnOk result (Only (D.Disk.seen disk.new) (D.Disk.may_leave disk.new)) }
    ensures clean { D.Disk.is_clean disk.new ≡ D.Disk.is_clean disk.old }
    ensures memory { IsErrOf result error.Memory → disk.new ≡ disk.old }
    ensures failed { IsErrOf result error.Disk → MoreFaults (D.Disk.faults disk.old) (D.Disk.faults disk.new) }
    ensures faults { D.Disk.faults disk.old ≤ D.Disk.faults disk.new }
    ensures errors { IfErr result (λ e. (e ≡ error.Memory) ⊎ (e ≡ error.Disk)) }
{
    let text = behind_gate(alloc, header)?;
    stage(disk, header, file, &text)?;
    put(disk, 0, &[OPEN])?;
    Ok(())
}

// What stands behind the first gate of a new journal.
fn behind_gate(alloc: Global, header: &[u8]) -> Result<Vec<u8>, AllocError>
    ensures { IfOk result (λ text. text.items ≡ header.now ++ 10 ∷ 9 ∷ []) }
{
    let mut text = Vec::new(alloc);
    text.extend_from_slice(header)?;
    text.push(b'\n')?;
    text.push(SHUT)?;
    Ok(text)
}

// Puts the header and a shut gate behind a shut gate, where they do not stand yet.
fn stage<D: Disk>(disk: &mut D, header: &[u8], file: &[u8], text: &[u8]) -> io::Result<()>
    requires usable { IsTrue (D.Disk.is_usable disk.old) }
    requires durable { Only (D.Disk.seen disk.old) (D.Disk.may_leave disk.old) }
    requires line { IsLine header.now }
    requires text { text.now ≡ header.now ++ 10 ∷ 9 ∷ [] }
    ensures staged { file.now ≡ D.Disk.seen disk.old → front_in header.now file.now ≡ front.New → OnOk result (is_staged header.now (D.Disk.seen disk.new) ≡ true) }
    ensures crash { file.now ≡ D.Disk.seen disk.old → front_in header.now file.now ≡ front.New → (c : List ℕ) → D.Disk.may_leave disk.new c → IsMaking header.now c }
    ensures usable { OnOk result (IsTrue (D.Disk.is_usable disk.new)) }
    ensures durable { OnOk result (Only (D.Disk.seen disk.new) (D.Disk.may_leave disk.new)) }
    ensures clean { D.Disk.is_clean disk.new ≡ D.Disk.is_clean disk.old }
    ensures cause { IsErr result → MoreFaults (D.Disk.faults disk.old) (D.Disk.faults disk.new) }
    ensures faults { D.Disk.faults disk.old ≤ D.Disk.faults disk.new }
{
    if is_staged(header, file) {
        return Ok(());
    }
    shut_first(disk, file)?;
    put(disk, 1, text)?;
    Ok(())
}

// Puts a shut gate at the front of a file, where none stands yet.
fn shut_first<D: Disk>(disk: &mut D, file: &[u8]) -> io::Result<()>
    requires usable { IsTrue (D.Disk.is_usable disk.old) }
    requires durable { Only (D.Disk.seen disk.old) (D.Disk.may_leave disk.old) }
    ensures shut { file.now ≡ D.Disk.seen disk.old → OnOk result (is_shut (D.Disk.seen disk.new) ≡ true) }
    ensures short { file.now ≡ D.Disk.seen disk.old → OnOk result (length (D.Disk.seen disk.new) ≤ max (length file.now) 1) }
    ensures crash { file.now ≡ D.Disk.seen disk.old → (is_shut file.now ≡ true) ⊎ (length file.now ≤ 1) → (c : List ℕ) → D.Disk.may_leave disk.new c → (c ≡ file.now) ⊎ (length c ≤ 1) }
    ensures usable { OnOk result (IsTrue (D.Disk.is_usable disk.new)) }
    ensures durable { OnOk result (Only (D.Disk.seen disk.new) (D.Disk.may_leave disk.new)) }
    ensures clean { D.Disk.is_clean disk.new ≡ D.Disk.is_clean disk.old }
    ensures cause { IsErr result → MoreFaults (D.Disk.faults disk.old) (D.Disk.faults disk.new) }
    ensures faults { D.Disk.faults disk.old ≤ D.Disk.faults disk.new }
{
    if is_shut(file) {
        return Ok(());
    }
    put(disk, 0, &[SHUT])?;
    Ok(())
}

fn is_shut(file: &[u8]) -> bool
    ensures { result ≡ is_shut file.now }
{
    match file.split_first() {
        Some((gate, _)) => *gate == SHUT,
        None => false,
    }
}

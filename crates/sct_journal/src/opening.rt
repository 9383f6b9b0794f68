//! A journal that is opened after a stop of any kind.

ghost use Rattle.std.specs.Prelude.{◌≡◌, ◌⊎◌, ◌+◌, ◌++◌, ◌∷◌, ◌<◌, ◌≤◌, [], List, ℕ, IsErrOf, IsTrue, IfErr, IfNone, IfOk, IfSome, OnErr, OnOk, length, take, drop};
ghost use Rattle.sqlite_disk.specs.Disk.{MoreFaults, Only};
ghost use Rattle.sct_journal.specs.Fronts.{IsBegun, IsLeft, front_in};
ghost use Rattle.sct_journal.specs.Kept.{IsLine, gated, gated_line, kept, recorded};
ghost use Rattle.sct_journal.specs.Openings.{IsOpening, opening_disk, opening_end, opening_len};
ghost use Rattle.sct_journal.specs.Settled.{IsSettled, disk_of};
ghost use Rattle.sct_journal.specs.declared.error.JournalError.TheVariants as error;
ghost use Rattle.sct_journal.specs.declared.front.Front.TheVariants as front;

use crate::disks::read_part;
use crate::error::JournalError;
use crate::front::{Front, front_of};
use crate::journal::Journal;
use crate::making::make;
use crate::parts::next_text;
use crate::settling::settle;
use sqlite_disk::Disk;
use std::alloc::Global;

/// A journal that is being opened: its disk, how long the file is, and how much of it was read.
#[derive(Drop)]
pub struct Opening<D: Disk> {
    disk: D,
    len: usize,
    end: usize,
}

/// Opens the file of a journal whose first line is the header, or begins one in a file that is empty. It may stop at any
/// moment, and the file is opened the next time. Of a journal that is there, only the first bytes are read.
///
/// An `Err` hands the disk back. After [`JournalError::Memory`] (65), [`JournalError::NoJournal`] (75) and
/// [`JournalError::OtherSite`] (76) the file is as it was. After [`JournalError::Disk`] (78) it is what a stop leaves.
pub fn open<D: Disk>(alloc: Global, disk: D, header: &[u8]) -> Result<Opening<D>, (JournalError, D)>
    requires usable { IsTrue (D.Disk.is_usable disk) }
    // After a restart, what is read is what is on the disk.
    requires durable { Only (D.Disk.seen disk) (D.Disk.may_leave disk) }
    requires line { IsLine header.now }

    ensures opening { IfOk result (λ opening. IsOpening D.Disk.seen D.Disk.may_leave D.Disk.is_usable D.Disk.is_clean opening) }
    ensures first { IfOk result (λ opening. IsTrue (D.Disk.is_clean (opening_disk opening))
        → kept (take (opening_end opening) (D.Disk.seen (opening_disk opening))) ≡ header.now ∷ []) }
    ensures kept { IfOk result (λ opening. IsTrue (D.Disk.is_clean (opening_disk opening))
        → kept (D.Disk.seen (opening_disk opening)) ≡ header.now ∷ recorded (D.Disk.seen disk)) }
    ensures same { IfOk result (λ opening. IsTrue (D.Disk.is_clean (opening_disk opening))
        → recorded (D.Disk.seen (opening_disk opening)) ≡ recorded (D.Disk.seen disk)) }
    ensures begun { IfOk result (λ opening. IsTrue (D.Disk.is_clean (opening_disk opening)) → IsBegun header.now (D.Disk.seen disk)) }

    // A crash at any moment leaves the lines that were recorded, and a file that is opened the next time if it is now.
    ensures crash { IfOk result (λ opening. IsTrue (D.Disk.is_clean (opening_disk opening)) → (c : List ℕ) → D.Disk.may_leave (opening_disk opening) c
        → IsLeft header.now (D.Disk.seen disk) c) }
    ensures crash_err { IfErr result (λ left. IsTrue (D.Disk.is_clean left.1) → (c : List ℕ) → D.Disk.may_leave left.1 c
        → IsLeft header.now (D.Disk.seen disk) c) }

    // A file that is refused is left as it is, and so is one for which memory runs out.
    ensures untouched { IfErr result (λ left. (left.0 ≡ error.Memory) ⊎ (left.0 ≡ error.NoJournal) ⊎ (left.0 ≡ error.OtherSite)
        → D.Disk.seen left.1 ≡ D.Disk.seen disk) }
    ensures untouched_crash { IfErr result (λ left. (left.0 ≡ error.Memory) ⊎ (left.0 ≡ error.NoJournal) ⊎ (left.0 ≡ error.OtherSite)
        → (c : List ℕ) → D.Disk.may_leave left.1 c → D.Disk.may_leave disk c) }

    ensures no_journal { IfErr result (λ left. left.0 ≡ error.NoJournal → IsTrue (D.Disk.is_clean left.1) → front_in header.now (D.Disk.seen disk) ≡ front.NoJournal) }
    ensures other_site { IfErr result (λ left. left.0 ≡ error.OtherSite → IsTrue (D.Disk.is_clean left.1) → front_in header.now (D.Disk.seen disk) ≡ front.OtherSite) }
    ensures failed { IfErr result (λ left. left.0 ≡ error.Disk → MoreFaults (D.Disk.faults disk) (D.Disk.faults left.1)) }
    ensures errors { IfErr result (λ left. (left.0 ≡ error.Memory) ⊎ (left.0 ≡ error.Disk) ⊎ (left.0 ≡ error.NoJournal) ⊎ (left.0 ≡ error.OtherSite)) }
    ensures clean { IfOk result (λ opening. IsTrue (D.Disk.is_clean (opening_disk opening)) → IsTrue (D.Disk.is_clean disk)) }
    ensures clean_err { IfErr result (λ left. IsTrue (D.Disk.is_clean left.1) → IsTrue (D.Disk.is_clean disk)) }
    ensures faults { IfOk result (λ opening. D.Disk.faults disk ≤ D.Disk.faults (opening_disk opening)) }
{
    let mut disk = disk;
    match begin(alloc, &mut disk, header) {
        Ok(len) => Ok(Opening {
            disk,
            len,
            end: header.len() + 2,
        }),
        Err(error) => Err((error, disk)),
    }
}

// Reads the first bytes of a file, begins a journal in one that is new, and returns how long the file is.
fn begin<D: Disk>(alloc: Global, disk: &mut D, header: &[u8]) -> Result<usize, JournalError>
    requires usable { IsTrue (D.Disk.is_usable disk.old) }
    requires durable { Only (D.Disk.seen disk.old) (D.Disk.may_leave disk.old) }
    requires line { IsLine header.now }
    ensures usable { OnOk result (IsTrue (D.Disk.is_usable disk.new)) }
    ensures durable { OnOk result (Only (D.Disk.seen disk.new) (D.Disk.may_leave disk.new)) }
    ensures fits { IfOk result (λ len. length header.now + 2 ≤ len) }
    ensures len { IfOk result (λ len. IsTrue (D.Disk.is_clean disk.new) → len ≡ length (D.Disk.seen disk.new)) }
    ensures first { OnOk result (IsTrue (D.Disk.is_clean disk.new) → D.Disk.seen disk.new ≡ gated_line header.now ++ drop (length header.now + 2) (D.Disk.seen disk.new)) }
    ensures same { OnOk result (IsTrue (D.Disk.is_clean disk.new) → recorded (D.Disk.seen disk.new) ≡ recorded (D.Disk.seen disk.old)) }
    ensures begun { OnOk result (IsTrue (D.Disk.is_clean disk.new) → IsBegun header.now (D.Disk.seen disk.old)) }
    ensures crash { IsTrue (D.Disk.is_clean disk.new) → (c : List ℕ) → D.Disk.may_leave disk.new c → IsLeft header.now (D.Disk.seen disk.old) c }
    ensures untouched { IfErr result (λ e. (e ≡ error.Memory) ⊎ (e ≡ error.NoJournal) ⊎ (e ≡ error.OtherSite) → D.Disk.seen disk.new ≡ D.Disk.seen disk.old) }
    ensures untouched_crash { IfErr result (λ e. (e ≡ error.Memory) ⊎ (e ≡ error.NoJournal) ⊎ (e ≡ error.OtherSite) → (c : List ℕ) → D.Disk.may_leave disk.new c → D.Disk.may_leave disk.old c) }
    ensures no_journal { IfErr result (λ e. e ≡ error.NoJournal → IsTrue (D.Disk.is_clean disk.new) → front_in header.now (D.Disk.seen disk.old) ≡ front.NoJournal) }
    ensures other_site { IfErr result (λ e. e ≡ error.OtherSite → IsTrue (D.Disk.is_clean disk.new) → front_in header.now (D.Disk.seen disk.old) ≡ front.OtherSite) }
    ensures failed { IfErr result (λ e. e ≡ error.Disk → MoreFaults (D.Disk.faults disk.old) (D.Disk.faults disk.new)) }
    ensures errors { IfErr result (λ e. (e ≡ error.Memory) ⊎ (e ≡ error.Disk) ⊎ (e ≡ error.NoJournal) ⊎ (e ≡ error.OtherSite)) }
    ensures clean { IsTrue (D.Disk.is_clean disk.new) → IsTrue (D.Disk.is_clean disk.old) }
    ensures faults { D.Disk.faults disk.old ≤ D.Disk.faults disk.new }
{
    let len = disk.len()?;
    // What tells the fronts apart.
    let most = header.len() + 6;
    let count = len.min(most);
    let bytes = read_part(alloc, disk, 0, count)?;
    match front_of(header, &bytes) {
        Front::Ours => Ok(len),
        Front::New => {
            make(alloc, disk, header, &bytes)?;
            Ok(header.len() + 3)
        }
        Front::OtherSite => Err(JournalError::OtherSite),
        Front::NoJournal => Err(JournalError::NoJournal),
    }
}

impl<D: Disk> Opening<D> {
    /// The disk of a journal whose opening is given up.
    pub fn into_disk(self) -> D
        ensures { result ≡ opening_disk self }
    {
        self.disk
    }

    /// The bytes of the next lines that the file keeps, or none if it keeps no more. A file is never held whole, unless it is
    /// one line. At an error, [`JournalError::Memory`] (65) or [`JournalError::Disk`] (78), nothing was read.
    pub fn next(&mut self, alloc: Global) -> Result<Option<Vec<u8>>, JournalError>
        requires { IsOpening D.Disk.seen D.Disk.may_leave D.Disk.is_usable D.Disk.is_clean self.old }

        ensures opening { IsOpening D.Disk.seen D.Disk.may_leave D.Disk.is_usable D.Disk.is_clean self.new }
        ensures text { IfOk result (λ next. IfSome next (λ text. IsTrue (D.Disk.is_clean (opening_disk self.new)) → text.items ≡ gated (kept text.items))) }
        ensures more { IfOk result (λ next. IfSome next (λ text. IsTrue (D.Disk.is_clean (opening_disk self.new))
            → kept (take (opening_end self.new) (D.Disk.seen (opening_disk self.new))) ≡ kept (take (opening_end self.old) (D.Disk.seen (opening_disk self.old))) ++ kept text.items)) }
        ensures moves { IfOk result (λ next. IfSome next (λ _. opening_end self.old < opening_end self.new)) }
        ensures none { IfOk result (λ next. IfNone next (IsTrue (D.Disk.is_clean (opening_disk self.new)) → kept (drop (opening_end self.new) (D.Disk.seen (opening_disk self.new))) ≡ [])) }
        ensures whole { IfOk result (λ next. IfNone next (IsTrue (D.Disk.is_clean (opening_disk self.new))
            → kept (D.Disk.seen (opening_disk self.new)) ≡ kept (take (opening_end self.new) (D.Disk.seen (opening_disk self.new))))) }
        ensures stays { IfOk result (λ next. IfNone next (opening_end self.new ≡ opening_end self.old)) }
        ensures stays_err { OnErr result (opening_end self.new ≡ opening_end self.old) }
        ensures len { opening_len self.new ≡ opening_len self.old }
        ensures seen { D.Disk.seen (opening_disk self.new) ≡ D.Disk.seen (opening_disk self.old) }
        ensures crash { (c : List ℕ) → D.Disk.may_leave (opening_disk self.new) c → D.Disk.may_leave (opening_disk self.old) c }
        ensures clean { IsTrue (D.Disk.is_clean (opening_disk self.new)) → IsTrue (D.Disk.is_clean (opening_disk self.old)) }
        ensures failed { IsErrOf result error.Disk → MoreFaults (D.Disk.faults (opening_disk self.old)) (D.Disk.faults (opening_disk self.new)) }
        ensures errors { IfErr result (λ e. (e ≡ error.Memory) ⊎ (e ≡ error.Disk)) }
        ensures faults { D.Disk.faults (opening_disk self.old) ≤ D.Disk.faults (opening_disk self.new) }
    {
        let rest = self.len - self.end;
        match next_text(alloc, &mut self.disk, self.end, rest)? {
            Some(text) => {
                self.end += text.len();
                Ok(Some(text))
            }
            None => Ok(None),
        }
    }

    /// Ends the opening of a file of which all lines were read: the gate at its end is shut if it could open by itself, and what
    /// is behind it is cut off. It may stop at any moment, and the file keeps the same lines. At an error,
    /// [`JournalError::Disk`] (78), the disk is handed back.
    pub fn close(self) -> Result<Journal<D>, (JournalError, D)>
        requires opening { IsOpening D.Disk.seen D.Disk.may_leave D.Disk.is_usable D.Disk.is_clean self }
        requires read { IsTrue (D.Disk.is_clean (opening_disk self)) → kept (drop (opening_end self) (D.Disk.seen (opening_disk self))) ≡ [] }

        ensures settled { IfOk result (λ journal. IsSettled D.Disk.seen D.Disk.may_leave D.Disk.is_usable D.Disk.is_clean journal) }
        ensures same { IfOk result (λ journal. IsTrue (D.Disk.is_clean (disk_of journal)) → kept (D.Disk.seen (disk_of journal)) ≡ kept (D.Disk.seen (opening_disk self))) }

        // Nothing is behind the gate.
        ensures cut { IfOk result (λ journal. IsTrue (D.Disk.is_clean (disk_of journal))
            → length (D.Disk.seen (disk_of journal)) ≡ length (gated (kept (D.Disk.seen (disk_of journal)))) + 1) }

        // A crash at any moment leaves the same lines.
        ensures crash { IfOk result (λ journal. IsTrue (D.Disk.is_clean (disk_of journal)) → (c : List ℕ) → D.Disk.may_leave (disk_of journal) c
            → kept c ≡ kept (D.Disk.seen (opening_disk self))) }
        ensures crash_err { IfErr result (λ left. IsTrue (D.Disk.is_clean left.1) → (c : List ℕ) → D.Disk.may_leave left.1 c
            → kept c ≡ kept (D.Disk.seen (opening_disk self))) }

        ensures failed { IfErr result (λ left. MoreFaults (D.Disk.faults (opening_disk self)) (D.Disk.faults left.1)) }
        ensures errors { IfErr result (λ left. left.0 ≡ error.Disk) }
        ensures clean { IfOk result (λ journal. IsTrue (D.Disk.is_clean (disk_of journal)) → IsTrue (D.Disk.is_clean (opening_disk self))) }
        ensures clean_err { IfErr result (λ left. IsTrue (D.Disk.is_clean left.1) → IsTrue (D.Disk.is_clean (opening_disk self))) }
        ensures faults { IfOk result (λ journal. D.Disk.faults (opening_disk self) ≤ D.Disk.faults (disk_of journal)) }
    {
        let Opening { disk, len, end } = self;
        let mut disk = disk;
        match settle(&mut disk, len, end) {
            Ok(()) => Ok(Journal { disk, end }),
            Err(_) => Err((JournalError::Disk, disk)),
        }
    }
}

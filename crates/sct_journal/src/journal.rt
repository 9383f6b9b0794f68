//! A journal of lines over a disk.

ghost use Rattle.std.specs.Prelude.{◌≡◌, ◌⊎◌, ◌++◌, ◌<◌, ◌≤◌, ◌^◌, length, List, ℕ, IsTrue, IsErrOf, IfErr, OnOk};
ghost use Rattle.sqlite_disk.specs.Disk.{MoreFaults};
ghost use Rattle.sct_journal.specs.Kept.{IsBeforeOrAfter, kept};
ghost use Rattle.sct_journal.specs.Settled.{IsSettled, disk_of};
ghost use Rattle.sct_journal.specs.declared.error.JournalError.TheVariants as error;

use crate::batch::Batch;
use crate::disks::put;
use crate::error::JournalError;
use sqlite_disk::Disk;

// The greatest place of a gate.
const MOST: usize = 1 << 62;

/// A journal at rest over its disk.
#[derive(Drop)]
pub struct Journal<D: Disk> {
    pub(crate) disk: D,
    pub(crate) end: usize,
}

impl<D: Disk> Journal<D> {
    /// The disk of the journal.
    pub fn into_disk(self) -> D
        ensures { result ≡ disk_of self }
    {
        self.disk
    }

    /// Adds a batch of lines. At `Ok` it is acknowledged: from then on each crash leaves a file that has it, whole, behind all
    /// that was there. At an error, [`JournalError::Memory`] (65), [`JournalError::Disk`] (78) or [`JournalError::Full`] (78),
    /// open the file again.
    pub fn append(&mut self, batch: Batch) -> Result<(), JournalError>
        requires { IsSettled D.Disk.seen D.Disk.may_leave D.Disk.is_usable D.Disk.is_clean self.old }

        ensures settled { OnOk result (IsSettled D.Disk.seen D.Disk.may_leave D.Disk.is_usable D.Disk.is_clean self.new) }
        ensures added { IsTrue (D.Disk.is_clean (disk_of self.old)) → OnOk result (kept (D.Disk.seen (disk_of self.new)) ≡ kept (D.Disk.seen (disk_of self.old)) ++ batch) }

        // A crash at any moment of the call leaves the lines from before it, with all of the batch or without.
        ensures crash { IsTrue (D.Disk.is_clean (disk_of self.old)) → (c : List ℕ) → D.Disk.may_leave (disk_of self.new) c
            → IsBeforeOrAfter (kept (D.Disk.seen (disk_of self.old))) batch c }

        ensures clean { D.Disk.is_clean (disk_of self.new) ≡ D.Disk.is_clean (disk_of self.old) }

        // It does not give up by itself.
        ensures failed { IsErrOf result error.Disk → MoreFaults (D.Disk.faults (disk_of self.old)) (D.Disk.faults (disk_of self.new)) }
        ensures full { IsErrOf result error.Full → IsTrue (D.Disk.is_clean (disk_of self.new)) → 2 ^ 62 ≤ length (D.Disk.seen (disk_of self.new)) }
        ensures errors { IfErr result (λ e. (e ≡ error.Memory) ⊎ (e ≡ error.Disk) ⊎ (e ≡ error.Full)) }
        ensures memory { IsErrOf result error.Memory → disk_of self.new ≡ disk_of self.old }
        ensures unwritten { IsErrOf result error.Full → disk_of self.new ≡ disk_of self.old }
        ensures faults { D.Disk.faults (disk_of self.old) ≤ D.Disk.faults (disk_of self.new) }
    {
        if batch.is_empty() {
            return Ok(());
        }
        let text = batch.into_text()?;
        if self.end > MOST {
            return Err(JournalError::Full);
        }
        // Behind the gate that is shut.
        let (gate, body) = text.split_at(1);
        put(&mut self.disk, self.end + 1, body)?;
        // The gate opens.
        put(&mut self.disk, self.end, gate)?;
        self.end += text.len() - 1;
        Ok(())
    }
}

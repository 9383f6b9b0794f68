//! The files of journals.

ghost use Rattle.std.specs.Prelude.{◌≡◌, ◌⊎◌, List, ℕ, IsTrue, IfErr, IfOk};
ghost use Rattle.sqlite_disk.specs.Disk.{Only};
ghost use Rattle.sct_journal.specs.Hosts.{error_of_open};
ghost use Rattle.sct_journal.specs.declared.error.JournalError.{JournalError};
ghost use Rattle.sct_journal.specs.declared.error.JournalError.TheVariants as error;
ghost use Rattle.sqlite_std_file.specs.declared.pair.OpenError.{OpenError};

use crate::error::JournalError;
use sqlite_disk::{Disk, Files, Start};
use sqlite_std_file::{FileFrom, OpenError};
use std::io;

// The error of a journal whose file is not opened: `Busy` exactly if another process has it.
fn error_of(failed: &OpenError) -> JournalError
    ensures { result ≡ error_of_open failed.now }
{
    match failed {
        OpenError::OutOfMemory => JournalError::Memory,
        OpenError::Busy => JournalError::Busy,
        OpenError::HotJournal => JournalError::Disk,
        OpenError::Io(error) => match error.kind() {
            io::ErrorKind::OutOfMemory => JournalError::Memory,
            _ => JournalError::Disk,
        },
    }
}

/// Where the file of a journal is found, for one journal.
pub trait Disks {
    type File: Disk + Drop;

    /// What the file at a path holds.
    ghost holds: { Self → List ℕ → List ℕ };

    /// How an opening of a path fails.
    ghost fails: { Self → List ℕ → JournalError → Type 0 };

    /// Opens the file of a journal, and makes it if it is not there. An error is [`JournalError::Memory`] (65),
    /// [`JournalError::Busy`] (77) or [`JournalError::Disk`] (78).
    fn open(self, path: &str) -> Result<Self::File, JournalError>
        ensures usable { IfOk result (λ file. IsTrue (Self.File.Disk.is_usable file)) }
        ensures durable { IfOk result (λ file. Only (Self.File.Disk.seen file) (Self.File.Disk.may_leave file)) }
        ensures holds { IfOk result (λ file. Self.File.Disk.seen file ≡ holds self path.now) }
        ensures clean { IfOk result (λ file. IsTrue (Self.File.Disk.is_clean file)) }
        ensures failed { IfErr result (fails self path.now) }
        ensures errors { IfErr result (λ e. (e ≡ error.Memory) ⊎ (e ≡ error.Busy) ⊎ (e ≡ error.Disk)) };
}

/// The files of the host, by `sqlite_std_file`, which writes no byte of a journal when it opens it. `S` stands for what the
/// file holds.
///
/// It makes an empty file beside the journal, whose name is that of the journal and `-wal`, and locks both. So a second process
/// that opens the journal gets [`JournalError::Busy`] (77). It refuses by [`JournalError::Disk`] (78): what is no regular file,
/// a file with a second name, a file that may not be written, a link at the name with `-wal`, and a journal beside which there
/// is a file of its name and `-journal`. A link at the name of the journal is followed. On a file system without locks each
/// open is [`JournalError::Disk`] (78). A refused open can leave an empty file.
#[derive(Drop)]
pub struct HostDisks<'a, S: Start> {
    host: &'a HostRuntime,
    start: S,
}

impl<'a, S: Start> HostDisks<'a, S> {
    /// The files of this host.
    pub fn new(host: &'a HostRuntime, start: S) -> Self {
        HostDisks { host, start }
    }
}

impl<S: Start> Disks for HostDisks<'_, S> {
    type File = FileFrom<S>;

    ghost holds = { λ _ _. S.Start.db };

    ghost fails = { λ _ _ e. (failed : OpenError) × (e ≡ error_of_open failed) };

    fn open(self, path: &str) -> Result<FileFrom<S>, JournalError> {
        let HostDisks { host, start } = self;
        match sqlite_std_file::open(host, path, start) {
            Ok(Files { log: _, db }) => Ok(db),
            Err(failed) => Err(error_of(&failed)),
        }
    }
}

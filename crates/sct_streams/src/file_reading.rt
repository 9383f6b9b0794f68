//! A reader of files, one after another.
ghost use Rattle.std.specs.Prelude.{◌≡◌, ◌+◌, None, Some, IfSome, OnErr, OnOk};

use crate::failures::Failures;
use crate::files::Files;
use crate::source::{Failed, Source};
use std::io;
use std::marker::Model;
use std::sync::ledger::{Blank, Ledger};

/// Reads the files of a host, one after another. It counts the files that could not be opened and the reads that failed,
/// together. An interrupted read counts as a failed one. A contract sees it as the bytes that the open file has left, and the count.
#[derive(Drop)]
pub struct FileReading<R: io::Read + Drop, L: Ledger> {
    file: Option<R>,
    failures: Failures<L>,
}

impl<R: io::Read + Drop, L: Ledger> Model for FileReading<R, L> {
    ghost use Rattle.sct_streams.specs.Stream.{Input};

    ghost Value = { Input };

    ghost use Rattle.sct_streams.specs.Files.{left_in};

    ghost view = { λ s. record { left = left_in R.remaining s.file; failures = s.failures } };
}

impl<R: io::Read + Drop, L: Ledger> FileReading<R, L> {
    /// No file is open, and nothing has failed.
    pub fn new(blank: Blank) -> Self
        requires name { blank.name ≡ L.name }
        requires parts { blank.parts ≡ L.parts }
        requires one_part { blank.parts ≡ 1 }
        ensures { result.failures ≡ 0 }
    {
        FileReading {
            file: None,
            failures: Failures::none(blank),
        }
    }

    /// Opens the file at a path in place of the one before. All of its bytes are still to be read. Error: `Failed` if the file
    /// cannot be opened, which is counted.
    pub fn open<F: Files<File = R>>(&mut self, files: &F, path: &str) -> Result<(), Failed>
        ensures given { OnOk result (IfSome (F.gives files.now path.now) (λ bytes. self.new.left ≡ Some bytes)) }
        ensures ok { OnOk result (self.new.failures ≡ self.old.failures) }
        ensures failed { OnErr result (self.new.failures ≡ self.old.failures + 1) }
    {
        match files.open(path) {
            Ok(file) => {
                self.file = Some(file);
                Ok(())
            }
            Err(failed) => {
                self.failures.add();
                Err(failed)
            }
        }
    }
}

impl<R: io::Read + Drop, L: Ledger> Source for FileReading<R, L> {
    ghost state = { λ s. s };

    #[tactic(auto, using(crate::proofs::Adapters::read_gives, crate::proofs::Adapters::read_keeps))]
    fn read(&mut self, piece: &mut [u8]) -> Result<usize, Failed> {
        let Some(file) = &mut self.file else {
            return Ok(0);
        };
        match file.read(piece) {
            Ok(n) => Ok(n),
            Err(_) => {
                self.failures.add();
                Err(Failed)
            }
        }
    }
}

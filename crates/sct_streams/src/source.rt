//! Streams that the program reads from.
ghost use Rattle.std.specs.Prelude.{◌≡◌, ◌+◌, ◌≤◌, length, IfOk, IfSome, OnOk, OnErr};
ghost use Rattle.sct_streams.specs.Stream.{Gives, HasTakenIfTold, Input};

use crate::failures::Failures;
use std::io;
use std::sync::ledger::{Blank, Ledger};

/// A read or a write that failed.
#[derive(Clone, Copy, Debug, PartialEq, Eq)]
pub struct Failed;

/// A stream that bytes are read from.
pub trait Source {
    /// The bytes that further reads will give, if they are known, and how many reads have failed.
    ghost state: { Self → Input };

    /// Reads some bytes into the front of the piece, and returns their number. 0 for a piece that has room is the end.
    /// A failed read takes no byte, and is counted.
    fn read(&mut self, piece: &mut [u8]) -> Result<usize, Failed>
        ensures fits { IfOk result (λ n. n ≤ length piece.new) }
        ensures given { IfOk result (λ n. IfSome (state self.old).left
            (λ bytes. Gives bytes n (length piece.new) piece.new (state self.new).left)) }
        ensures ok { OnOk result ((state self.new).failures ≡ (state self.old).failures) }
        ensures failed { OnErr result ((state self.new).failures ≡ (state self.old).failures + 1) }
        ensures untaken { OnErr result (HasTakenIfTold (state self.old).left (state self.new).left 0) };
}

/// A reader of std, with a count of its failed reads. An interrupted read counts as a failed one.
#[derive(Drop)]
pub struct Reading<R: io::Read + Drop, L: Ledger> {
    reader: R,
    failures: Failures<L>,
}

impl<R: io::Read + Drop, L: Ledger> Reading<R, L> {
    /// The reader, with no failed read.
    pub fn new(reader: R, blank: Blank) -> Self
        requires name { blank.name ≡ L.name }
        requires parts { blank.parts ≡ L.parts }
        requires one_part { blank.parts ≡ 1 }
        ensures none_failed { result.failures ≡ 0 }
        ensures carried { result.reader ≡ reader }
    {
        Reading {
            reader,
            failures: Failures::none(blank),
        }
    }
}

impl<R: io::Read + Drop, L: Ledger> Source for Reading<R, L> {
    ghost state = { λ s. record { left = R.remaining s.reader; failures = s.failures } };

    #[tactic(auto, using(crate::proofs::Adapters::read_gives, crate::proofs::Adapters::read_keeps))]
    fn read(&mut self, piece: &mut [u8]) -> Result<usize, Failed> {
        match self.reader.read(piece) {
            Ok(n) => Ok(n),
            Err(_) => {
                self.failures.add();
                Err(Failed)
            }
        }
    }
}

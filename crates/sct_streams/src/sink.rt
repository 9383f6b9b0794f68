//! Streams that the program writes to.
ghost use Rattle.std.specs.Prelude.{◌≡◌, ◌+◌, ◌<◌, ◌≤◌, [], length, take, IfOk, OnOk, OnErr};
ghost use Rattle.sct_streams.specs.Stream.{AppendsIfTold, Output};

use crate::failures::Failures;
use crate::source::Failed;
use std::io;
use std::sync::ledger::{Blank, Ledger};

/// A stream that bytes are written to.
pub trait Sink {
    /// The bytes that were written, if they are known, and how many writes have failed.
    ghost state: { Self → Output };

    /// Writes some bytes from the front of the piece, and returns their number. It fails if it takes no byte of a piece
    /// that has bytes. A failed write takes no byte, and is counted.
    fn write(&mut self, piece: &[u8]) -> Result<usize, Failed>
        ensures fits { IfOk result (λ n. n ≤ length piece.now) }
        ensures some { IfOk result (λ n. 0 < length piece.now → 0 < n) }
        ensures taken { IfOk result (λ n. AppendsIfTold (state self.old).held (state self.new).held (take n piece.now)) }
        ensures ok { OnOk result ((state self.new).failures ≡ (state self.old).failures) }
        ensures failed { OnErr result ((state self.new).failures ≡ (state self.old).failures + 1) }
        ensures untaken { OnErr result (AppendsIfTold (state self.old).held (state self.new).held []) };
}

/// A writer of std, with a count of its failed writes. An interrupted write counts as a failed one.
#[derive(Drop)]
pub struct Writing<W: io::Write + Drop, L: Ledger> {
    writer: W,
    failures: Failures<L>,
}

impl<W: io::Write + Drop, L: Ledger> Writing<W, L> {
    /// The writer, with no failed write.
    pub fn new(writer: W, blank: Blank) -> Self
        requires name { blank.name ≡ L.name }
        requires parts { blank.parts ≡ L.parts }
        requires one_part { blank.parts ≡ 1 }
        ensures none_failed { result.failures ≡ 0 }
        ensures carried { result.writer ≡ writer }
    {
        Writing {
            writer,
            failures: Failures::none(blank),
        }
    }
}

impl<W: io::Write + Drop, L: Ledger> Sink for Writing<W, L> {
    ghost state = { λ s. record { held = W.contents s.writer; failures = s.failures } };

    #[tactic(auto, using(crate::proofs::Adapters::write_appends, crate::proofs::Adapters::write_keeps))]
    fn write(&mut self, piece: &[u8]) -> Result<usize, Failed> {
        match self.writer.write(piece) {
            Ok(n) if n > 0 || piece.is_empty() => Ok(n),
            _ => {
                self.failures.add();
                Err(Failed)
            }
        }
    }
}

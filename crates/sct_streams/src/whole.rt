//! Reads whole inputs from a source, and writes whole texts to a sink.
ghost use Rattle.std.specs.Prelude.{◌≡◌, ◌+◌, ◌≤◌, ◌<◌, [], Some, length, vec_len, IsOk, IfOk, IfErr, IfSome, OnOk, OnErr};
ghost use Rattle.sct_streams.specs.Stream.{Gives, HasTakenIfTold, IsCutOff, IsWritten};
ghost use Rattle.sct_streams.specs.Whole.{failed_reads, EndsAppending, EndsReading, HasAppended};
ghost use Rattle.sct_streams.specs.declared.whole.ReadFault.TheVariants as fault;

use crate::sink::Sink;
use crate::source::{Failed, Source};
use std::alloc::{AllocError, Global};

/// Why an input was not read whole.
#[derive(Clone, Copy, Debug, PartialEq, Eq)]
pub enum ReadFault {
    /// The input has a byte past the limit.
    TooLong,
    /// A read failed.
    Failed,
    /// Out of memory.
    Memory,
}

impl From<AllocError> for ReadFault {
    ghost from_gives = { λ _ e. e ≡ fault.Memory };

    fn from(_error: AllocError) -> ReadFault {
        ReadFault::Memory
    }
}

const PIECE: usize = 65_536;

// Reads at most `most` bytes into the front of the piece.
fn read_most<R: Source>(source: &mut R, piece: &mut [u8], most: usize) -> Result<usize, Failed>
    requires { most ≤ length piece.old }
    ensures fits { IfOk result (λ n. n ≤ most) }
    ensures given { IfOk result (λ n. IfSome (R.state source.old).left
        (λ bytes. Gives bytes n most piece.new (R.state source.new).left)) }
    ensures ok { OnOk result ((R.state source.new).failures ≡ (R.state source.old).failures) }
    ensures failed { OnErr result ((R.state source.new).failures ≡ (R.state source.old).failures + 1) }
    ensures untaken { OnErr result (HasTakenIfTold (R.state source.old).left (R.state source.new).left 0) }
{
    source.read(&mut piece[..most])
}

/// Appends at most `most` bytes of the source, and returns their number. They are fewer only at the end. Takes time in
/// proportion to them. Errors: `Failed` if a read fails; `Memory`. The bytes may then have some of those read at their end.
pub fn read_more<R: Source>(
    source: &mut R,
    bytes: &mut Vec<u8>,
    most: usize,
) -> Result<usize, ReadFault>
    ensures appended { IfOk result (λ n. HasAppended n bytes.old.items bytes.new.items
        (R.state source.old).left (R.state source.new).left) }
    ensures most { IfOk result (λ n. n ≤ most) }
    ensures end { IfOk result (λ n. n < most → IfSome (R.state source.old).left (λ _. (R.state source.new).left ≡ Some [])) }
    ensures faults { IfErr result (λ e. EndsAppending e most (R.state source.old).left (R.state source.new).left) }
    ensures quiet { OnOk result ((R.state source.new).failures ≡ (R.state source.old).failures) }
    ensures counted { IfErr result (λ e. (R.state source.new).failures ≡ (R.state source.old).failures + failed_reads e) }
{
    let mut piece = [0; PIECE];
    let mut done = 0;
    while done < most {
        let Ok(n) = read_most(source, &mut piece, PIECE.min(most - done)) else {
            return Err(ReadFault::Failed);
        };
        if n == 0 {
            break;
        }
        bytes.extend_from_slice(&piece[..n])?;
        done += n;
    }
    Ok(done)
}

/// Reads all bytes up to the end. `limit` is the greatest number of bytes. Takes time in proportion to the bytes read.
/// Errors: `TooLong` if there are more bytes, after one byte past the limit was read; `Failed` if a read fails;
/// `Memory`. The bytes read so far are then lost.
pub fn read_all<R: Source>(alloc: Global, source: &mut R, limit: u64) -> Result<Vec<u8>, ReadFault>
    ensures all { IfOk result (λ v. IfSome (R.state source.old).left
        (λ bytes. (bytes ≡ v.items) × ((R.state source.new).left ≡ Some []))) }
    ensures within { IfOk result (λ v. vec_len v ≤ limit) }
    ensures faults { IfErr result (λ e. EndsReading e limit (R.state source.old).left (R.state source.new).left) }
    ensures quiet { OnOk result ((R.state source.new).failures ≡ (R.state source.old).failures) }
    ensures counted { IfErr result (λ e. (R.state source.new).failures ≡ (R.state source.old).failures + failed_reads e) }
{
    let mut bytes = Vec::new(alloc);
    let most = (limit as usize).saturating_add(1);
    let count = read_more(source, &mut bytes, most)?;
    if count as u64 > limit {
        return Err(ReadFault::TooLong);
    }
    Ok(bytes)
}

/// Writes all of the bytes, by as many writes as the sink needs. Error: `Failed` if a write fails; a prefix of the bytes
/// was then written. An empty text makes no call.
#[tactic(auto, using(crate::proofs::Fronts::one_write_more))]
pub fn write_all<K: Sink>(sink: &mut K, bytes: &[u8]) -> Result<(), Failed>
    ensures all { OnOk result (IsWritten (K.state sink.old) (K.state sink.new) (Some bytes.now)) }
    ensures prefix { OnErr result (IsCutOff (K.state sink.old) (K.state sink.new) (Some bytes.now)) }
    ensures empty { bytes.now ≡ [] → IsOk result × (sink.new ≡ sink.old) }
{
    let mut done = 0;
    while done < bytes.len() {
        let (_, rest) = bytes.split_at(done);
        done += sink.write(rest)?;
    }
    Ok(())
}

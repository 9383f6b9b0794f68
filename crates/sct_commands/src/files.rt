//! Files that the command line names. Each is read whole.
ghost use Rattle.std.specs.Prelude.{◌≡◌, ◌+◌, ◌≤◌, map, vec_len, IfErr, IfOk, IfSome, OnOk};
ghost use Rattle.sct_commands.specs.Fault.{failed_reads};
ghost use Rattle.sct_commands.specs.Stream.{AreWithin, EndsFile, EndsFiles};
ghost use Rattle.sct_streams.specs.Files.{AreGiven, IsGiven};
ghost use Rattle.sct_workers.specs.Files.{bytes_of};

use crate::fault::ProgramFault;
use crate::jobs::MOST_BYTES;
use sct_streams::{FileReading, Files, Source, read_all};
use std::alloc::{AllocError, Global};
use std::sync::ledger::Ledger;

// Reads all bytes that a source has left.
#[tactic(auto, using(crate::proofs::FileLemmas::reading_ends))]
fn read_left<S: Source>(alloc: Global, source: &mut S) -> Result<Vec<u8>, ProgramFault>
    ensures whole { IfOk result (λ v. IfSome (S.state source.old).left (λ bytes. bytes ≡ v.items)) }
    ensures within { IfOk result (λ v. vec_len v ≤ 1073741824) }
    ensures faults { IfErr result (EndsFile (S.state source.old).left) }
    ensures quiet { OnOk result ((S.state source.new).failures ≡ (S.state source.old).failures) }
    ensures counted { IfErr result (λ e. (S.state source.new).failures ≡ (S.state source.old).failures + failed_reads e) }
{
    Ok(read_all(alloc, source, MOST_BYTES)?)
}

/// Reads the file at a path. Errors: `Read` (62) if it cannot be opened or a read fails, which is counted; `TooLong` (60) if
/// it has more than 1 GiB, after one byte past the limit was read; `Memory` (65).
#[tactic(auto, using(crate::proofs::FileLemmas::file_ends))]
pub fn read_file<R: Files, L: Ledger>(
    alloc: Global,
    files: &R,
    reading: &mut FileReading<R::File, L>,
    path: &str,
) -> Result<Vec<u8>, ProgramFault>
    ensures given { IfOk result (λ v. IsGiven (R.gives files.now) path.now v.items) }
    ensures within { IfOk result (λ v. vec_len v ≤ 1073741824) }
    ensures faults { IfErr result (EndsFile (R.gives files.now path.now)) }
    ensures quiet { OnOk result (reading.new.failures ≡ reading.old.failures) }
    ensures counted { IfErr result (λ e. reading.new.failures ≡ reading.old.failures + failed_reads e) }
{
    let Ok(()) = reading.open(files, path) else {
        return Err(ProgramFault::Read);
    };
    read_left(alloc, reading)
}

/// Reads the files at the paths in their order. The first file that cannot be read ends the
/// reading, with the errors of [`read_file`].
pub fn read_files<R: Files, L: Ledger>(
    alloc: Global,
    files: &R,
    reading: &mut FileReading<R::File, L>,
    paths: &[&str],
) -> Result<Vec<Vec<u8>>, ProgramFault>
    ensures given { IfOk result (λ inputs. AreGiven (R.gives files.now)
        (map (λ path. path.now) paths.now) (bytes_of inputs.items)) }
    ensures within { IfOk result (λ inputs. AreWithin (bytes_of inputs.items)) }
    ensures faults { IfErr result (EndsFiles (R.gives files.now) (map (λ path. path.now) paths.now)) }
    ensures quiet { OnOk result (reading.new.failures ≡ reading.old.failures) }
    ensures counted { IfErr result (λ e. reading.new.failures ≡ reading.old.failures + failed_reads e) }
{
    let mut inputs = Vec::new(alloc);
    for path in paths {
        inputs
            .push(read_file(alloc, files, reading, path)?)
            .map_err(AllocError::from)?;
    }
    Ok(inputs)
}

//! The answer of a command, and how it is written.
ghost use Rattle.std.specs.Prelude.{◌≡◌, ◌⊎◌, [], Some, IfOk, IsOk, OnErr, OnOk, string_bytes};
ghost use Rattle.sct_set.specs.Pieces.{joined};
ghost use Rattle.sct_commands.specs.Engine.{AreCutOff};
ghost use Rattle.sct_streams.specs.Stream.{IsCutOff, IsWritten};

use crate::jobs::{Done, Release};
use sct_lines::Refusals;
use sct_streams::{Failed, Sink, write_all};
use std::alloc::{AllocError, Global};

/// The answer of a command: a text in pieces, and what is refused.
#[derive(Drop)]
pub struct ProgramAnswer {
    /// The text, in pieces.
    pub pieces: Vec<Vec<u8>>,
    /// The lines that report what is refused.
    pub refusals: String,
    /// How many lines and files are refused.
    pub refused: u64,
}

impl ProgramAnswer {
    /// The answer with this text and these refused lines.
    pub fn of(pieces: Vec<Vec<u8>>, refusals: Refusals) -> ProgramAnswer
        ensures pieces { result.pieces ≡ pieces }
        ensures refusals { string_bytes result.refusals ≡ refusals.text }
        ensures refused { result.refused ≡ refusals.count }
    {
        let (refusals, refused) = refusals.into_parts();
        ProgramAnswer {
            pieces,
            refusals,
            refused,
        }
    }
}

/// A text as one piece. Error: out of memory.
pub fn one_piece(alloc: Global, text: Vec<u8>) -> Result<Vec<Vec<u8>>, AllocError>
    ensures { IfOk result (λ pieces. joined pieces.items ≡ text.items) }
{
    let mut pieces = Vec::new(alloc);
    pieces.push(text)?;
    Ok(pieces)
}

// Writes all of the bytes of the pieces, one piece after another. Error: `Failed` if a write
// fails; a prefix of the bytes was then written.
fn write_pieces<K: Sink>(sink: &mut K, pieces: &[Vec<u8>]) -> Result<(), Failed>
    ensures all { OnOk result (IsWritten (K.state sink.old) (K.state sink.new) (Some (joined pieces.now))) }
    ensures prefix { OnErr result (IsCutOff (K.state sink.old) (K.state sink.new) (Some (joined pieces.now))) }
    ensures empty { joined pieces.now ≡ [] → IsOk result × (sink.new ≡ sink.old) }
{
    for piece in pieces {
        write_all(sink, piece)?;
    }
    Ok(())
}

/// Writes an answer: what is refused to `err`, and then the text to `out`. `release` says what becomes of the text afterwards.
/// Error: `Failed` if a write fails; a prefix of the texts was then written.
pub fn write_answer<O: Sink, E: Sink>(
    release: Release,
    answer: ProgramAnswer,
    out: &mut O,
    err: &mut E,
) -> Result<Done, Failed>
    ensures told { OnOk result (IsWritten (E.state err.old) (E.state err.new) (Some (string_bytes answer.refusals))) }
    ensures text { OnOk result (IsWritten (O.state out.old) (O.state out.new) (Some (joined answer.pieces.items))) }
    ensures refused { IfOk result (λ done. done.refused ≡ answer.refused) }
    ensures cut_off { OnErr result (AreCutOff (E.state err.old) (E.state err.new) (O.state out.old) (O.state out.new)
        (Some (string_bytes answer.refusals)) (Some (joined answer.pieces.items))) }
    ensures order { OnErr result ((out.new ≡ out.old)
        ⊎ IsWritten (E.state err.old) (E.state err.new) (Some (string_bytes answer.refusals))) }
{
    let ProgramAnswer {
        pieces,
        refusals,
        refused,
    } = answer;
    write_all(err, refusals.as_bytes())?;
    write_pieces(out, &pieces)?;
    release.let_go(pieces);
    Ok(Done { refused })
}

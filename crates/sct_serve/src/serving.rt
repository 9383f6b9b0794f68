//! Requests are read, and replies are written, until the end of input.
ghost use Rattle.std.specs.Prelude.{◌≡◌, ◌+◌, ◌<◌, ◌≤◌, Err, Some, [], List, ℕ, length, take, IfErr, IfOk, IfSome, IsTrue, OnErr, OnOk};
ghost use Rattle.sqlite_disk.specs.Disk.{MoreFaults};
ghost use Rattle.sct_journal.specs.Kept.{ended_lines, recorded};
ghost use Rattle.sct_journal.specs.declared.error.JournalError.TheVariants as journal;
ghost use Rattle.sct_keeper.specs.declared.fault.KeeperError.TheVariants as error;
ghost use Rattle.sct_keeper.specs.Keepers.{IsFull, IsKeeper, keeper_disk, watched_site_of};
ghost use Rattle.sct_streams.specs.Stream.{AppendsIfTold, HasReadIfTold};
ghost use Rattle.sct_serve.specs.Replies.{replies_to};
ghost use Rattle.sct_serve.specs.Serving.{AreShort, EndsAfterOpening, HasReadShort, HasReadTooLong, LeavesOf, Served, StopsReading, failed_reads, failed_writes};
ghost use Rattle.sct_serve.specs.declared.fault.ServeFault.TheVariants as fault;

use crate::fault::ServeFault;
use crate::pieces::take_piece;
use sct_keeper::Keeper;
use sct_streams::{Failed, Sink, Source};
use sqlite_disk::Disk;
use std::alloc::Global;

// Reads some bytes.
#[tactic(auto, using(sct_streams::proofs::StreamLemmas::read_gives, sct_streams::proofs::StreamLemmas::read_end, sct_streams::proofs::StreamLemmas::read_failed))]
fn read_piece<R: Source>(source: &mut R, piece: &mut [u8]) -> Result<usize, ServeFault>
    requires { 0 < length piece.old }
    ensures fits { IfOk result (λ n. n ≤ length piece.new) }
    ensures room { length piece.new ≡ length piece.old }
    ensures read { IfOk result (λ n. HasReadIfTold (R.state source.old).left (R.state source.new).left (take n piece.new)) }
    ensures end { IfOk result (λ n. n ≡ 0 → IfSome (R.state source.old).left (λ _. (R.state source.new).left ≡ Some [])) }
    ensures failed { OnErr result (HasReadIfTold (R.state source.old).left (R.state source.new).left []) }
    ensures quiet { OnOk result ((R.state source.new).failures ≡ (R.state source.old).failures) }
    ensures counted { IfErr result (λ e. (e ≡ fault.Read) × ((R.state source.new).failures ≡ (R.state source.old).failures + 1)) }
{
    match source.read(piece) {
        Ok(n) => Ok(n),
        Err(Failed) => Err(ServeFault::Read),
    }
}

/// Requests are read and replied to until the end of input. Each line that a line feed ends is a request. What is read at once
/// into `piece` is a round, up to its first question: its replies are written when all that it brought is on the disk.
pub(crate) fn serve_input<D: Disk, R: Source, K: Sink>(
    alloc: Global,
    keeper: &mut Keeper<D>,
    source: &mut R,
    sink: &mut K,
    piece: &mut [u8],
) -> Result<(), ServeFault>
    requires room { 0 < length piece.old }
    requires keeper { IsKeeper D.Disk.seen D.Disk.may_leave D.Disk.is_usable D.Disk.is_clean keeper.old }

    // What is written is a function of the bytes of the input, whatever pieces they come in.
    ensures replies { OnOk result (IfSome (R.state source.old).left (λ input.
        AppendsIfTold (K.state sink.old).held (K.state sink.new).held (replies_to (watched_site_of keeper.old) (ended_lines input)))) }
    ensures read { OnOk result (IfSome (R.state source.old).left (λ _. (R.state source.new).left ≡ Some [])) }
    ensures served { OnOk result ((pending : List ℕ) × Served (watched_site_of keeper.old) (watched_site_of keeper.new) (IsTrue (D.Disk.is_clean (keeper_disk keeper.old)))
        (recorded (D.Disk.seen (keeper_disk keeper.old))) (recorded (D.Disk.seen (keeper_disk keeper.new)))
        (R.state source.old).left (R.state source.new).left (K.state sink.old).held (K.state sink.new).held pending) }
    ensures keeper { OnOk result (IsKeeper D.Disk.seen D.Disk.may_leave D.Disk.is_usable D.Disk.is_clean keeper.new) }

    // A request with too many bytes ends the service as soon as it has them.
    ensures short { OnOk result (IfSome (R.state source.old).left AreShort) }
    ensures short_before { HasReadShort (length piece.old) (R.state source.old).left (R.state source.new).left }
    ensures too_long { result ≡ Err fault.TooLong → HasReadTooLong (R.state source.old).left (R.state source.new).left }

    // Whatever is left, all that replied lines brought is recorded, and of what was read no more than a front.
    ensures crash { IsTrue (D.Disk.is_clean (keeper_disk keeper.old)) → (c : List ℕ) → D.Disk.may_leave (keeper_disk keeper.new) c
        → LeavesOf (watched_site_of keeper.old) (recorded (D.Disk.seen (keeper_disk keeper.old)))
        (R.state source.old).left (R.state source.new).left (K.state sink.old).held (K.state sink.new).held c }
    ensures clean { D.Disk.is_clean (keeper_disk keeper.new) ≡ D.Disk.is_clean (keeper_disk keeper.old) }
    ensures reads { OnOk result ((R.state source.new).failures ≡ (R.state source.old).failures) }
    ensures failed_reads { IfErr result (λ e. (R.state source.new).failures ≡ (R.state source.old).failures + failed_reads e) }
    ensures writes { OnOk result ((K.state sink.new).failures ≡ (K.state sink.old).failures) }
    ensures failed_writes { IfErr result (λ e. (K.state sink.new).failures ≡ (K.state sink.old).failures + failed_writes e) }
    ensures failed { IfErr result (λ e. e ≡ fault.Keeper (error.Journal journal.Disk) → MoreFaults (D.Disk.faults (keeper_disk keeper.old)) (D.Disk.faults (keeper_disk keeper.new))) }
    ensures full { IfErr result (λ e. e ≡ fault.Keeper (error.Journal journal.Full) → IsFull D.Disk.seen D.Disk.is_clean (keeper_disk keeper.new)) }

    // Unless a write failed, no line of the round under way has a reply, and what it brought is recorded whole or not at all.
    ensures stops { (K.state sink.new).failures ≡ (K.state sink.old).failures → IsTrue (D.Disk.is_clean (keeper_disk keeper.old)) → StopsReading (length piece.old) []
        (watched_site_of keeper.old) (recorded (D.Disk.seen (keeper_disk keeper.old)))
        (R.state source.old).left (R.state source.new).left (K.state sink.old).held (K.state sink.new).held (D.Disk.may_leave (keeper_disk keeper.new)) }
    ensures faults { D.Disk.faults (keeper_disk keeper.old) ≤ D.Disk.faults (keeper_disk keeper.new) }
    ensures errors { IfErr result EndsAfterOpening }
{
    let mut pending = Vec::new(alloc);
    for _ in 0..u64::MAX {
        let n = read_piece(source, piece)?;
        if n == 0 {
            return Ok(());
        }
        let (front, _) = piece.split_at(n);
        if let Err(fault) = take_piece(alloc, keeper, &mut pending, front, sink) {
            return Err(fault);
        }
    }
    Err(ServeFault::Memory)
}

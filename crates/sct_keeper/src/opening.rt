//! A site is made of the journal that is on its disk.
ghost use Rattle.std.specs.Prelude.{◌≡◌, ◌≤◌, ◌∷◌, [], None, false, true, List, ℕ, IsTrue, IfErr, IfOk, OnOk, drop, string_bytes, take};
ghost use Rattle.sqlite_disk.specs.Disk.{MoreFaults, Only};
ghost use Rattle.sct_exchange.specs.Journals.{opened};
ghost use Rattle.sct_journal.specs.Fronts.{IsBegun, IsLeft, front_in};
ghost use Rattle.sct_journal.specs.Kept.{IsLine, kept, recorded};
ghost use Rattle.sct_journal.specs.Settled.{IsSettled, disk_of};
ghost use Rattle.sct_journal.specs.declared.front.Front.TheVariants as front;
ghost use Rattle.sct_requests.specs.Steps.{core_after};
ghost use Rattle.sct_journal.specs.Openings.{IsOpening, opening_disk, opening_end};
ghost use Rattle.sct_journal.specs.declared.error.JournalError.TheVariants as journal;
ghost use Rattle.sct_keeper.specs.Keepers.{IsForeign, IsUntouched, header};
ghost use Rattle.sct_keeper.specs.Replays.{EndsJournal, EndsReplay, IsReplayed, IsStartError};
ghost use Rattle.sct_keeper.specs.declared.fault.KeeperError.TheVariants as error;
ghost use Rattle.sct_site.specs.Cores.{is_open};

use crate::fault::KeeperError;
use sct_embed::EmbeddedSite;
use sct_journal::{Journal, Opening};
use sct_requests::give_kept;
use sqlite_disk::Disk;
use std::alloc::{AllocError, Global};
use std::fmt::Write;

// The first line of the journal of a site.
#[tactic(auto, unfolding(crate::specs::Keepers::header))]
fn header_of(alloc: Global, number: u16, group: u16) -> Result<String, AllocError>
    ensures { IfOk result (λ line. string_bytes line ≡ header number group) }
{
    let mut line = String::new(alloc);
    write!(line, "site {number} {group}")?;
    Ok(line)
}

/// The first line of the journal of a site, and the site before it has any entry.
pub(crate) fn open_site(
    alloc: Global,
    number: u16,
    group: u16,
) -> Result<(String, EmbeddedSite), KeeperError>
    ensures header { IfOk result (λ opened. string_bytes opened.0 ≡ header number group) }
    ensures line { IfOk result (λ opened. IsLine (string_bytes opened.0)) }
    ensures core { IfOk result (λ found. found.1.core ≡ opened number group) }
    ensures unwatched { IfOk result (λ opened. opened.1.watched ≡ None) }
    ensures open { OnOk result (is_open number group ≡ true) }
    ensures bad_site { IfErr result (λ e. e ≡ error.BadSite → is_open number group ≡ false) }
    ensures errors { IfErr result IsStartError }
{
    let Ok(site) = EmbeddedSite::open(alloc, number, group) else {
        return Err(KeeperError::BadSite);
    };
    let Ok(header) = header_of(alloc, number, group) else {
        return Err(KeeperError::Memory);
    };
    Ok((header, site))
}

/// The site is given the lines that are left of a journal.
pub(crate) fn replay<D: Disk>(
    alloc: Global,
    opening: &mut Opening<D>,
    site: &mut EmbeddedSite,
) -> Result<(), KeeperError>
    requires opening { IsOpening D.Disk.seen D.Disk.may_leave D.Disk.is_usable D.Disk.is_clean opening.old }
    ensures opening { IsOpening D.Disk.seen D.Disk.may_leave D.Disk.is_usable D.Disk.is_clean opening.new }
    ensures site { OnOk result (IsTrue (D.Disk.is_clean (opening_disk opening.new)) → IsReplayed site.old.core site.new.core
        (kept (take (opening_end opening.old) (D.Disk.seen (opening_disk opening.old)))) (kept (D.Disk.seen (opening_disk opening.new)))) }
    ensures all { OnOk result (IsTrue (D.Disk.is_clean (opening_disk opening.new)) → kept (drop (opening_end opening.new) (D.Disk.seen (opening_disk opening.new))) ≡ []) }
    ensures watched { site.new.watched ≡ site.old.watched }
    ensures seen { D.Disk.seen (opening_disk opening.new) ≡ D.Disk.seen (opening_disk opening.old) }
    ensures crash { (c : List ℕ) → D.Disk.may_leave (opening_disk opening.new) c → D.Disk.may_leave (opening_disk opening.old) c }
    ensures clean { IsTrue (D.Disk.is_clean (opening_disk opening.new)) → IsTrue (D.Disk.is_clean (opening_disk opening.old)) }
    ensures failed { IfErr result (λ e. e ≡ error.Journal journal.Disk → MoreFaults (D.Disk.faults (opening_disk opening.old)) (D.Disk.faults (opening_disk opening.new))) }
    ensures faults { D.Disk.faults (opening_disk opening.old) ≤ D.Disk.faults (opening_disk opening.new) }
    ensures errors { IfErr result EndsReplay }
{
    while let Some(text) = opening.next(alloc)? {
        give_kept(alloc, site, &text)?;
    }
    Ok(())
}

/// Opens the journal of a site, and gives the site the lines that it records. An `Err` hands the disk back.
pub(crate) fn open_journal<D: Disk>(
    alloc: Global,
    disk: D,
    header: &[u8],
    site: &mut EmbeddedSite,
) -> Result<Journal<D>, (KeeperError, D)>
    requires usable { IsTrue (D.Disk.is_usable disk) }
    requires durable { Only (D.Disk.seen disk) (D.Disk.may_leave disk) }
    requires line { IsLine header.now }
    ensures settled { IfOk result (λ journal. IsSettled D.Disk.seen D.Disk.may_leave D.Disk.is_usable D.Disk.is_clean journal) }
    ensures begins { IfOk result (λ journal. IsTrue (D.Disk.is_clean (disk_of journal)) → kept (D.Disk.seen (disk_of journal)) ≡ header.now ∷ recorded (D.Disk.seen disk)) }
    ensures site { IfOk result (λ journal. IsTrue (D.Disk.is_clean (disk_of journal)) → site.new.core ≡ core_after site.old.core (recorded (D.Disk.seen disk))) }
    ensures watched { site.new.watched ≡ site.old.watched }
    ensures begun { IfOk result (λ journal. IsTrue (D.Disk.is_clean (disk_of journal)) → IsBegun header.now (D.Disk.seen disk)) }
    ensures crash { IfOk result (λ journal. IsTrue (D.Disk.is_clean (disk_of journal)) → (c : List ℕ) → D.Disk.may_leave (disk_of journal) c
        → IsLeft header.now (D.Disk.seen disk) c) }
    ensures crash_err { IfErr result (λ left. IsTrue (D.Disk.is_clean left.1) → (c : List ℕ) → D.Disk.may_leave left.1 c
        → IsLeft header.now (D.Disk.seen disk) c) }
    ensures clean { IfOk result (λ journal. IsTrue (D.Disk.is_clean (disk_of journal)) → IsTrue (D.Disk.is_clean disk)) }
    ensures clean_err { IfErr result (λ left. IsTrue (D.Disk.is_clean left.1) → IsTrue (D.Disk.is_clean disk)) }
    ensures errors { IfErr result (λ left. EndsJournal left.0) }
    ensures untouched { IfErr result (λ left. IsForeign left.0 → IsUntouched D.Disk.seen D.Disk.may_leave disk left.1) }
    ensures no_journal { IfErr result (λ left. left.0 ≡ error.Journal journal.NoJournal → IsTrue (D.Disk.is_clean left.1)
        → front_in header.now (D.Disk.seen disk) ≡ front.NoJournal) }
    ensures other_site { IfErr result (λ left. left.0 ≡ error.Journal journal.OtherSite → IsTrue (D.Disk.is_clean left.1)
        → front_in header.now (D.Disk.seen disk) ≡ front.OtherSite) }
    ensures failed { IfErr result (λ left. left.0 ≡ error.Journal journal.Disk → MoreFaults (D.Disk.faults disk) (D.Disk.faults left.1)) }
    ensures faults { IfOk result (λ journal. D.Disk.faults disk ≤ D.Disk.faults (disk_of journal)) }
{
    let mut opening = match sct_journal::open(alloc, disk, header) {
        Ok(opening) => opening,
        Err((fault, disk)) => return Err((KeeperError::Journal(fault), disk)),
    };
    if let Err(error) = replay(alloc, &mut opening, site) {
        return Err((error, opening.into_disk()));
    }
    match opening.close() {
        Ok(journal) => Ok(journal),
        Err((fault, disk)) => Err((KeeperError::Journal(fault), disk)),
    }
}

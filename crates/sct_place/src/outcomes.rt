//! What calls return to a program in another language.

ghost use Rattle.std.specs.Prelude.{◌≡◌, true};
ghost use Rattle.sct_place.specs.Outcomes.{accept_as, done_as, refused_accept, refused_as, refused_lines, refused_take, take_as, take_lines_as};

use sct_embed::{EmbedFault, TakenLines};
use sct_site::{Accepted, Took};

/// What a call came to. `length` is the length of the answer in bytes, if the call makes or copies one.
#[repr(C)]
#[derive(Clone, Copy, Debug, PartialEq, Eq)]
pub struct CallOutcome {
    /// Whether the call did what it says.
    pub ok: bool,
    /// If not, the number of the fault, else 0.
    pub code: u8,
    /// Where the fault is, from 1, else 0.
    pub place: u64,
    /// The length of the answer.
    pub length: usize,
    /// 0.
    pub reserved: u64,
}

/// What a take came to.
#[repr(C)]
#[derive(Clone, Copy, Debug, PartialEq, Eq)]
pub struct TakeOutcome {
    /// Whether the message is held now.
    pub ok: bool,
    /// If not, the number of the fault, else 0.
    pub code: u8,
    /// Whether the site held the message already.
    pub is_repeat: bool,
    /// Where the fault is, from 1, else 0.
    pub place: u64,
    /// The number of a new message among the site's own, from 1; 0 for a repeat.
    pub number: u64,
    /// 0.
    pub reserved: u64,
}

/// What a take of many lines came to.
#[repr(C)]
#[derive(Clone, Copy, Debug, PartialEq, Eq)]
pub struct LinesOutcome {
    /// Whether each line was read.
    pub ok: bool,
    /// If not, the number of the fault, else 0.
    pub code: u8,
    /// Where the fault is, from 1, else 0.
    pub place: u64,
    /// The messages that are new.
    pub fresh: u64,
    /// The messages that were held already, or that the text has again.
    pub repeats: u64,
    /// The lines that are a form of no message.
    pub refused: u64,
    /// The length of the answer, which names these lines.
    pub length: usize,
    /// 0.
    pub reserved: u64,
}

/// What an accept came to.
#[repr(C)]
#[derive(Clone, Copy, Debug, PartialEq, Eq)]
pub struct AcceptOutcome {
    /// Whether the delta was accepted.
    pub ok: bool,
    /// If not, the number of the fault, else 0.
    pub code: u8,
    /// Where the fault is, from 1, else 0.
    pub place: u64,
    /// How many entries are new.
    pub fresh: u64,
    /// 0.
    pub reserved: u64,
}

impl CallOutcome {
    /// The call did what it says, and the answer has this length.
    pub(crate) fn done(length: usize) -> CallOutcome
        ensures { result ≡ record { ok = true; code = 0; place = 0; length = length; reserved = 0 } }
    {
        CallOutcome {
            ok: true,
            code: 0,
            place: 0,
            length,
            reserved: 0,
        }
    }

    /// The call is refused.
    pub(crate) fn refused(fault: &EmbedFault) -> CallOutcome
        ensures { result ≡ refused_as fault.now }
    {
        CallOutcome {
            ok: false,
            code: fault.number(),
            place: fault.place(),
            length: 0,
            reserved: 0,
        }
    }

    pub(crate) fn of(done: &Result<(), EmbedFault>, length: usize) -> CallOutcome
        ensures { result ≡ done_as done.now length }
    {
        match done {
            Ok(()) => CallOutcome::done(length),
            Err(fault) => CallOutcome::refused(fault),
        }
    }
}

impl TakeOutcome {
    pub(crate) fn refused(fault: &EmbedFault) -> TakeOutcome
        ensures { result ≡ refused_take fault.now }
    {
        TakeOutcome {
            ok: false,
            code: fault.number(),
            is_repeat: false,
            place: fault.place(),
            number: 0,
            reserved: 0,
        }
    }

    pub(crate) fn of(done: &Result<Took, EmbedFault>) -> TakeOutcome
        ensures { result ≡ take_as done.now }
    {
        match done {
            Ok(Took::Taken { n }) => TakeOutcome {
                ok: true,
                code: 0,
                is_repeat: false,
                place: 0,
                number: *n,
                reserved: 0,
            },
            Ok(Took::Repeat) => TakeOutcome {
                ok: true,
                code: 0,
                is_repeat: true,
                place: 0,
                number: 0,
                reserved: 0,
            },
            Err(fault) => TakeOutcome::refused(fault),
        }
    }
}

impl LinesOutcome {
    pub(crate) fn refused(fault: &EmbedFault) -> LinesOutcome
        ensures { result ≡ refused_lines fault.now }
    {
        LinesOutcome {
            ok: false,
            code: fault.number(),
            place: fault.place(),
            fresh: 0,
            repeats: 0,
            refused: 0,
            length: 0,
            reserved: 0,
        }
    }

    pub(crate) fn of(done: &Result<TakenLines, EmbedFault>, length: usize) -> LinesOutcome
        ensures { result ≡ take_lines_as done.now length }
    {
        match done {
            Ok(taken) => LinesOutcome {
                ok: true,
                code: 0,
                place: 0,
                fresh: taken.fresh,
                repeats: taken.repeats,
                refused: taken.refused,
                length,
                reserved: 0,
            },
            Err(fault) => LinesOutcome::refused(fault),
        }
    }
}

impl AcceptOutcome {
    pub(crate) fn refused(fault: &EmbedFault) -> AcceptOutcome
        ensures { result ≡ refused_accept fault.now }
    {
        AcceptOutcome {
            ok: false,
            code: fault.number(),
            place: fault.place(),
            fresh: 0,
            reserved: 0,
        }
    }

    pub(crate) fn of(done: &Result<Accepted, EmbedFault>) -> AcceptOutcome
        ensures { result ≡ accept_as done.now }
    {
        match done {
            Ok(accepted) => AcceptOutcome {
                ok: true,
                code: 0,
                place: 0,
                fresh: accepted.fresh,
                reserved: 0,
            },
            Err(fault) => AcceptOutcome::refused(fault),
        }
    }
}

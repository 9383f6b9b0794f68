//! Why a call of an embedded site is refused.

ghost use Rattle.std.specs.Prelude.{◌≡◌};
ghost use Rattle.sct_embed.specs.Faults.{embed_fault_number, embed_fault_of_delta, embed_fault_of_json, embed_fault_of_list, embed_fault_place, permission_number};
ghost use Rattle.sct_embed.specs.declared.faults.EmbedFault.TheVariants as fault;

use sct_delta::DeltaFault;
use sct_json::JsonFault;
use sct_reconcile::ReconcileFault;
use sct_rights::Permission;
use std::alloc::AllocError;
use thiserror::Error;

/// Why a call is refused.
#[derive(Debug, Drop, Error)]
pub enum EmbedFault {
    /// 31 to 38, 46 or 56: the bytes are a form of no message.
    #[error("{0}")]
    Message(JsonFault),
    /// 41 to 45: the site does not accept the delta, or there is no such site.
    #[error("{0}")]
    Delta(DeltaFault),
    /// 48: the list is not a valid list. The number is that of its first wrong record, from 1 with the header.
    #[error("record {0} of the list is not a row of a list")]
    BadList(u64),
    /// 65: out of memory.
    #[error("out of memory")]
    Memory,
    /// 70: the place has no site.
    #[error("the place has no site")]
    Empty,
    /// 71: the place has a site already.
    #[error("the place has a site already")]
    Full,
    /// 72: the text is not a version vector.
    #[error("the text is not a version vector")]
    BadVector,
    /// 73: a bank, an identification, a day, an origin, a count or a size is not valid. The number says which argument of the call
    /// it is, from 1.
    #[error("argument {0} is not valid")]
    BadArgument(u64),
    /// 79: the bank is none of the banks for which the question is asked.
    #[error("the bank is none of the banks that ask")]
    NotYours,
    /// 81 to 84: the message may not be sent in the name of the banks, or not yet.
    #[error("the message may not be sent in the name of the banks")]
    Withheld(Permission),
    /// 85: it is a snapshot of a site, which takes nothing.
    #[error("a snapshot takes nothing")]
    Snapshot,
}

// The number of why a message may not be sent: 81 to 84. 0 if it may.
fn permission_number(permission: &Permission) -> u8
    ensures { result ≡ permission_number permission.now }
{
    match permission {
        Permission::Allowed => 0,
        Permission::NotSender => 81,
        Permission::NotOriginator(_) => 82,
        Permission::NotBeneficiary => 83,
        Permission::Waits(_) => 84,
    }
}

impl EmbedFault {
    /// The fault's number.
    pub fn number(&self) -> u8
        ensures { result ≡ embed_fault_number self.now }
    {
        match self {
            EmbedFault::Message(reason) => reason.number(),
            EmbedFault::Delta(reason) => reason.number(),
            EmbedFault::BadList(_) => 48,
            EmbedFault::Memory => 65,
            EmbedFault::Empty => 70,
            EmbedFault::Full => 71,
            EmbedFault::BadVector => 72,
            EmbedFault::BadArgument(_) => 73,
            EmbedFault::NotYours => 79,
            EmbedFault::Withheld(permission) => permission_number(permission),
            EmbedFault::Snapshot => 85,
        }
    }

    /// Where the fault is, from 1: the line of a delta text (45), the transaction of a message (46, 56, 82), the record of a list
    /// (48) or the argument of the call (73). 0 for every other fault.
    pub fn place(&self) -> u64
        ensures { result ≡ embed_fault_place self.now }
    {
        match self {
            EmbedFault::Message(JsonFault::BadTransactions(place)) => *place as u64,
            EmbedFault::Message(JsonFault::At(place, _)) => *place as u64,
            EmbedFault::Delta(DeltaFault::BadDelta(line)) => *line,
            EmbedFault::BadList(record) => *record,
            EmbedFault::BadArgument(place) => *place,
            EmbedFault::Withheld(Permission::NotOriginator(place)) => *place as u64,
            _ => 0,
        }
    }
}

impl From<AllocError> for EmbedFault {
    ghost from_gives = { λ _ e. e ≡ fault.Memory };

    fn from(_error: AllocError) -> EmbedFault {
        EmbedFault::Memory
    }
}

impl From<JsonFault> for EmbedFault {
    ghost from_gives = { λ reason e. e ≡ embed_fault_of_json reason };

    fn from(reason: JsonFault) -> EmbedFault {
        match reason {
            JsonFault::Memory => EmbedFault::Memory,
            reason => EmbedFault::Message(reason),
        }
    }
}

impl From<DeltaFault> for EmbedFault {
    ghost from_gives = { λ reason e. e ≡ embed_fault_of_delta reason };

    fn from(reason: DeltaFault) -> EmbedFault {
        match reason {
            DeltaFault::Memory => EmbedFault::Memory,
            reason => EmbedFault::Delta(reason),
        }
    }
}

impl From<ReconcileFault> for EmbedFault {
    ghost from_gives = { λ reason e. e ≡ embed_fault_of_list reason };

    fn from(reason: ReconcileFault) -> EmbedFault {
        match reason {
            ReconcileFault::Memory => EmbedFault::Memory,
            ReconcileFault::BadList(record) => EmbedFault::BadList(record),
        }
    }
}

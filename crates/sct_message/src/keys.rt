//! The keys by which messages are filed.
ghost use Rattle.std.specs.Prelude.{◌≡◌};

use crate::kinds::Kind;
use sct_element::{Bic, Id35};

/// What a sender must give to one message only: two different messages of one identity contradict each other.
/// Ordered by sender, kind and message identification; kinds are ordered by their texts.
#[derive(Debug, Drop, PartialEq, Eq, PartialOrd, Ord, Hash)]
pub struct Identity {
    /// InstgAgt: the bank that sent the message, 11 characters.
    pub sender: Bic,
    /// The message's kind.
    pub kind: Kind,
    /// MsgId: 1 to 35 characters.
    pub msg_id: Id35,
}

/// A transfer: its originator bank, and the identification that the bank gave it.
/// Ordered by bank and then by identification.
#[derive(Debug, Drop, PartialEq, Eq, PartialOrd, Ord, Hash)]
pub struct TransferKey {
    /// DbtrAgt: the originator bank, 11 characters.
    pub debtor_agent: Bic,
    /// TxId, in the other kinds OrgnlTxId: 1 to 35 characters.
    pub tx: Id35,
}

/// The recall of a transfer. Ordered by transfer and then by identification.
#[derive(Debug, Drop, PartialEq, Eq, PartialOrd, Ord, Hash)]
pub struct RecallKey {
    /// The transfer that is recalled.
    pub transfer: TransferKey,
    /// CxlId of a camt.056, in the other kinds OrgnlCxlId: 1 to 35 characters.
    pub cxl: Id35,
}

impl Identity {
    /// A copy. It does not allocate.
    pub fn copy(&self) -> Self
        ensures { result ≡ self.now }
    {
        Identity {
            sender: self.sender.copy(),
            kind: self.kind,
            msg_id: self.msg_id.copy(),
        }
    }
}

impl TransferKey {
    /// A copy. It does not allocate.
    pub fn copy(&self) -> Self
        ensures { result ≡ self.now }
    {
        TransferKey {
            debtor_agent: self.debtor_agent.copy(),
            tx: self.tx.copy(),
        }
    }
}

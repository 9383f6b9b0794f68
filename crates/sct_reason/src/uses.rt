//! What a reason is used for.
ghost use Rattle.std.specs.Prelude.{◌≡◌};
ghost use Rattle.sct_reason.specs.Uses.{is_usual, class_of};

use crate::reasons::Reason;

/// The use of a reason: what a message gives it for.
#[derive(Clone, Copy, Debug, PartialEq, Eq)]
pub enum Use {
    /// A transfer is rejected (pacs.002).
    Reject,
    /// A transfer is recalled (camt.056).
    Recall,
    /// A recall is refused (camt.029).
    Refusal,
    /// A transfer is returned (pacs.004).
    Return,
}

/// Who asked for a recall, by its reason.
#[derive(Clone, Copy, Debug, PartialEq, Eq)]
pub enum RecallClass {
    /// The originator bank asked: DUPL, TECH, FRAD.
    Bank,
    /// The originator asked: CUST, AC03, AM09.
    Originator,
    /// Neither of the two, by this table: any other reason.
    Unlisted,
}

/// The reason table, one row for each use. The choice among the codes of the rulebook (EPC004-16) is this project's.
macro_rules! usual {
    (Reject) => {
        Reason::AB05 | Reason::AB06 | Reason::AB07 | Reason::AB08 | Reason::AB09 | Reason::AB10
        | Reason::AC01 | Reason::AC04 | Reason::AC06 | Reason::AG01 | Reason::AG02 | Reason::AG09
        | Reason::AG10 | Reason::AG11 | Reason::AM02 | Reason::AM04 | Reason::AM05 | Reason::AM09
        | Reason::AM23 | Reason::BE04 | Reason::FF01 | Reason::MD07 | Reason::MS02 | Reason::MS03
        | Reason::RC01 | Reason::RR01 | Reason::RR02 | Reason::RR03 | Reason::RR04 | Reason::TM01
    };
    (Recall) => {
        Reason::DUPL | Reason::TECH | Reason::FRAD | Reason::CUST | Reason::AC03 | Reason::AM09
    };
    (Refusal) => {
        Reason::AC04 | Reason::AM04 | Reason::ARDT | Reason::CUST | Reason::LEGL | Reason::NOAS
        | Reason::NOOR
    };
    (Return) => {
        Reason::FOCR
    };
}

impl Reason {
    /// Whether the reason is in this use's row of the reason table. An unlisted reason is in no row.
    #[tactic(auto, unfolding(crate::specs::Uses::is_usual, crate::specs::Uses::is_among), using(crate::proofs::Rows::other_is_unusual))]
    pub fn is_usual(&self, purpose: Use) -> bool
        ensures { result ≡ is_usual self.now purpose }
    {
        match purpose {
            Use::Reject => matches!(self, usual!(Reject)),
            Use::Recall => matches!(self, usual!(Recall)),
            Use::Refusal => matches!(self, usual!(Refusal)),
            Use::Return => matches!(self, usual!(Return)),
        }
    }

    /// Who asked for a recall that gives this reason (by the rulebook, EPC004-16).
    /// The program does not call it; users of the library can.
    #[tactic(auto, unfolding(crate::specs::Uses::class_of, crate::specs::Uses::is_among), using(crate::proofs::Rows::other_has_no_class))]
    pub fn recall_class(&self) -> RecallClass
        ensures { result ≡ class_of self.now }
    {
        match self {
            Reason::DUPL | Reason::TECH | Reason::FRAD => RecallClass::Bank,
            Reason::CUST | Reason::AC03 | Reason::AM09 => RecallClass::Originator,
            _ => RecallClass::Unlisted,
        }
    }
}

//! A message, whose elements follow the rules of its kind.
ghost use Rattle.std.specs.Prelude.{◌≡◌, ◌≤◌, ◌↔◌, Option, Some, None, Ok, Err, IsTrue, MatchOption, length, refl};
ghost use Rattle.std.specs.List.{slice_get};
ghost use Rattle.std.specs.Ordering.{eq_by_cmp};
ghost use Rattle.std.specs.Cmp.{partial_equiv_from_equiv, eq_by_cmp_equiv, po};
ghost use Rattle.sct_message.specs.Drafts.{kind_of};

use crate::draft::Draft;
use crate::filing::{recall, transfer, transfer_count};
use crate::keys::{Identity, RecallKey, TransferKey};
use crate::kinds::Kind;
use crate::order::order;
use crate::rules::{RuleFault, broken_before_list, broken_in_list, broken_in_long, is_long};
use std::cmp::Ordering;
use std::hash::{Hash, Hasher};
use std::marker::Model;

/// A message of one of the six kinds, whose elements follow the rules of that kind
/// (EPC004-16). Its calls do not allocate.
#[derive(Debug, Drop)]
pub struct Message {
    draft: Draft,
}

impl Model for Message {
    ghost use Rattle.std.specs.Prelude.{◌≡◌, None};
    ghost use Rattle.sct_message.specs.declared.draft.Draft.{Draft as Elements};
    ghost use Rattle.sct_message.specs.Rules.{first_broken_rule};

    ghost Value = { Elements };

    ghost view = { λ m. m.draft };

    ghost invariant = { λ m. first_broken_rule m.draft ≡ None };

    ghost inverse = { λ d. record { draft = d } };
}

impl Message {
    ghost use Rattle.sct_message.specs.Rules.{first_broken_rule};
    ghost use Rattle.sct_message.specs.Keys.{identity_of, transfers_of, recalls_of};

    /// Makes a message of these elements. Error: the first rule of their kind, by number, that they break, from
    /// `WrongName` (10) to `WrongCount` (23); the elements are dropped.
    /// For a camt.056 of n transactions it takes O(n²) up to 100 transactions, and O(n log n) for more.
    #[tactic(auto, using(crate::proofs::LastRules::list_last))]
    pub fn of(draft: Draft) -> Result<Message, RuleFault>
        ensures { MatchOption (first_broken_rule draft) (result ≡ Ok draft) (λ fault. result ≡ Err fault) }
    {
        if let Some(fault) = broken_before_list(&draft) {
            return Err(fault);
        }
        if is_long(&draft) {
            return Err(broken_in_long(draft));
        }
        match broken_in_list(&draft) {
            Some(fault) => Err(fault),
            None => Ok(Message { draft }),
        }
    }

    /// The elements, as they were passed to `of`.
    pub fn draft(&self) -> &Draft
        ensures elements { result.now ≡ self.now }
        ensures rules { first_broken_rule result.now ≡ None }
    {
        &self.draft
    }

    /// The kind of the message.
    pub fn kind(&self) -> Kind
        ensures { result ≡ kind_of self.now }
    {
        self.draft.kind()
    }

    /// The sender (InstgAgt), the kind and the message identification (MsgId).
    pub fn identity(&self) -> Identity
        ensures { result ≡ identity_of self.now }
    {
        let head = self.draft.head();
        Identity {
            sender: head.instructing_agent.copy(),
            kind: self.draft.kind(),
            msg_id: head.message_id.copy(),
        }
    }

    /// How many transfers the message is about: the number of its transactions for a camt.056, else 1.
    pub fn transfer_count(&self) -> usize
        ensures transfers { result ≡ length (transfers_of self.now) }
        ensures some { 1 ≤ result }
        ensures few { result ≤ 100 }
    {
        transfer_count(&self.draft)
    }

    /// The transfer of transaction `i`, from 0: DbtrAgt with OrgnlTxId, in a pacs.008
    /// with TxId. None past the last transaction.
    /// A message of a kind other than camt.056 is about one transfer, which has the number 0.
    pub fn transfer(&self, i: usize) -> Option<TransferKey>
        ensures { result ≡ slice_get (transfers_of self.now) i }
    {
        transfer(&self.draft, i)
    }

    /// The recall of transaction `i`, from 0: its transfer with CxlId, in the other kinds with OrgnlCxlId.
    /// None past the last transaction, for a pacs.008 or pacs.002, and for a pacs.028 about a transfer.
    pub fn recall(&self, i: usize) -> Option<RecallKey>
        ensures { result ≡ slice_get (recalls_of self.now) i }
    {
        recall(&self.draft, i)
    }
}

impl Message {
    ghost use Rattle.sct_message.specs.Order.{message_order as order_of};

    /// Compares by sender, kind and message identification, and then by the elements in
    /// the order of the kind's key table.
    /// Texts are compared by their bytes, amounts by their cents; an absent element comes
    /// first. Equal exactly if `same`.
    pub fn order(&self, other: &Message) -> Ordering
        ensures { result ≡ order_of self.now other.now }
    {
        order(&self.draft, &other.draft)
    }

    /// Whether all elements are equal. MsgNmId counts as it was written: `pacs.008` and `pacs.008.001.08` differ.
    #[tactic(auto, using(crate::specs::OrderLaws::message_same, crate::specs::OrderLaws::message_itself))]
    pub fn same(&self, other: &Message) -> bool
        ensures { IsTrue result ↔ (self.now ≡ other.now) }
    {
        self.order(other) == Ordering::Equal
    }
}

impl PartialEq for Message {
    ghost use Rattle.sct_message.specs.Order.{message_order as order_of};
    ghost use Rattle.sct_message.specs.OrderLaws.{message_total};

    ghost eq = { eq_by_cmp order_of };

    ghost laws = { partial_equiv_from_equiv (eq_by_cmp_equiv message_total) };

    fn eq(&self, other: &Self) -> bool {
        self.order(other).is_eq()
    }
}

impl Eq for Message {
    ghost use Rattle.sct_message.specs.OrderLaws.{message_total};

    ghost laws = { eq_by_cmp_equiv message_total };
}

impl PartialOrd for Message {
    ghost use Rattle.sct_message.specs.Order.{message_order as order_of};
    ghost use Rattle.sct_message.specs.OrderLaws.{message_total};

    ghost partial_cmp = { λ a b. Some (order_of a b) };

    ghost laws = { po message_total (λ a b. refl) };

    fn partial_cmp(&self, other: &Self) -> Option<Ordering> {
        Some(self.order(other))
    }
}

impl Ord for Message {
    ghost use Rattle.sct_message.specs.Order.{message_order as order_of};
    ghost use Rattle.sct_message.specs.OrderLaws.{message_total};

    ghost cmp = { order_of };

    ghost total = { message_total };

    ghost matches_partial_cmp = { λ a b. refl };

    ghost matches_eq = { λ a b. refl };

    fn cmp(&self, other: &Self) -> Ordering {
        self.order(other)
    }
}

impl Hash for Message {
    ghost use Rattle.sct_message.specs.contracts.draft.DraftHash.TheImpl as elements;
    ghost use Rattle.sct_message.specs.OrderLaws.{same_input};

    ghost hash_input = { elements.ghosts.hash_input };

    ghost respects_eq = { same_input elements.ghosts.hash_input };

    fn hash<H: Hasher>(&self, state: &mut H) {
        self.draft.hash(state);
    }
}

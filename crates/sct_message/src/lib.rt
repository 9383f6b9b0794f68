//! Interbank messages of the SEPA Instant Credit Transfer scheme (EPC004-16, messages of ISO 20022): their kinds, their
//! elements, the rules of each kind, and the keys by which they are filed. No call but `Boxed::new` allocates.
#![tactic(auto)]

mod boxed;
mod draft;
mod filing;
mod keys;
mod kinds;
mod messages;
mod order;
mod recall_list;
mod rules;

pub use boxed::Boxed;
pub use draft::{
    CancellationRequest, CreditTransfer, Draft, Head, Original, PaymentReturn, RecallTx,
    Resolution, StatusReport, StatusRequest,
};
pub use keys::{Identity, RecallKey, TransferKey};
pub use kinds::Kind;
pub use messages::Message;
pub use order::{ascending_is_the_sorted_list, keys_are_ordered, order_is_total};
pub use recall_list::is_right_count;
pub use rules::{RuleFault, all_rules_hold_where_none_is_broken, first_broken_rule_is_told};

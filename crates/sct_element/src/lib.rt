//! The checked texts of interbank messages. Each text is checked once, when it is read.
//!
//! A text is read by the `read` of its type, which returns the value or the fault of the type. A name or remittance
//! information allocates, so its `read` may also return out of memory.
//! `text` returns the written form. Two values are compared by their written forms, and two amounts by their cents. A
//! written form is read as the same value again.
#![tactic(auto)]

mod account;
mod bank;
mod characters;
mod checked;
mod date;
mod faults;
mod identification;
mod money;
mod party;

pub use account::{Iban, IbanRule, read_iban};
pub use bank::{Bic, BicRule, read_bic};
pub use characters::are_digits;
pub use checked::{Checked, Rule};
pub use date::{Day, DayRule, read_day};
pub use faults::ElementFault;
pub use identification::{
    Code4, CodeRule, Id35, IdentificationRule, Stamp, StampRule, read_code, read_identification,
    read_stamp,
};
pub use money::{Amount, amounts_are_exact, amounts_are_ordered_by_cents};
pub use party::{FreeText, Name, Remittance, read_name, read_remittance};

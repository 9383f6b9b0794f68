//! A site or a snapshot as a place keeps it, with the reason why its last call was refused.

ghost use Rattle.std.specs.Prelude.{◌≡◌, ◌++◌, IfOk, OnOk, codes, string_bytes};
ghost use Rattle.std.specs.Result.{result_err};
ghost use Rattle.sct_place.specs.Reasons.{fault_text, transfer_words, why_text, withheld_text};

use sct_embed::{EmbedFault, EmbeddedSite};
use sct_exchange::push_refusal;
use sct_lines::push_json_fault;
use sct_message::TransferKey;
use sct_rights::Permission;
use sct_snapshot::Snapshot;
use std::alloc::{AllocError, Global};
use std::fmt::Write;

/// A site or a snapshot of one.
#[derive(Drop)]
pub(crate) enum Content {
    /// A site.
    Own(EmbeddedSite),
    /// A snapshot that was asked nothing.
    Ahead(Snapshot),
    /// A snapshot, as a site that has taken in all that it has.
    Followed(EmbeddedSite),
}

/// A site or a snapshot of one, and why its last call was refused; none if it was not.
#[derive(Drop)]
pub struct KeptSite {
    pub(crate) content: Content,
    pub(crate) why: Option<EmbedFault>,
}

// Appends that a message waits for an instruction, and on which transfer.
fn push_waits(text: &mut String, transfer: &TransferKey) -> Result<(), AllocError>
    ensures { OnOk result (string_bytes text.new ≡ string_bytes text.old ++ (codes "84 " ++ transfer_words transfer.now)) }
{
    text.push_str("84 ")?;
    text.push_str(transfer.debtor_agent.text())?;
    text.push_str(" ")?;
    text.push_str(transfer.tx.text())?;
    Ok(())
}

// Appends why a message may not be sent.
#[tactic(auto, unfolding(crate::specs::Reasons::withheld_text))]
fn push_withheld(text: &mut String, permission: &Permission) -> Result<(), AllocError>
    ensures { OnOk result (string_bytes text.new ≡ string_bytes text.old ++ withheld_text permission.now) }
{
    match permission {
        Permission::Allowed => Ok(()),
        Permission::NotSender => text.push_str("81"),
        Permission::NotOriginator(place) => write!(text, "82 {place}"),
        Permission::NotBeneficiary => text.push_str("83"),
        Permission::Waits(transfer) => push_waits(text, transfer),
    }
}

// Appends the number of a fault and its fields, with a space between each two, as the program prints them.
#[tactic(auto, unfolding(crate::specs::Reasons::fault_text))]
fn push_fault(alloc: Global, text: &mut String, reason: &EmbedFault) -> Result<(), AllocError>
    ensures { IfOk result (λ _. string_bytes text.new ≡ string_bytes text.old ++ fault_text reason.now) }
{
    match reason {
        EmbedFault::Message(reason) => push_json_fault(alloc, text, reason),
        EmbedFault::Delta(reason) => push_refusal(text, reason),
        EmbedFault::BadList(record) => write!(text, "48 {record}"),
        EmbedFault::Memory => text.push_str("65"),
        EmbedFault::Empty => text.push_str("70"),
        EmbedFault::Full => text.push_str("71"),
        EmbedFault::BadVector => text.push_str("72"),
        EmbedFault::BadArgument(place) => write!(text, "73 {place}"),
        EmbedFault::NotYours => text.push_str("79"),
        EmbedFault::Withheld(permission) => push_withheld(text, permission),
        EmbedFault::Snapshot => text.push_str("85"),
    }
}

impl KeptSite {
    /// Keeps why a call was refused, or nothing if it was not.
    pub(crate) fn keep_why<T: Drop>(&mut self, done: Result<T, EmbedFault>)
        ensures why { self.new.why ≡ result_err done }
        ensures content { self.new.content ≡ self.old.content }
    {
        self.why = done.err();
    }

    /// The text of the reason, which is empty if there is none.
    #[tactic(auto, unfolding(crate::specs::Reasons::why_text))]
    pub(crate) fn why_text(&self, alloc: Global) -> Result<String, AllocError>
        ensures { IfOk result (λ text. string_bytes text ≡ why_text self.now.why) }
    {
        let mut text = String::new(alloc);
        if let Some(reason) = &self.why {
            push_fault(alloc, &mut text, reason)?;
        }
        Ok(text)
    }
}

//! The findings of a transfer: a test for each contradiction, and all findings in the order in which they are reported.
ghost use Rattle.std.specs.Prelude.{◌≡◌, ◌++◌, ◌&&◌, ℕ, List, Bool, IfOk, OnOk, map, not, nat_eq, nat_lt, length};
ghost use Rattle.std.specs.List.{list_any};
ghost use Rattle.sct_case.specs.Inside.{IsByRecall, all_found, both_answers, differing_recalls, differing_refusals, instruction_found};
ghost use Rattle.sct_case.specs.Told.{differ, has_some, names_another, return_of_it, same_reason, same_return, where_found};
ghost use Rattle.sct_case.specs.declared.finding.Finding.TheVariants as finding;

use crate::differ::{cxls, differ, differ_on, is_some_on};
use crate::finding::Finding;
use crate::recall_order::by_recall;
use crate::said::{InstructedAmount, OriginalAmount, RecallMade, RefusalMade, ReturnMade, Said};
use sct_element::Id35;
use sct_message::Identity;
use std::alloc::{AllocError, Global};

impl Said {
    fn has_two_instructions(&self) -> bool
        ensures { result ≡ nat_lt 1 (length self.now.instructions.items) }
    {
        1 < self.instructions.len()
    }

    fn is_both_confirmed(&self) -> bool
        ensures { result ≡ (self.now.accepted && has_some self.now.rejections.items) }
    {
        self.accepted && !self.rejections.is_empty()
    }

    fn do_reasons_differ(&self) -> bool
        ensures { result ≡ differ same_reason self.now.rejections.items }
    {
        differ(&self.rejections)
    }

    fn does_amount_differ(&self) -> bool
        ensures { result ≡ names_another self.now.instructions.items self.now.amounts.items }
    {
        names_another(&self.instructions, &self.amounts)
    }

    fn has_two_returns(&self) -> bool
        ensures { result ≡ differ same_return self.now.returns.items }
    {
        differ(&self.returns)
    }

    fn has_return_of_rejected(&self) -> bool
        ensures { result ≡ (has_some self.now.returns.items && has_some self.now.rejections.items) }
    {
        !self.returns.is_empty() && !self.rejections.is_empty()
    }

    /// The findings on contradicted identities, and after them those on the instruction and its confirmations.
    fn findings_of_instruction(
        &self,
        alloc: Global,
        asides: &[Identity],
    ) -> Result<Vec<Finding>, AllocError>
        ensures { IfOk result (λ found. found.items ≡ instruction_found self.now asides.now) }
    {
        let mut found = contradictions(alloc, asides)?;
        push_if(
            &mut found,
            self.has_two_instructions(),
            Finding::TwoInstructions,
        )?;
        push_if(&mut found, self.is_both_confirmed(), Finding::BothConfirmed)?;
        push_if(&mut found, self.do_reasons_differ(), Finding::ReasonsDiffer)?;
        push_if(
            &mut found,
            self.does_amount_differ(),
            Finding::AmountDiffers,
        )?;
        Ok(found)
    }

    /// All findings of the transfer, in their stated order. O(n log n) in the number of statements.
    pub(crate) fn into_findings(
        self,
        alloc: Global,
        asides: &[Identity],
    ) -> Result<Vec<Finding>, AllocError>
        ensures { IfOk result (λ found. found.items ≡ all_found self asides.now) }
    {
        let two_returns = self.has_two_returns();
        let return_of_rejected = self.has_return_of_rejected();
        let recalled = cxls(alloc, &self.recalls)?;
        let refused = cxls(alloc, &self.refusals)?;
        let mut found = self.findings_of_instruction(alloc, asides)?;
        push_differing_recalls(&mut found, self.recalls, &recalled)?;
        push_both_answers(&mut found, self.returns, &refused)?;
        push_differing_refusals(&mut found, self.refusals, &refused)?;
        push_if(&mut found, two_returns, Finding::TwoReturns)?;
        push_if(&mut found, return_of_rejected, Finding::ReturnOfRejected)?;
        Ok(found)
    }
}

/// Whether an amount is named that differs from that of the one instruction.
fn names_another(instructions: &[InstructedAmount], named: &[OriginalAmount]) -> bool
    ensures { result ≡ names_another instructions.now named.now }
{
    match instructions {
        [instructed] => is_another_named(instructed, named),
        _ => false,
    }
}

fn is_another_named(instructed: &InstructedAmount, named: &[OriginalAmount]) -> bool
    ensures { result ≡ list_any (λ other. not (nat_eq other.amount instructed.now.amount)) named.now }
{
    named
        .iter()
        .any(|other| other.amount.cents() != instructed.amount.cents())
}

/// Appends a finding for each of the recalls that two messages make differently.
fn push_differing_recalls(
    found: &mut Vec<Finding>,
    made: Vec<RecallMade>,
    cxls: &[Id35],
) -> Result<(), AllocError>
    ensures { OnOk result (found.new.items ≡ found.old.items ++ differing_recalls made.items cxls.now) }
{
    let sorted = by_recall(made)?;
    for cxl in cxls {
        push_if(
            found,
            differ_on(&sorted, cxl),
            Finding::RecallsDiffer(cxl.copy()),
        )?;
    }
    Ok(())
}

/// Whether money was returned after a recall.
fn is_returned_after(returns: &[ReturnMade], cxl: &Id35) -> bool
    requires { IsByRecall (λ m. m.cxl) returns.now }
    ensures { result ≡ list_any (return_of_it cxl.now) returns.now }
{
    is_some_on(returns, cxl)
}

/// Appends a finding for each of the refused recalls that a return answers too.
fn push_both_answers(
    found: &mut Vec<Finding>,
    returns: Vec<ReturnMade>,
    cxls: &[Id35],
) -> Result<(), AllocError>
    ensures { OnOk result (found.new.items ≡ found.old.items ++ both_answers returns.items cxls.now) }
{
    let sorted = by_recall(returns)?;
    for cxl in cxls {
        push_if(
            found,
            is_returned_after(&sorted, cxl),
            Finding::BothAnswers(cxl.copy()),
        )?;
    }
    Ok(())
}

/// Appends a finding for each of the recalls that two messages refuse differently.
fn push_differing_refusals(
    found: &mut Vec<Finding>,
    made: Vec<RefusalMade>,
    cxls: &[Id35],
) -> Result<(), AllocError>
    ensures { OnOk result (found.new.items ≡ found.old.items ++ differing_refusals made.items cxls.now) }
{
    let sorted = by_recall(made)?;
    for cxl in cxls {
        push_if(
            found,
            differ_on(&sorted, cxl),
            Finding::RefusalsDiffer(cxl.copy()),
        )?;
    }
    Ok(())
}

/// Appends a finding if it holds.
fn push_if(found: &mut Vec<Finding>, holds: bool, finding: Finding) -> Result<(), AllocError>
    ensures { OnOk result (found.new.items ≡ found.old.items ++ where_found holds finding) }
{
    if holds {
        found.push(finding)?;
    }
    Ok(())
}

/// The contradicted identities as findings.
fn contradictions(alloc: Global, asides: &[Identity]) -> Result<Vec<Finding>, AllocError>
    ensures { IfOk result (λ found. found.items ≡ map (λ i. finding.Identity i) asides.now) }
{
    asides
        .iter()
        .map(|identity| Finding::Identity(identity.copy()))
        .collect(alloc)
}

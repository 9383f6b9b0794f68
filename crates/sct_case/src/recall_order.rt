//! Statements about the recalls of one transfer, sorted by recall.
ghost use Rattle.std.specs.Prelude.{◌≡◌, ℕ, List, Bool, IfOk};
ghost use Rattle.sct_case.specs.Inside.{IsByRecall, SayAlike, said_of};

use crate::differ::OfRecall;
use sct_element::Id35;
use std::alloc::AllocError;

/// The statements, sorted by recall. Statements about one recall keep their order.
pub(crate) fn by_recall<S: OfRecall>(said: Vec<S>) -> Result<Vec<S>, AllocError>
    ensures order { IfOk result (λ sorted. IsByRecall S.recall sorted.items) }
    ensures alike { IfOk result (λ sorted. SayAlike S.recall sorted.items said.items) }
{
    let mut sorted = said;
    sorted.sort_by(|one, other| one.cxl().cmp(other.cxl()))?;
    Ok(sorted)
}

/// The statements about one recall. O(log n) in the number of all statements.
pub(crate) fn on<'a, S: OfRecall>(said: &'a [S], cxl: &Id35) -> &'a [S]
    requires { IsByRecall S.recall said.now }
    ensures { result.now ≡ said_of S.recall cxl.now said.now }
{
    let end = said.partition_point(|one| one.cxl().cmp(cxl).is_le());
    let (up_to, _) = said.split_at(end);
    let start = up_to.partition_point(|one| one.cxl().cmp(cxl).is_lt());
    let (_, on) = up_to.split_at(start);
    on
}

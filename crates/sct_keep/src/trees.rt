//! Numbers joined in trees, as a list that has the parent of each number. A parent is not greater than its child,
//! and a root is its own parent.

ghost use Rattle.std.specs.Prelude.{◌≡◌, ◌<◌, ◌≤◌, ℕ, length, slice_index, IfOk};
ghost use Rattle.sct_keep.specs.Trees.{AreAsBefore, AreJoined, AreLabels, AreParents, AreWithJoined};

use std::alloc::{AllocError, Global};

/// A list with each number as its own parent.
pub(crate) fn each_alone(alloc: Global, count: usize) -> Result<Vec<usize>, AllocError>
    ensures count { IfOk result (λ parents. length parents.items ≡ count) }
    ensures alone { IfOk result (λ parents. (i : ℕ) → i < count → slice_index parents.items i ≡ i) }
{
    let mut parents = Vec::with_capacity(alloc, count)?;
    for number in 0..count {
        parents.push(number)?;
    }
    Ok(parents)
}

// Gives a number its grandparent as the parent, and returns it.
#[tactic(auto, using(crate::proofs::TreeLemmas::parent_within, crate::proofs::TreeLemmas::not_above, crate::proofs::TreeLemmas::raised, crate::proofs::TreeLemmas::raised_joined))]
fn raise(parents: &mut [usize], at: usize) -> usize
    requires parents { AreParents parents.now }
    requires at { at < length parents.now }
    ensures above { result ≤ slice_index parents.old at }
    ensures joined { AreJoined parents.new at result }
    ensures as_before { AreAsBefore parents.old parents.new }
{
    let parent = parents[at];
    let above = parents[parent];
    parents[at] = above;
    above
}

// The root of a number's tree. The path to it is halved.
#[tactic(auto, using(crate::proofs::TreeLemmas::as_before, crate::proofs::TreeLemmas::is_root))]
fn root(parents: &mut [usize], number: usize) -> usize
    requires parents { AreParents parents.now }
    requires number { number < length parents.now }
    ensures within { result < length parents.new }
    ensures root { slice_index parents.new result ≡ result }
    ensures joined { AreJoined parents.new number result }
    ensures as_before { AreAsBefore parents.old parents.new }
{
    let mut at = number;
    while parents[at] < at {
        at = raise(parents, at);
    }
    at
}

// Gives a root a parent, which is not greater.
#[tactic(auto, using(crate::proofs::TreeLemmas::is_linked))]
fn link(parents: &mut [usize], from: usize, to: usize)
    requires parents { AreParents parents.now }
    requires from { from < length parents.now }
    requires to { to ≤ from }
    requires root { slice_index parents.now from ≡ from }
    ensures { AreWithJoined parents.old parents.new from to }
{
    parents[from] = to;
}

/// Joins the trees of two numbers. In n calls O(log n) each on average.
pub(crate) fn join(parents: &mut [usize], one: usize, other: usize)
    requires parents { AreParents parents.now }
    requires one { one < length parents.now }
    requires other { other < length parents.now }
    ensures { AreWithJoined parents.old parents.new one other }
{
    let first = root(parents, one);
    let second = root(parents, other);
    if second < first {
        link(parents, first, second);
    } else {
        link(parents, second, first);
    }
}

/// A label for each number, one for each tree. A parent is before its child, so one pass finds them. O(n).
#[tactic(auto, using(crate::proofs::TreeLemmas::no_labels, crate::proofs::TreeLemmas::all_labels))]
pub(crate) fn labels(alloc: Global, parents: &[usize]) -> Result<Vec<usize>, AllocError>
    requires parents { AreParents parents.now }
    ensures { IfOk result (λ labels. AreLabels labels.items parents.now) }
{
    let mut labels = each_alone(alloc, parents.len())?;
    for number in 0..parents.len() {
        let label = labels[parents[number]];
        labels[number] = label;
    }
    Ok(labels)
}

//! The order of reasons, by the bytes of their texts.
ghost use Rattle.std.specs.Prelude.{◌≡◌, ◌↔◌, ℕ, List, Some, None, refl};
ghost use Rattle.std.specs.Ordering.{eq_by_cmp};
ghost use Rattle.std.specs.Cmp.{IsTotalOrder, partial_equiv_from_equiv, eq_by_cmp_equiv, po};
ghost use Rattle.std.specs.FinSet.{IsAntisymmetric};
ghost use Rattle.sct_element.specs.Identification.{written_code};
ghost use Rattle.sct_reason.specs.declared.reasons.Reason.{Reason as ReasonOf};
ghost use Rattle.sct_reason.specs.Codes.{reason_text};
ghost use Rattle.sct_reason.specs.Reasons.{reason_of, reason_order};
ghost use Rattle.sct_reason.specs.ReasonLaws.{reason_total};

use crate::reasons::Reason;
use std::cmp::Ordering;
use std::hash::{Hash, Hasher};

impl PartialEq for Reason {
    ghost eq = { eq_by_cmp reason_order };

    ghost laws = { partial_equiv_from_equiv (eq_by_cmp_equiv reason_total) };

    fn eq(&self, other: &Self) -> bool {
        self.cmp(other).is_eq()
    }
}

impl Eq for Reason {
    ghost laws = { eq_by_cmp_equiv reason_total };
}

impl PartialOrd for Reason {
    ghost partial_cmp = { λ a b. Some (reason_order a b) };

    ghost laws = { po reason_total (λ a b. refl) };

    fn partial_cmp(&self, other: &Self) -> Option<Ordering> {
        Some(self.cmp(other))
    }
}

impl Ord for Reason {
    ghost cmp = { reason_order };

    ghost total = { reason_total };

    ghost matches_partial_cmp = { λ a b. refl };

    ghost matches_eq = { λ a b. refl };

    fn cmp(&self, other: &Self) -> Ordering {
        self.text().cmp(other.text())
    }
}

impl Hash for Reason {
    ghost use Rattle.std.specs.Hash as fed;
    ghost use Rattle.sct_reason.specs.ReasonLaws.{same_input};

    ghost hash_input = { λ r. fed.str (reason_text r) };

    ghost respects_eq = { same_input (λ r. fed.str (reason_text r)) };

    fn hash<H: Hasher>(&self, state: &mut H) {
        self.text().hash(state);
    }
}

/// Reasons and codes correspond. Each reason is read from its text and from no other text. A text is read
/// as no reason exactly if it is not a code.
/// Reasons are totally ordered, and two reasons are equal only if their texts are equal.
pub fn reasons_are_exact()
    ensures read_again { (r : ReasonOf) → reason_of (reason_text r) ≡ Some r }
    ensures read_from_its_text { (s : List ℕ) (r : ReasonOf) → reason_of s ≡ Some r → reason_text r ≡ s }
    ensures none_where_no_code { (s : List ℕ) → (reason_of s ≡ None) ↔ (written_code s ≡ None) }
    ensures one_of_a_text { (a b : ReasonOf) → reason_text a ≡ reason_text b → a ≡ b }
    ensures total { IsTotalOrder reason_order }
    ensures same { IsAntisymmetric reason_order }
{}

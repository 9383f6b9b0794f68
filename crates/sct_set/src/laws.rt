//! Laws of archives, whatever they hold. Each law is the contract of a function with an empty body.
//! The laws of merging are facts of the union of sets, and the clause of `Archive::merge` says that a merge is that union.

ghost use Rattle.sct_set.specs.Laws.{IsAssociative, IsCommutative, IsIdempotent, HoldsBothSides, EqualSetsAnswerAlike, TellsContradictions, TellsInOrder, AnswersAgainst, WritesEachOnce};

/// Merging is associative on contents.
pub fn merge_is_associative()
    ensures { IsAssociative }
{}

/// Merging is commutative on contents.
pub fn merge_is_commutative()
    ensures { IsCommutative }
{}

/// A merge with messages that are held already changes nothing.
pub fn merge_is_idempotent()
    ensures { IsIdempotent }
{}

/// After a merge the archive holds the messages of both sides and no others.
pub fn merge_holds_both_sides()
    ensures { HoldsBothSides }
{}

/// Archives that hold the same messages give the same text and the same contradictions.
pub fn equal_sets_answer_alike()
    ensures { EqualSetsAnswerAlike }
{}

/// An identity is among the contradictions exactly if two different messages held have it.
pub fn contradictions_are_told()
    ensures { TellsContradictions }
{}

/// Contradictions are reported in ascending order, each once.
pub fn contradictions_are_in_order()
    ensures { TellsInOrder }
{}

/// A message that is not held is answered with `Against` exactly if its identity is contradicted afterwards.
pub fn against_is_answered()
    ensures { AnswersAgainst }
{}

/// The text has a line for each message held, sorted by identity and then by text, and no other line.
pub fn text_writes_each_once()
    ensures { WritesEachOnce }
{}

//! Laws of findings and statuses, for all messages. Each law is the contract of a function with an empty body.

ghost use Rattle.sct_case.specs.AnyOrder.{AnswersInAnyOrder};
ghost use Rattle.sct_case.specs.Laws.{TellsExactly, TellsFindingsInOrder, ContradictionsStay, MessagesAreApart, ConsistentSayOneThing};
ghost use Rattle.sct_case.specs.RecallSentences.{TellsEachRecallStatus};
ghost use Rattle.sct_case.specs.Sentences.{TellsEachStatus};

/// A finding is reported exactly if its relation holds.
pub fn findings_are_exact()
    ensures { TellsExactly }
{}

/// Findings are reported in the stated order, each once.
pub fn findings_are_in_order()
    ensures { TellsFindingsInOrder }
{}

/// A transfer that is contradicted in a set of messages is contradicted in every larger one.
pub fn contradictions_stay()
    ensures { ContradictionsStay }
{}

/// The clean messages of a set on a transfer have no identity twice.
pub fn messages_are_apart()
    ensures { MessagesAreApart }
{}

/// If a transfer has no finding, all its rejections give one reason, all its returns are equal, and all refusals of one
/// recall give one reason. So the argument of a status is the only one that the messages name.
pub fn consistent_messages_say_one_thing()
    ensures { ConsistentSayOneThing }
{}

/// Each status of a transfer is returned exactly if its sentence holds.
pub fn statuses_are_exact()
    ensures { TellsEachStatus }
{}

/// Each status of a recall is returned exactly if its sentence holds.
pub fn recall_statuses_are_exact()
    ensures { TellsEachRecallStatus }
{}

/// The same messages have the same findings and statuses, in whatever order they are passed.
pub fn order_does_not_matter()
    ensures { AnswersInAnyOrder }
{}

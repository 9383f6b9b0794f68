//! Laws of what is done in the name of banks, for all messages. Each law is the contract of a function with an empty body.

ghost use Rattle.sct_rights.specs.Laws.{BanksSendInTheirName, NothingElseHappens, NothingLeaks, ReportsTellTheTruth, ShownMessagesFollowTheRules, TheTruthIsTold};

/// What is allowed is in the name of the banks, and nothing else is. Each message that sendings bring was allowed.
pub fn banks_send_in_their_name()
    ensures { BanksSendInTheirName }
{}

/// A sending that is not allowed changes nothing, then and after all that follows.
pub fn nothing_else_happens()
    ensures { NothingElseHappens }
{}

/// A transfer that is theirs has the answers, the lines and the totals that it has for the hub itself.
pub fn the_truth_is_told()
    ensures { TheTruthIsTold }
{}

/// The report for banks has the transfers of the hub's own, and the rows of those that are theirs.
pub fn reports_tell_the_truth()
    ensures { ReportsTellTheTruth }
{}

/// A message on a transfer that is theirs follows the rules of its kind as it is shown.
pub fn shown_messages_follow_the_rules()
    ensures { ShownMessagesFollowTheRules }
{}

/// What banks are told depends on the messages on their transfers alone, as these are shown.
pub fn nothing_leaks()
    ensures { NothingLeaks }
{}

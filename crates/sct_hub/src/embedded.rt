//! Laws of hubs of programs that embed a site, as the C library does. Each law is the contract of a function with an empty body.
//!
//! Such a program keeps a journal of its site's own messages alone. Its site takes messages, accepts deltas and cuts deltas. If
//! the program stops, the site is restored from the journal and a delta text that was cut before, or none. The rules that the
//! program keeps are those of `MayHappen`: what is cut is in the journal before, and what is in the journal stays in it.

ghost use Rattle.sct_hub.specs.EmbeddedLaws.{DeltasAddNothing, EmbeddedSitesNeverFork, EqualSitesAnswerAlike, JournalsHaveTheMessages, JournalsOnlyGrow, NoNumberIsGivenTwice, OwnMessagesOnlyGrow, RepeatsAddNothing, WrittenMessagesLast};

/// A site refuses a delta of its hub only because it is early (41), over takes, accepted deltas and restores in any order. So
/// no delta is refused as a fork (42), or for own entries that the site does not have (43).
pub fn embedded_sites_never_fork()
    ensures { EmbeddedSitesNeverFork }
{}

/// Sites of a hub with equal version vectors hold the same messages under the same numbers, and answer each question but
/// `changes` with the same bytes.
pub fn equal_sites_answer_alike()
    ensures { EqualSitesAnswerAlike }
{}

/// The journal of each site only grows, whatever happens, and the site's own messages begin with it. So a message in the
/// journal keeps its number, over restores too.
pub fn journals_only_grow()
    ensures journals { JournalsOnlyGrow }
    ensures messages { WrittenMessagesLast }
{}

/// The own messages of each site only grow, whatever happens, if each restore is from a journal that has all of them. So no
/// message that a site took loses its number.
pub fn own_messages_only_grow()
    ensures { OwnMessagesOnlyGrow }
{}

/// No number is given to two messages. An entry in a journal is the only one of its number that any site holds from then on.
pub fn no_number_is_given_twice()
    ensures { NoNumberIsGivenTwice }
{}

/// A program keeps the rules with one line in its journal for each message that was new to its site. Repeats and deltas add
/// nothing to the site's own messages, and no line to the journal.
pub fn programs_may_keep_the_rules()
    ensures messages { JournalsHaveTheMessages }
    ensures repeats { RepeatsAddNothing }
    ensures deltas { DeltasAddNothing }
{}

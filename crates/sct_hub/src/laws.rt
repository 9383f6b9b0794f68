//! Laws of hubs of keepers. Each law is the contract of a function with an empty body.
//!
//! A world of a hub is what events led to, from where a hub may begin. What may happen is bound by three things alone: a site
//! is one of the group, each delta that brings a keeper an entry has only entries that keepers of the hub hold, and a site that
//! writes a text holds fewer than 2^64 entries. The transport may lose, delay, repeat, cut and damage texts, and each machine may stop at any moment.

ghost use Rattle.sct_hub.specs.EqualDigests.{EqualDigestsAnswerAlike};
ghost use Rattle.sct_hub.specs.Laws.{AnsweredNumbersLast, EntriesAreTheirOrigins, EqualVectorsAnswerAlike, HonestHubsMayBegin, HubsMayGoOn, ImportedHubsMayBegin, KeepersHoldExactly, KeepersHoldWhatTheyAnswer, KeepersNeverFork, NewHubsMayBegin, NothingIsLost, NumbersAreKept, RestartsAreTheSame, WrittenTextsAreOfTheHub, WrittenTextsNeverFork};
ghost use Rattle.sct_hub.specs.Lives.{AskedTextsAreWritten, LivesMakeHubs, ServedLivesAreLives, SitesGoByTheirRounds, TextsAreAnswered};

use sct_read_again::messages_are_read_again;

/// A hub may begin with new journals, with journals of messages that are brought in from elsewhere, where honest runs of the
/// commands ended, or where a hub ended.
pub fn hubs_may_begin()
    ensures new { NewHubsMayBegin }
    ensures imported { ImportedHubsMayBegin }
    ensures honest { HonestHubsMayBegin }
    ensures again { HubsMayGoOn }
{
    messages_are_read_again();
}

/// Each entry that a site holds is its origin's: the site of the origin holds it under that number. No number is ever given to
/// two messages, and no site forgets its own.
pub fn entries_are_their_origins()
    ensures { EntriesAreTheirOrigins }
{
    messages_are_read_again();
}

/// Each text that a keeper wrote is a text of the hub from then on: it may be given to any site, late, again, or never.
pub fn written_texts_are_of_the_hub()
    ensures { WrittenTextsAreOfTheHub }
{
    messages_are_read_again();
}

/// A keeper refuses a text of its hub only because it is early (41): a text that a keeper wrote, and every other delta text
/// with entries that sites hold. So no text is refused as a fork (42), or for own entries that the site does not have (43).
pub fn keepers_never_fork()
    ensures texts { KeepersNeverFork }
    ensures written { WrittenTextsNeverFork }
{
    messages_are_read_again();
}

/// Sites of a hub with equal version vectors hold the same messages under the same numbers. So they answer each question
/// with the same bytes, cuts among them. Only `changes` goes by the order in which entries came.
pub fn equal_vectors_answer_alike()
    ensures { EqualVectorsAnswerAlike }
{
    messages_are_read_again();
}

/// Two sites that answer `digests` with the same bytes hold the same messages under the same numbers, and answer each question but
/// `changes` with the same bytes, whatever they were given and by whom: no hub and no transport has to be honest. The one premise
/// is that no two different texts that were hashed have one SHA-256 digest.
pub fn equal_digests_answer_alike()
    ensures { EqualDigestsAnswerAlike }
{
    messages_are_read_again();
}

/// A site of a hub holds the messages of the lines that its journal records, and no others: its own messages, and those of
/// the deltas that it accepted.
pub fn keepers_hold_exactly()
    ensures { KeepersHoldExactly }
{
    messages_are_read_again();
}

/// After requests a site holds exactly the messages that it held and those that it answered for: each that it took or held already, in
/// whoever's name, and those of each delta that it accepted.
pub fn keepers_hold_what_they_answer()
    ensures { KeepersHoldWhatTheyAnswer }
{}

/// A number that a keeper answers is the message's place in the own log of its journal, and stays that.
pub fn numbers_are_kept()
    ensures { NumbersAreKept }
{}

/// A message that was answered with a number is held under that number from then on, after each stop and restart.
pub fn answered_numbers_last()
    ensures { AnsweredNumbersLast }
{}

/// A site that is made again of its file is the site that was given the lines of which the file records what they brought.
/// No entry, number or answer differs.
pub fn restarts_are_the_same()
    ensures { RestartsAreTheSame }
{}

/// Whatever happens, a site keeps each entry that it had, of its own and of accepted deltas, in its order.
pub fn nothing_is_lost()
    ensures { NothingIsLost }
{}

/// What a site holds and records goes by the lines of its own rounds that last, whatever happens at other sites.
pub fn sites_go_by_their_rounds()
    ensures { SitesGoByTheirRounds }
{}

/// Lives of several sites, which overlap in any order, are events of a hub: each site begins each life with the file that its
/// last one left, and is given deltas with entries that some site holds at that moment. The files record what the hub's world
/// has. What `serve` leaves is such a life, so the laws speak of the lives of the program.
pub fn lives_make_hubs()
    ensures served { ServedLivesAreLives }
    ensures lives { LivesMakeHubs }
    ensures texts { AskedTextsAreWritten }
{}

/// A question for a cut, or for entries of an origin, is answered with the text that the laws of texts speak of.
pub fn texts_are_answered()
    ensures { TextsAreAnswered }
{}

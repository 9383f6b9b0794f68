//! Laws of catching up by origin, with texts of a limited size. Each law is the contract of a function with an empty body.

ghost use Rattle.sct_hub.specs.ReadBack.{HeldDeltasAreReadBack, HeldMessagesWereRead, TextsAreReadBack};
ghost use Rattle.sct_hub.specs.TextForm.{WrittenTextsAreLines};
ghost use Rattle.sct_hub.specs.OneOrigin.{AllCatchUp, AskingEnds, EntriesHaveRoom, PeersCatchUpOnOrigins, SitesCatchUpOnOrigins};

use sct_read_again::messages_are_read_again;

/// A text of a limited size has the longest front of the entries that it has room for, but at least the first entry.
pub fn entries_have_room()
    ensures { EntriesHaveRoom }
{}

/// A peer that asks for entries of an origin above a count that is at most its own accepts the text. If it has just so many, it
/// then has the giver's entries of the origin up to the text's last. If no entry comes, the giver has no more of them.
pub fn sites_catch_up_on_origins()
    ensures peers { PeersCatchUpOnOrigins }
    ensures sites { SitesCatchUpOnOrigins }
{
    messages_are_read_again();
}

/// Asking again and again ends, after at most as many texts as there are entries that the peer lacks.
pub fn asking_ends()
    ensures { AskingEnds }
{}

/// If each site has asked each other one for the other's own entries until none came, all vectors are equal.
pub fn all_catch_up()
    ensures { AllCatchUp }
{
    messages_are_read_again();
}

/// Each message that a site holds was read. So each delta of entries that it holds is read back, and so is each text that it
/// writes: each cut, and entries of each origin.
pub fn texts_are_read_back()
    ensures read { HeldMessagesWereRead }
    ensures deltas { HeldDeltasAreReadBack }
    ensures texts { TextsAreReadBack }
{
    messages_are_read_again();
}

/// Each written text is a delta line of `serve`, with a tab in place of each line feed but the last.
pub fn written_texts_are_lines()
    ensures { WrittenTextsAreLines }
{}

//! The names and the meanings of the numbers that calls return.

ghost use Rattle.std.specs.Prelude.{◌≡◌, length};
ghost use Rattle.sct_place.specs.Codes.{code_name, code_text};
ghost use Rattle.sct_place.specs.Places.{IsCopied};

use crate::asking::copy_text;

// The name of a number, or the empty text.
#[tactic(auto, unfolding(crate::specs::Codes::code_name))]
fn name_of(code: u8) -> &'static str
    ensures { result.now ≡ code_name code }
{
    match code {
        31 => "NotJson",
        32 => "NotObject",
        33 => "UnknownKind",
        34 => "Missing",
        35 => "NotText",
        36 => "Element",
        37 => "Extra",
        38 => "Rule",
        41 => "Gap",
        42 => "Fork",
        43 => "OwnAhead",
        44 => "BadSite",
        45 => "BadDelta",
        46 => "BadTransactions",
        48 => "BadList",
        56 => "At",
        65 => "Memory",
        70 => "Empty",
        71 => "Full",
        72 => "BadVector",
        73 => "BadArgument",
        79 => "NotYours",
        81 => "NotSender",
        82 => "NotOriginator",
        83 => "NotBeneficiary",
        84 => "Waits",
        85 => "Snapshot",
        _ => "",
    }
}

// The meaning of a number, or the empty text.
#[tactic(auto, unfolding(crate::specs::Codes::code_text))]
fn text_of(code: u8) -> &'static str
    ensures { result.now ≡ code_text code }
{
    match code {
        31 => "the bytes are not one JSON text in UTF-8",
        32 => "the JSON text is not an object",
        33 => "MsgNmId is not a name of one of the six kinds of message",
        34 => "a key that the kind needs is absent",
        35 => "the value of a key is not a text",
        36 => "the text of a key is not of the key's type",
        37 => "the object has a key that the kind does not have",
        38 => "a rule of the kind is broken",
        41 => "the delta begins after what the site holds of its origin",
        42 => "the delta has another message under a number that the site holds",
        43 => "the delta has messages of this site that it does not hold: its journal lost some",
        44 => "there is no such site in a group of 1 to 1024 sites",
        45 => "the text is not a delta: the place is that of its first wrong line",
        46 =>
            "TxInf is not a list of 1 to 100 objects: the place is that of the first one that is no object, or 0",
        48 =>
            "the list is not valid: the place is that of its first wrong record, from 1 with the header",
        56 => "the transaction of TxInf at the place has a fault",
        65 => "out of memory; the call can be made again",
        70 => "the handle has no site",
        71 => "the handle has a site already",
        72 => "the text is not a version vector",
        73 =>
            "a bank, an identification, a day, an origin, a count or a size is not valid: the place is that of the argument, from 1",
        79 => "the bank is none of the banks that ask",
        81 => "the sender of the message is none of the banks in whose name it is sent",
        82 => "the originator bank of the transaction at the place is none of the banks",
        83 => "the beneficiary bank of each instruction on the transfer is none of the banks",
        84 =>
            "no instruction on the transfer is held yet; the call can be made again when there is one",
        85 => "the handle has a snapshot of a site, which takes nothing",
        _ => "",
    }
}

/// Copies the name of a number, if it fits, and returns its length. It is empty for a number that no call returns.
pub fn copy_code_name(code: u8, out: &mut [u8]) -> usize
    ensures length { result ≡ length (code_name code) }
    ensures copied { IsCopied (code_name code) out.old out.new }
{
    copy_text(name_of(code).as_bytes(), out)
}

/// Copies the meaning of a number, if it fits, and returns its length. It is empty for a number that no call returns.
pub fn copy_code_text(code: u8, out: &mut [u8]) -> usize
    ensures length { result ≡ length (code_text code) }
    ensures copied { IsCopied (code_text code) out.old out.new }
{
    copy_text(text_of(code).as_bytes(), out)
}

//! What a site is asked for.

/// A question to a site. Its answer is a text.
#[derive(Drop)]
pub enum Question<'a> {
    /// The archive text. O(n log n) in the messages held.
    Archive,
    /// The status text. What is new is evaluated, and the text is written: O(n log n) in the transfers held.
    Status,
    /// The totals text. What is new is evaluated, and the text is written: O(n log n) in the banks held.
    Totals,
    /// The identities that two different messages held have: a line for each, ascending, such as `BANKDEFFXXX|pacs.008|M1`.
    /// O(c log c), for c messages held that are not the first of their identity.
    Contradictions,
    /// The text of the version vector: how many entries of each origin the site holds.
    Vector,
    /// The delta text, of form 2, of the entries that are numbered above a version vector, a text such as `1:2,3:1`, or `-`.
    /// O(entries cut), plus one look at each origin. Refusal: `BadVector` (72) if the text is not a version vector.
    Cut(&'a [u8]),
    /// The same above a vector of counts, that of origin 1 first. An origin after them counts 0.
    /// Refusal: `BadSite` (44) if there are more than 1024 counts.
    CutAbove(&'a [u64]),
    /// The delta text, of form 2, of the entries of an origin that are numbered above a count, in the order of their numbers: as
    /// many as a text of `most` bytes has room for, but at least the first. There may be none.
    /// The cost is that of the entries that it writes, and of one more.
    /// Refusal: `BadArgument` (73), 1 for the origin, if no site has that number, and 3 for the size, which is 1 to 67108863.
    Entries {
        /// The origin.
        origin: u16,
        /// The count.
        above: u64,
        /// How many bytes the text may have.
        most: u64,
    },
    /// The 64 hexadecimal digits of the digest of an origin's entries up to a count. What is new of the origin is looked at; then
    /// O(1,024). Refusal: `BadArgument` (73), 1 for the origin, if no site has that number, and 2 for the count, if the site holds
    /// fewer entries of it.
    Digest {
        /// The origin.
        origin: u16,
        /// The count.
        count: u64,
    },
    /// A line for each origin of which the site holds entries, ascending: its number, how many entries they are and the digest
    /// of all of them, with colons between. What is new is looked at; then O(origins).
    Digests,
    /// The site's own messages numbered above a count, each on a line: what a journal lacks that has so many.
    /// O(entries that came after the last own one that is left out).
    Journal(u64),
    /// The messages that came last, at most so many, each on a line, in the order in which they came. O(these messages).
    Newest(u64),
    /// What the site reads in a text of messages, one on each line: the line of each as the archive text has it, or the line
    /// that reports why it is refused, such as `line 8: 36 InstgAgt 1`. None of them is taken. O(bytes of the text).
    Reading(&'a [u8]),
    /// The lines of one transfer, as the status text has them: its T line, an F line for each finding, an R line for each
    /// recall. A transfer without messages has the status `UNKNOWN`. What is new is evaluated; then O(messages on the transfer).
    /// Refusal: `BadArgument` (73), 1 for the bank and 2 for the identification.
    Transfer {
        /// The originator bank.
        bank: &'a [u8],
        /// The identification.
        tx: &'a [u8],
    },
    /// The messages on one transfer: their lines of the archive text. What is new is evaluated; then O(n log n) in these.
    /// Refusal: `BadArgument` (73), 1 for the bank and 2 for the identification.
    Messages {
        /// The originator bank.
        bank: &'a [u8],
        /// The identification.
        tx: &'a [u8],
    },
    /// The line of one bank, as the totals text has it, also if all its numbers are 0. What is new is evaluated; then expected
    /// O(1). Refusal: `BadArgument` (73) with 1 for the bank.
    Bank(&'a [u8]),
    /// The report on a bank's list for a settlement day. What is new is evaluated and filed by bank; then O(n log n) in the rows of
    /// the list and the messages on transfers of the bank.
    /// Refusals: `BadArgument` (73), 1 for the bank and 2 for the day; `BadList` (48) with the first wrong record.
    Report {
        /// The bank.
        bank: &'a [u8],
        /// The settlement day.
        day: &'a [u8],
        /// The list.
        list: &'a [u8],
    },
    /// What is kept on a day, `YYYY-MM-DD`: each message with a tie to a transfer that is not done before the day, written as the
    /// archive text is. What is new is evaluated; then near linear in the messages held, and O(n log n) in those that are written.
    /// Refusal: `BadArgument` (73) with 1 for the day.
    Kept(&'a [u8]),
    /// What is closed on a day: the rest. Cost and refusal are those of `Kept`.
    Closed(&'a [u8]),
    /// What changed: a line such as `BANKDEFFXXX|TX1` for each transfer that the arrivals since the call before touch, ascending.
    /// Every other transfer has the lines that it had then. The first call begins the watch, and its answer is empty. O(n log n)
    /// in what is new and in the transfers that changed. From the first call on, each question also keeps the names of the
    /// transfers that it finds changed, until this one.
    Changes,
    /// The lines of one transfer for banks, a text such as `BANKDEFF,BANQFRPP`: as [`Question::Transfer`] has them if it is theirs, and
    /// those of a transfer without messages if not. What is new is evaluated and filed; then O(messages on the transfer).
    /// Refusal: `BadArgument` (73), 1 for the banks, 2 for the bank and 3 for the identification.
    TransferFor {
        /// The banks for which it is asked.
        banks: &'a [u8],
        /// The originator bank.
        bank: &'a [u8],
        /// The identification.
        tx: &'a [u8],
    },
    /// The messages on one transfer for banks, as they are shown: none if it is not theirs, and of a recall message of others the
    /// transactions on transfers of theirs. What is new is evaluated and filed; then O(n log n) in the transactions of these
    /// messages. Refusal: `BadArgument` (73), 1 for the banks, 2 for the bank and 3 for the identification.
    MessagesFor {
        /// The banks for which it is asked.
        banks: &'a [u8],
        /// The originator bank.
        bank: &'a [u8],
        /// The identification.
        tx: &'a [u8],
    },
    /// The line of one of the banks, as [`Question::Bank`] has it.
    /// Refusals: `BadArgument` (73), 1 for the banks and 2 for the bank; `NotYours` (79) if the bank is none of the banks.
    BankFor {
        /// The banks for which it is asked.
        banks: &'a [u8],
        /// The bank.
        bank: &'a [u8],
    },
    /// The report on a list of one of the banks: the rows of [`Question::Report`], but of a transfer that is not theirs what a row on
    /// no message is. What is new is evaluated and filed; then O(n log n) in the rows of the list and the messages on transfers of the bank.
    /// Refusals: `BadArgument` (73), 1 for the banks, 2 for the bank and 3 for the day; `NotYours` (79); `BadList` (48) with the first
    /// wrong record.
    ReportFor {
        /// The banks for which it is asked.
        banks: &'a [u8],
        /// The bank.
        bank: &'a [u8],
        /// The settlement day.
        day: &'a [u8],
        /// The list.
        list: &'a [u8],
    },
}

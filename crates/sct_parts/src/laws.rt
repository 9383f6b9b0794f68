//! Laws of parts that are apart, for all messages. Each law is the contract of a function with an empty body.

ghost use Rattle.sct_parts.specs.PartsLaws.{ApartFromAll, ApartSetsShareNothing, ArchiveIsThatOfTheParts, ContradictionsAreThoseOfTheParts, LinesAreThoseOfTheirPart, ManyPartsAnswerTogether, ManyPartsArePutTogether, RowsAreThoseOfTheirPart, SharedTransfersAreCountedTwice, TotalsAddUp, TransfersOfBanksAreThoseOfTheParts};

/// Sets are apart exactly if no message of one has an identity or a transfer in common with a message of the other.
pub fn apart_sets_share_nothing()
    ensures { ApartSetsShareNothing }
{}

/// A set that is apart from two sets is apart from their union. What is apart is so from both sides.
pub fn apart_from_all()
    ensures { ApartFromAll }
{}

/// The contradicted identities of the union of apart parts are those of the parts.
pub fn contradictions_are_those_of_the_parts()
    ensures { ContradictionsAreThoseOfTheParts }
{}

/// In the union of apart parts a transfer has the messages, the answers and the lines that it has in its part.
pub fn lines_are_those_of_their_part()
    ensures { LinesAreThoseOfTheirPart }
{}

/// The transfers of a bank in the union of apart parts are those in the parts.
pub fn transfers_of_banks_are_those_of_the_parts()
    ensures { TransfersOfBanksAreThoseOfTheParts }
{}

/// Each number of the totals of a bank in the union of apart parts is the sum of that number in the parts.
pub fn totals_add_up()
    ensures { TotalsAddUp }
{}

/// In a report on the union of apart parts a transfer has the row that it has in its part.
pub fn rows_are_those_of_their_part()
    ensures { RowsAreThoseOfTheirPart }
{}

/// The archive text of the union of two sets has the lines of both. A message is answered as by its part.
pub fn archive_is_that_of_the_parts()
    ensures { ArchiveIsThatOfTheParts }
{}

/// Many parts that are apart, two by two, answer together what each answers alone, and their totals add up.
pub fn many_parts_answer_together()
    ensures { ManyPartsAnswerTogether }
{}

/// The lists, the texts and the reports of many parts that are apart, two by two, are put together from those of the parts.
pub fn many_parts_are_put_together()
    ensures { ManyPartsArePutTogether }
{}

/// If a transfer is in both sets, the totals of its originator bank do not add up.
pub fn shared_transfers_are_counted_twice()
    ensures { SharedTransfersAreCountedTwice }
{}

//! The laws of digests: what equal digests say of messages, and what different ones do.
ghost use Rattle.sct_digest.specs.Laws.{DigestsAreOfTexts, DigestsDifferFromThereOn, EqualDigestsAreOfEqualTexts, EqualTextsAreOfEqualDigests};

/// Messages that are written alike have one digest. So digests that differ mean messages that differ.
pub fn digests_are_of_texts()
    ensures { DigestsAreOfTexts }
{}

/// As many messages with one digest are written alike, if no two different texts that were hashed have one SHA-256 digest.
pub fn equal_digests_are_of_equal_texts()
    ensures { EqualDigestsAreOfEqualTexts }
{}

/// The digests of a common count differ from the first message on that is written differently, if no two different texts that were
/// hashed have one SHA-256 digest.
pub fn digests_differ_from_there_on()
    ensures { DigestsDifferFromThereOn }
{}

/// If the lines of all digests of two sites are equal bytes, both have as many entries of each origin, with one digest.
pub fn equal_texts_are_of_equal_digests()
    ensures { EqualTextsAreOfEqualDigests }
{}

//! Laws of the delta text. Each law is the contract of a function with an empty body.
ghost use Rattle.std.specs.Prelude.{◌≡◌, ◌≢◌, ◌↔◌, ◌<◌, ◌+◌, ◌^◌, ℕ, List, Some, Ok, IsTrue, flat_map, length};
ghost use Rattle.std.specs.List.{list_all};
ghost use Rattle.sct_message.specs.declared.draft.Draft.{Draft};
ghost use Rattle.sct_json.specs.Reading.{message_in};
ghost use Rattle.sct_json.specs.Writing.{has_no_line_feed};
ghost use Rattle.sct_delta.specs.Entries.{Placed};
ghost use Rattle.sct_delta.specs.TextLines.{ended, ended_first, lines_by_end, lines_as};
ghost use Rattle.sct_delta.specs.GroupText.{groups_head};
ghost use Rattle.sct_delta.specs.DeltaText.{AgreeTo, IsDeltaText, delta_in, first_wrong_line};

/// The lines of a text are the given ones, each ended by a line feed, in exactly this case: one after another they make
/// the text, and no line has a line feed inside.
pub fn lines_make_the_text()
    ensures { (bytes : List ℕ) (lines : List (List ℕ)) → (lines_by_end bytes ≡ lines_as lines)
        ↔ ((bytes ≡ flat_map ended lines) × IsTrue (list_all has_no_line_feed lines)) }
{}

/// A text is read as a delta exactly if it is a form of that delta.
pub fn a_text_is_read_where_it_is_a_form()
    ensures { (bytes : List ℕ) (entries : List Placed)
        → (delta_in bytes ≡ Ok entries) ↔ IsDeltaText bytes entries }
{}

/// A text is a form of at most one delta.
pub fn a_text_is_a_form_of_one_delta()
    ensures { (bytes : List ℕ) (left right : List Placed)
        → IsDeltaText bytes left → IsDeltaText bytes right → left ≡ right }
{}

/// Texts of one delta are read as that delta, whatever form each of them has.
pub fn both_forms_are_read_alike()
    ensures { (some other : List ℕ) (entries : List Placed)
        → IsDeltaText some entries → IsDeltaText other entries → delta_in some ≡ delta_in other }
{}

/// A text with a wrong line is not a form of any delta. A text without one is a form of some delta.
pub fn a_wrong_line_means_no_form()
    ensures none { (bytes : List ℕ) (line : ℕ) (entries : List Placed)
        → first_wrong_line bytes ≡ Some line → ¬ (IsDeltaText bytes entries) }
    ensures some { (bytes : List ℕ) → first_wrong_line bytes ≡ None
        → (entries : List Placed) × IsDeltaText bytes entries }
{}

/// The lines after the first wrong one do not matter. A text with the same lines up to it has the same first wrong
/// line, so it is not a form of any delta either.
pub fn a_wrong_line_goes_by_its_front()
    ensures { (bytes other : List ℕ) (line : ℕ) → first_wrong_line bytes ≡ Some line → AgreeTo line bytes other
        → first_wrong_line other ≡ Some line }
{}

/// The lines before the first wrong one are right: some text that begins with the same lines is a form of a delta.
/// In form 2 messages may still be due there. The law therefore takes a JSON text on one line that is read as a
/// message, and uses that line for each message due.
pub fn the_lines_before_a_wrong_one_are_right()
    ensures entries { (bytes : List ℕ) (before : ℕ) → length bytes < 2 ^ 64
        → ended_first (lines_by_end bytes) ≢ Some groups_head → first_wrong_line bytes ≡ Some (before + 1)
        → (other : List ℕ) × (entries : List Placed) × AgreeTo before bytes other × IsDeltaText other entries }
    ensures groups { (bytes json : List ℕ) (message : Draft) (before : ℕ) → length bytes < 2 ^ 64
        → IsTrue (has_no_line_feed json) → message_in json ≡ Ok message → first_wrong_line bytes ≡ Some (before + 1)
        → (other : List ℕ) × (entries : List Placed) × AgreeTo before bytes other × IsDeltaText other entries }
{}

//! A text is cut into rounds: lines that are not questions, and then at most one question.
ghost use Rattle.std.specs.Prelude.{◌≡◌, ◌<◌, ◌++◌, [], length, option_map, true, false, IfSome, IfNone};
ghost use Rattle.std.specs.List.{list_all};
ghost use Rattle.sct_journal.specs.Kept.{ended_lines};
ghost use Rattle.sct_requests.specs.Steps.{is_question_line};
ghost use Rattle.sct_serve.specs.Serving.{HasNoQuestion, are_within, asked, most_request};

use sct_requests::{first_ended, is_question_line};

/// The most bytes of a request.
pub(crate) const MOST_REQUEST: usize = 67_108_864;

/// The front of a text.
#[derive(Drop)]
pub(crate) struct Round<'a> {
    /// Lines, none of which is a question.
    pub(crate) lines: &'a [u8],
    /// The question line after them, if there is one.
    pub(crate) question: Option<&'a [u8]>,
    /// What comes after that.
    pub(crate) rest: &'a [u8],
}

/// The first round of a text.
pub(crate) fn first_round(text: &[u8]) -> Round<'_>
    ensures parts { ended_lines text.now ≡ ended_lines result.lines.now ++ asked (option_map (λ line. line.now) result.question) ++ ended_lines result.rest.now }
    ensures none { HasNoQuestion (ended_lines result.lines.now) }
    ensures question { IfSome result.question (λ line. is_question_line line.now ≡ true) }
    ensures shorter { 0 < length text.now → length result.rest.now < length text.now }
{
    let mut rest = text;
    while let Some((line, after)) = first_ended(rest) {
        if is_question_line(line) {
            let (lines, _) = text.split_at(text.len() - rest.len());
            return Round {
                lines,
                question: Some(line),
                rest: after,
            };
        }
        rest = after;
    }
    Round {
        lines: text,
        question: None,
        rest: &[],
    }
}

/// Whether no line of a text has more bytes than a request may have.
pub(crate) fn are_within(text: &[u8]) -> bool
    ensures { result ≡ are_within text.now }
{
    let mut rest = text;
    while let Some((line, after)) = first_ended(rest) {
        if line.len() > MOST_REQUEST {
            return false;
        }
        rest = after;
    }
    true
}

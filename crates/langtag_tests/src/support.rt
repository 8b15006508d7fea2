//! How a test compares the answers to questions with the expected answers, and how it fails.
use langtag::{GrandfatheredLangTag, LangTag};
use std::alloc::{AllocError, Global};
use std::process::Abort;

/// What a test compares: a string, unless an allocation failed.
pub(crate) type Answer = Result<String, AllocError>;

/// Fails the test if a condition does not hold for a case. A number names the case, such as the length of its text.
///
/// It replaces `assert!`. With `assert!`, each use would have to be proved safe separately, which takes ten times as
/// long as the proof of a call.
pub(crate) fn expect_true(rt: &impl Abort, holds: bool, case: usize) {
    assert!(rt; holds, "of {case}");
}

/// Calls `answer` with each question, and calls it again if allocation failed. Fails the test if the result is not the
/// expected answer.
pub(crate) fn are_answered(
    rt: &impl Abort,
    alloc: Global,
    rows: &[(&str, &str)],
    answer: fn(Global, &str) -> Answer,
)
    requires { IsAlwaysCallable answer }
{
    for (question, wanted) in rows {
        let found = match answer(alloc, *question) {
            Ok(found) => found,
            Err(_) => answer(alloc, *question)
                .ok()
                .expect(rt, "memory was refused twice"),
        };
        assert!(rt; found.as_str() == *wanted, "of {question}: {found}");
    }
}

/// Returns a string as a tag, or `i-default` if it is not a tag.
pub(crate) fn tag(text: &str) -> LangTag<'_> {
    match LangTag::new(text) {
        Ok(tag) => tag,
        Err(_) => GrandfatheredLangTag::IDefault.as_lang_tag(),
    }
}

/// Cuts a question at its first `|`.
pub(crate) fn cut(question: &str) -> (&str, &str) {
    cut_at(question, '|')
}

/// Cuts a text at the first such character. Without one, all of it is the first part.
fn cut_at(text: &str, mark: char) -> (&str, &str) {
    text.split_once(mark).unwrap_or((text, ""))
}

/// Returns the string before the first `+`, and then the piece after it, this many times.
pub(crate) fn repeated(alloc: Global, text: &str, times: usize) -> Result<String, AllocError> {
    let (start, piece) = cut_at(text, '+');
    let mut whole = piece.repeat(alloc, times)?;
    whole.insert_str(0, start)?;
    Ok(whole)
}

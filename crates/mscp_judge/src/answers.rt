// Which lines of a log are answers.

ghost use Rattle.std.specs.Prelude.{◌≡◌};
ghost use Rattle.std.specs.Str.{bytes_eq};
ghost use Rattle.mscp_reader.specs.Lexical as lexical;
ghost use Rattle.mscp_judge.specs.Logs as logs;
ghost use Rattle.mscp_judge.specs.Rules as rules;

use mscp_reader::Words;

/// Whether a word is this one.
pub(crate) fn is(word: &[u8], name: &str) -> bool
    ensures { result ≡ bytes_eq word.now name.now }
{
    word == name.as_bytes()
}

/// Whether a line of a report may begin with this word, if it is of the first connection. A line of totals is none.
fn is_answer_word(word: &[u8]) -> bool
    ensures { result ≡ logs.is_answer_word word.now }
{
    is(word, "queued")
        || is(word, "answered")
        || is(word, "refused")
        || is(word, "serve")
        || is(word, "idle")
        || is(word, "end")
        || is(word, "none")
        || is(word, "figure")
}

/// Whether the line of these words is an answer.
pub(crate) fn is_answer(words: Words<'_>) -> bool
    ensures { result ≡ logs.is_answer (lexical.words words.entry.rest.now) }
{
    let mut rest = words;
    let Some(word) = rest.next_word() else {
        return false;
    };
    if !is(word, "second") {
        return is_answer_word(word);
    }
    match rest.next_word() {
        Some(word) => is_answer_word(word),
        None => false,
    }
}

/// Whether the line of these words says that a command was served.
pub(crate) fn is_service(words: Words<'_>) -> bool
    ensures { result ≡ rules.is_service (lexical.words words.entry.rest.now) }
{
    let mut rest = words;
    let Some(word) = rest.next_word() else {
        return false;
    };
    if !is(word, "second") {
        return is(word, "serve");
    }
    match rest.next_word() {
        Some(word) => is(word, "serve"),
        None => false,
    }
}

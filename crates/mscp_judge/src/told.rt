// Which lines of a log tell an end, and its bytes.

ghost use Rattle.std.specs.Prelude.{◌≡◌};
ghost use Rattle.mscp_judge.specs.Heard.{end_bytes, first_bytes, items_of};
ghost use Rattle.mscp_reader.specs.Lexical as lexical;

use crate::answers::is;
use arrayvec::ArrayVec;
use mscp_reader::{Words, bytes_in};

/// The bytes that stand first.
#[tactic(auto, unfolding(crate::specs::Heard::first_bytes))]
fn first_bytes(mut words: Words<'_>) -> ArrayVec<u8, 64>
    ensures { result.items ≡ first_bytes (lexical.words words.entry.rest.now) }
{
    match words.next_word() {
        Some(word) => bytes_in(word),
        None => ArrayVec::new(),
    }
}

/// The bytes of the end that these words tell, if they tell one.
#[tactic(auto, unfolding(crate::specs::Heard::end_bytes))]
pub(crate) fn end_bytes(mut words: Words<'_>) -> Option<ArrayVec<u8, 64>>
    ensures { items_of result ≡ end_bytes (lexical.words words.entry.rest.now) }
{
    match words.next_word() {
        Some(word) if is(word, "end") => Some(first_bytes(words)),
        _ => None,
    }
}

// The command that a line says was served, and the picker that starts it.

ghost use Rattle.std.specs.Prelude.{◌≡◌, ◌==◌, ◌<◌, ◌^◌, ◌++◌, codes, position, IfSome};
ghost use Rattle.mscp_judge.specs.Common.{IsNamed, is_wanted, IsNamedAhead};
ghost use Rattle.mscp_reader.specs.Lexical as lexical;
ghost use Rattle.mscp_judge.specs.Naming as naming;

use crate::answers::is;
use mscp_controller::{Choice, Connection, Name, Picker, View};
use mscp_reader::{Words, wide};

/// More than the longest line of a step has.
const FEW_BYTES: usize = 128;

/// Picks the command that is named, if one is and it may start, and else the oldest that may.
#[derive(Clone, Copy)]
pub struct Wanted {
    pub named: Option<Name>,
}

impl Wanted {
    /// Whether a choice is the command that is named.
    fn is_of(self, choice: Choice) -> bool
        ensures same { result ≡ is_wanted self.named choice }
        ensures small { choice.reference < 2 ^ 32 }
    {
        match self.named {
            Some(named) => {
                choice.connection == named.connection && choice.reference == named.reference
            }
            None => false,
        }
    }
}

impl Picker for Wanted {
    ghost picks = { λ wanted view place. IsNamed wanted.named view place };

    fn pick(&self, view: &View) -> usize {
        let choices = view.choices();
        let mut found = 0;
        for place in 0..choices.len() {
            if self.is_of(choices[place]) {
                found = place;
            }
        }
        found
    }
}

/// The name of the command of the connection that these words say was served, if they name one.
#[tactic(auto, unfolding(crate::specs::Naming::served))]
fn served(connection: Connection, mut words: Words<'_>) -> Option<Name>
    ensures { result ≡ naming.served connection (lexical.words words.entry.rest.now) }
{
    let word = words.next_word()?;
    let number = words.next_word()?;
    if !is(word, "serve") {
        return None;
    }
    match wide(number) {
        Ok(reference) => Some(Name {
            connection,
            reference,
        }),
        Err(_) => None,
    }
}

/// The name of the command that the line of these words says was served, if it names one.
#[tactic(auto, unfolding(crate::specs::Naming::name_in))]
pub(crate) fn name_in(words: Words<'_>) -> Option<Name>
    ensures { result ≡ naming.name_in (lexical.words words.entry.rest.now) }
{
    let mut rest = words;
    match rest.next_word() {
        Some(word) if is(word, "second") => served(Connection::Second, rest),
        Some(_) => served(Connection::First, words),
        None => None,
    }
}

/// What stands behind the word of a step, if bytes begin with it and a space.
fn behind_serve(bytes: &[u8]) -> Option<&[u8]>
    ensures { IfSome result (λ behind. bytes.now ≡ codes "serve " ++ behind.now) }
{
    match bytes {
        [b's', b'e', b'r', b'v', b'e', b' ', behind @ ..] => Some(behind),
        _ => None,
    }
}

/// The index of the first space.
fn space_in(bytes: &[u8]) -> Option<usize>
    ensures { result ≡ position (λ b. b == 32) bytes.now }
{
    bytes.iter().position(|byte| *byte == b' ')
}

/// The name of the command that the line ahead says was served, where that is of the first connection and the line is
/// written as a report has it. Where few bytes are left it isn't looked for: the last line may lack its line feed.
pub(crate) fn named_ahead(bytes: &[u8]) -> Option<Name>
    ensures { IfSome result (λ named. IsNamedAhead bytes.now named) }
{
    if bytes.len() < FEW_BYTES {
        return None;
    }
    let behind = behind_serve(bytes)?;
    let end = space_in(behind)?;
    match wide(&behind[..end]) {
        Ok(reference) => Some(Name {
            connection: Connection::First,
            reference,
        }),
        Err(_) => None,
    }
}

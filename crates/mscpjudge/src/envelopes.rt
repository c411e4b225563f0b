// What the envelopes of whole packets tell of the credits of hosts, line by line.

ghost use Rattle.std.specs.Prelude.{◌≡◌, ◌≤◌, ◌∷◌};
ghost use Rattle.mscp_reader.specs.Lexical as lexical;
ghost use Rattle.mscp_reader.specs.Requests as requests;
ghost use Rattle.mscp_wire.specs.Log.{without_time};
ghost use Rattle.mscpjudge.specs.Credits as credits;

use mscp_controller::Connection;
use mscp_reader::{Words, bytes_in, words_of};
use mscp_wire::is_time;

/// How many digits an envelope has.
const DIGITS: usize = 8;

/// What a line tells of credits by an envelope.
#[derive(Clone, Copy)]
pub enum Tells {
    /// Nothing.
    Nothing,
    /// The controller gives a host so many.
    Gives(Connection, u8),
    /// A packet to or from a host is told without its envelope.
    Hides(Connection),
}

/// What the controller gives by a packet of this envelope.
fn given_by(connection: Connection, envelope: &[u8]) -> Tells
    ensures { result ≡ credits.given_by connection envelope.now }
{
    if envelope.len() == 4 && envelope[3] == 0 {
        Tells::Gives(connection, envelope[2] % 16)
    } else {
        Tells::Nothing
    }
}

/// The same by the digits that are left.
fn given_in(connection: Connection, words: Words<'_>) -> Tells
    ensures { result ≡ credits.given_in connection (requests.one (lexical.words words.entry.rest.now)) }
{
    match words.one() {
        Ok(digits) if digits.len() >= DIGITS => {
            given_by(connection, bytes_in(&digits[..DIGITS]).as_slice())
        }
        _ => Tells::Nothing,
    }
}

/// What a line of a connection tells by its first word and those behind it.
#[tactic(auto, unfolding(crate::specs::Credits::tells_on))]
fn tells_with(connection: Connection, word: &[u8], fields: Words<'_>) -> Tells
    ensures { result ≡ credits.tells_on connection (word.now ∷ lexical.words fields.entry.rest.now) }
{
    if word == b"to".as_slice() {
        given_in(connection, fields)
    } else if word == b"send".as_slice() || word == b"end".as_slice() {
        Tells::Hides(connection)
    } else {
        Tells::Nothing
    }
}

/// The same by the words that are left.
#[tactic(auto, unfolding(crate::specs::Credits::tells_on))]
fn tells_on(connection: Connection, mut words: Words<'_>) -> Tells
    ensures { result ≡ credits.tells_on connection (lexical.words words.entry.rest.now) }
{
    match words.next_word() {
        Some(word) => tells_with(connection, word, words),
        None => Tells::Nothing,
    }
}

/// What a line tells by its first word and those behind it.
#[tactic(auto, unfolding(crate::specs::Credits::tells_by))]
fn tells_by(word: &[u8], fields: Words<'_>) -> Tells
    ensures { result ≡ credits.tells_by (word.now ∷ lexical.words fields.entry.rest.now) }
{
    if word == b"second".as_slice() {
        tells_on(Connection::Second, fields)
    } else {
        tells_with(Connection::First, word, fields)
    }
}

/// The same by the words that are left.
#[tactic(auto, unfolding(crate::specs::Credits::tells_by))]
fn tells_behind(mut words: Words<'_>) -> Tells
    ensures { result ≡ credits.tells_by (lexical.words words.entry.rest.now) }
{
    match words.next_word() {
        Some(word) => tells_by(word, words),
        None => Tells::Nothing,
    }
}

/// The same by all words: a time may stand first.
#[tactic(auto, unfolding(crate::specs::Credits::tells_by, mscp_wire::specs::Log::without_time))]
fn tells_in(mut words: Words<'_>) -> Tells
    ensures { result ≡ credits.tells_by (without_time (lexical.words words.entry.rest.now)) }
{
    match words.next_word() {
        Some(word) if is_time(word) => tells_behind(words),
        Some(word) => tells_by(word, words),
        None => Tells::Nothing,
    }
}

/// What the line of this number tells.
#[tactic(auto, unfolding(crate::specs::Credits::line_tells))]
pub(crate) fn line_tells(number: u32, line: &[u8]) -> Tells
    requires { 1 ≤ number }
    ensures { result ≡ credits.line_tells number line.now }
{
    match words_of(number, line) {
        Ok(words) => tells_in(words),
        Err(_) => Tells::Nothing,
    }
}

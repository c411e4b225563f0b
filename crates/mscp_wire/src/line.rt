// What a line of a log says.

ghost use Rattle.std.specs.Prelude.{◌≡◌, ◌≤◌, ◌<◌, ◌^◌, ◌∷◌, IfSome, length, position};
ghost use Rattle.mscp_reader.specs.Common.{Gives, in_line};
ghost use Rattle.mscp_reader.specs.Lexical as lexical;
ghost use Rattle.mscp_reader.specs.Grammar.{only_number};
ghost use Rattle.mscp_wire.specs.Log as log;

use crate::envelope::enveloped;
use crate::moment::Moment;
use arrayvec::ArrayVec;
use mscp_drive::Connection;
use mscp_packet::endcodes;
use mscp_reader::{Cause, ScriptFault, Words, bytes_in, wide, words_of};

/// What a line of a log says.
#[derive(Drop)]
pub enum Said {
    /// Nothing: it has no word, or none but a time.
    Nothing,
    /// How many credits each host has.
    Credits(u32),
    /// What happened.
    Happens(Moment),
    /// The controller sends the host of a connection an attention message.
    Attention(Connection, ArrayVec<u8, 64>),
    /// The log begins in the middle.
    Begun,
}

/// Ten to the power of at most nine.
fn power_of_ten(power: usize) -> u64
    requires { power ≤ 9 }
    ensures { result ≡ 10 ^ power }
{
    match power {
        0 => 1,
        1 => 10,
        2 => 100,
        3 => 1_000,
        4 => 10_000,
        5 => 100_000,
        6 => 1_000_000,
        7 => 10_000_000,
        8 => 100_000_000,
        _ => 1_000_000_000,
    }
}

/// Whether a word of a line is a time: it begins with '@'.
pub fn is_time(word: &[u8]) -> bool
    ensures { result ≡ log.is_time word.now }
{
    matches!(word, [b'@', ..])
}

/// The number of a fraction's digits in the last of nine places.
fn scaled(places: usize, number: Result<u32, Cause>) -> Option<u64>
    requires { places ≤ 9 }
    ensures { result ≡ log.scaled places number }
{
    match number {
        Ok(number) => Some(u64::from(number) * power_of_ten(places)),
        Err(_) => None,
    }
}

/// A fraction of a second, in nanoseconds, by its 1 to 9 digits.
fn fraction_of(digits: &[u8]) -> Option<u64>
    ensures value { result ≡ log.fraction_of digits.now }
    ensures bound { IfSome result (λ n. n < 2 ^ 62) }
{
    if digits.len() > 9 {
        return None;
    }
    scaled(9 - digits.len(), wide(digits))
}

/// Whole seconds and a fraction, in nanoseconds.
fn seconds_of(seconds: Result<u32, Cause>, fraction: Option<u64>) -> Option<u64>
    requires { IfSome fraction (λ n. n < 2 ^ 62) }
    ensures { result ≡ log.seconds_of seconds fraction }
{
    match (seconds, fraction) {
        (Ok(seconds), Some(fraction)) => Some(u64::from(seconds) * 1_000_000_000 + fraction),
        _ => None,
    }
}

/// Where a point stands in digits, if one does.
fn point_in(digits: &[u8]) -> Option<usize>
    ensures place { result ≡ position log.is_point digits.now }
    ensures bound { IfSome result (λ i. i < length digits.now) }
{
    digits.iter().position(|byte| *byte == b'.')
}

/// The time in nanoseconds that digits tell: of seconds, and of a fraction behind a point, of at most nine digits.
pub fn time_of(digits: &[u8]) -> Option<u64>
    ensures { result ≡ log.time_of digits.now }
{
    match point_in(digits) {
        Some(place) => seconds_of(wide(&digits[..place]), fraction_of(&digits[place + 1..])),
        None => seconds_of(wide(digits), Some(0)),
    }
}

/// The packet whose digits are the one word that is left.
#[tactic(auto, unfolding(crate::specs::Log::packet))]
fn packet(words: Words<'_>) -> Result<ArrayVec<u8, 64>, Cause>
    ensures { result ≡ log.packet (lexical.words words.entry.rest.now) }
{
    let bytes = bytes_in(words.one()?);
    if bytes.is_empty() {
        return Err(Cause::Hex);
    }
    Ok(bytes)
}

/// Whether what the controller sends is an attention message.
fn is_attention(b: &[u8]) -> bool
    ensures { result ≡ log.is_attention b.now }
{
    b.len() > 8 && b[8] == endcodes::AVAILABLE_ATTENTION
}

/// What the controller sends: an attention message, or an end.
fn sends(connection: Connection, message: ArrayVec<u8, 64>) -> Said
    ensures { result ≡ log.sends connection message }
{
    if is_attention(message.as_slice()) {
        Said::Attention(connection, message)
    } else {
        Said::Happens(Moment::End(connection, message))
    }
}

/// The message of a packet with its envelope, whose digits are the one word that is left, if it is the disk's.
#[tactic(auto, unfolding(crate::specs::Log::whole_packet))]
fn whole_packet(words: Words<'_>) -> Result<Option<ArrayVec<u8, 64>>, Cause>
    ensures { result ≡ log.whole_packet (lexical.words words.entry.rest.now) }
{
    enveloped(words.one()?)
}

/// What a host sends by a packet: nothing, if that isn't the disk's.
fn sent_whole(time: Option<u64>, connection: Connection, message: Option<ArrayVec<u8, 64>>) -> Said
    ensures { result ≡ log.sent_whole time connection message }
{
    match message {
        Some(message) => Said::Happens(Moment::Message(connection, message, time)),
        None => Said::Nothing,
    }
}

/// And the controller.
fn sends_whole(connection: Connection, message: Option<ArrayVec<u8, 64>>) -> Said
    ensures { result ≡ log.sends_whole connection message }
{
    match message {
        Some(message) => sends(connection, message),
        None => Said::Nothing,
    }
}

/// A message or an end of a connection at this time, or that it closes, by the first word and those behind it.
#[tactic(auto, unfolding(crate::specs::Log::happens_on))]
fn happens(
    time: Option<u64>,
    connection: Connection,
    word: &[u8],
    fields: Words<'_>,
) -> Result<Said, Cause>
    ensures { result ≡ log.happens_on time connection (word.now ∷ lexical.words fields.entry.rest.now) }
{
    if word == b"send".as_slice() {
        let message = packet(fields)?;
        Ok(Said::Happens(Moment::Message(connection, message, time)))
    } else if word == b"end".as_slice() {
        Ok(sends(connection, packet(fields)?))
    } else if word == b"from".as_slice() {
        Ok(sent_whole(time, connection, whole_packet(fields)?))
    } else if word == b"to".as_slice() {
        Ok(sends_whole(connection, whole_packet(fields)?))
    } else if word == b"reset".as_slice() {
        fields.none()?;
        Ok(Said::Happens(Moment::Closed(connection)))
    } else {
        Err(Cause::Word)
    }
}

/// The same by the words that are left.
#[tactic(auto, unfolding(crate::specs::Log::happens_on))]
fn happens_on(
    time: Option<u64>,
    connection: Connection,
    mut words: Words<'_>,
) -> Result<Said, Cause>
    ensures { result ≡ log.happens_on time connection (lexical.words words.entry.rest.now) }
{
    let word = words.next_field()?;
    happens(time, connection, word, words)
}

/// The one number that is left.
fn only_number(words: Words<'_>) -> Result<u32, Cause>
    ensures { result ≡ only_number (lexical.words words.entry.rest.now) }
{
    wide(words.one()?)
}

/// What the words of a line say, behind its time: the first one, and those behind it.
#[tactic(auto, unfolding(crate::specs::Log::said_by))]
fn said_by(time: Option<u64>, word: &[u8], fields: Words<'_>) -> Result<Said, Cause>
    ensures { result ≡ log.said_by time (word.now ∷ lexical.words fields.entry.rest.now) }
{
    if word == b"second".as_slice() {
        happens_on(time, Connection::Second, fields)
    } else if word == b"reset".as_slice() {
        fields.none()?;
        Ok(Said::Happens(Moment::Reset))
    } else if word == b"credits".as_slice() {
        Ok(Said::Credits(only_number(fields)?))
    } else if word == b"begun".as_slice() {
        fields.none()?;
        Ok(Said::Begun)
    } else {
        happens(time, Connection::First, word, fields)
    }
}

/// What the words behind a time say.
#[tactic(auto, unfolding(crate::specs::Log::said_by))]
fn said_at(time: Option<u64>, mut words: Words<'_>) -> Result<Said, Cause>
    ensures { result ≡ log.said_by time (lexical.words words.entry.rest.now) }
{
    match words.next_word() {
        Some(word) => said_by(time, word, words),
        None => Ok(Said::Nothing),
    }
}

/// What the words of a line say: its time may stand first. Each word is cut off once.
#[tactic(auto, unfolding(crate::specs::Log::said_by, crate::specs::Log::time_in, crate::specs::Log::without_time))]
fn said_in(mut words: Words<'_>) -> Result<Said, Cause>
    ensures { result ≡ log.said_by (log.time_in (lexical.words words.entry.rest.now))
        (log.without_time (lexical.words words.entry.rest.now)) }
{
    match words.next_word() {
        Some(word) if is_time(word) => said_at(time_of(&word[1..]), words),
        Some(word) => said_by(None, word, words),
        None => Ok(Said::Nothing),
    }
}

/// What the line of this number says.
///
/// # Errors
///
/// What is wrong with the line: the first cause in the order of `Cause`.
#[inline(never)]
#[tactic(auto, unfolding(crate::specs::Log::line_says))]
pub fn line_says(number: u32, line: &[u8]) -> Result<Said, ScriptFault>
    requires { 1 ≤ number }
    ensures { result ≡ in_line number (log.line_says number line.now) }
{
    let words = words_of(number, line)?;
    match said_in(words) {
        Ok(said) => Ok(said),
        Err(cause) => Err(ScriptFault {
            line: number,
            cause,
        }),
    }
}

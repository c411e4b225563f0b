// When something happened: the time that a line of a log tells, and how it is written.

ghost use Rattle.std.specs.Prelude.{◌≡◌, ◌≤◌, ◌++◌, OnOk};
ghost use Rattle.mscp_reader.specs.Lexical as lexical;
ghost use Rattle.mscp_wire.specs.Log as log;
ghost use Rattle.mscpjudge.specs.Times as times;

use mscp_reader::{Words, words_of};
use mscp_text::{put, put_field};
use mscp_wire::{is_time, time_of};
use std::alloc::{AllocError, Allocator};

/// The time that words tell, if the first is one.
#[tactic(auto, unfolding(mscp_wire::specs::Log::time_in))]
fn time_in(mut words: Words<'_>) -> Option<u64>
    ensures { result ≡ log.time_in (lexical.words words.entry.rest.now) }
{
    match words.next_word() {
        Some(word) if is_time(word) => time_of(&word[1..]),
        _ => None,
    }
}

/// The time that the line of this number tells, if it tells one.
#[tactic(auto, unfolding(crate::specs::Times::line_time))]
pub(crate) fn line_time(number: u32, line: &[u8]) -> Option<u64>
    requires { 1 ≤ number }
    ensures { result ≡ times.line_time number line.now }
{
    match words_of(number, line) {
        Ok(words) => time_in(words),
        Err(_) => None,
    }
}

/// A digit of a number: how many times it has this power of ten.
fn digit(number: u32, unit: u32) -> u8
    requires { 1 ≤ unit }
    ensures { result ≡ times.digit number unit }
{
    b'0' + (number / unit % 10) as u8
}

/// The nine digits of nanoseconds under a second.
fn nine_digits(number: u32) -> [u8; 9]
    ensures { result ≡ times.nine_digits number }
{
    [
        digit(number, 100_000_000),
        digit(number, 10_000_000),
        digit(number, 1_000_000),
        digit(number, 100_000),
        digit(number, 10_000),
        digit(number, 1_000),
        digit(number, 100),
        digit(number, 10),
        digit(number, 1),
    ]
}

/// How many of them are needed.
fn needed(number: u32) -> usize
    ensures count { result ≡ times.needed number }
    ensures bound { result ≤ 9 }
{
    if number % 100_000_000 == 0 {
        1
    } else if number % 10_000_000 == 0 {
        2
    } else if number % 1_000_000 == 0 {
        3
    } else if number % 100_000 == 0 {
        4
    } else if number % 10_000 == 0 {
        5
    } else if number % 1_000 == 0 {
        6
    } else if number % 100 == 0 {
        7
    } else if number % 10 == 0 {
        8
    } else {
        9
    }
}

/// Appends nanoseconds, in seconds.
#[tactic(auto, unfolding(crate::specs::Times::seconds_text))]
pub(crate) fn put_seconds<A: Allocator>(text: &mut Vec<u8, A>, time: u64) -> Result<(), AllocError>
    ensures { OnOk result (text.new.items ≡ text.old.items ++ times.seconds_text time) }
{
    let fraction = (time % 1_000_000_000) as u32;
    let digits = nine_digits(fraction);
    put_field(text, "", time / 1_000_000_000)?;
    put(text, ".")?;
    text.extend_from_slice(&digits[..needed(fraction)])
}

/// Appends a time behind what it belongs to, if there is one.
pub(crate) fn put_at<A: Allocator>(
    text: &mut Vec<u8, A>,
    time: Option<u64>,
) -> Result<(), AllocError>
    ensures { OnOk result (text.new.items ≡ text.old.items ++ times.at_text time) }
{
    match time {
        Some(time) => {
            put(text, " at ")?;
            put_seconds(text, time)
        }
        None => Ok(()),
    }
}

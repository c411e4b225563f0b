// The lines of a script.

ghost use Rattle.std.specs.Prelude.{◌≡◌, ◌+◌, ◌<◌, ◌≤◌, ◌∷◌, [], length, IfSome, IfNone, IfOk, IfErr, drop, MatchOption, Some, Ok, Err, option_map};
ghost use Rattle.mscp_reader.specs.Common.{list_all, strip_carriage_return, Gives, events_of, Place, IsInHeader, said_at, asked_next, headed_on, in_line, rest_headed, MOST_EVENTS, MOST_BYTES};
ghost use Rattle.mscp_reader.specs.Lexical as lexical;

use crate::events::{MOST_EVENTS, MOST_STEPS, request_after};
use crate::fault::{Cause, ScriptFault};
use crate::pieces::feed_in;
use crate::plain::read_plain;
use crate::request::Request;
use crate::script::MOST_BYTES;
use crate::words::Words;

/// The most lines that a script has.
pub const MOST_LINES: u32 = 1_000_000;

/// The most bytes that a line has.
pub const LONGEST_LINE: usize = 200;

/// A line: its number, and its words.
#[derive(Clone, Copy)]
pub struct Line<'a> {
    pub number: u32,
    pub words: Words<'a>,
    pub ghost counted: { 1 ≤ number },
}

/// The lines of a script that are left, and how many were cut off.
#[derive(Drop)]
pub struct Lines<'a> {
    pub rest: &'a [u8],
    pub number: u32,
    pub ghost countable: { number + length rest.now ≤ MOST_BYTES },
}

impl<'a> Lines<'a> {
    /// The lines of a script.
    pub fn new(script: &'a [u8]) -> Self
        requires { length script.now ≤ MOST_BYTES }
        ensures { (result.number ≡ 0) × (result.rest.now ≡ script.now) }
    {
        Lines {
            rest: script,
            number: 0,
        }
    }

    /// The next line that has a word, which the header still needs. Comments and lines without a word are skipped.
    pub(crate) fn header_line(&mut self) -> Result<Line<'a>, ScriptFault>
        ensures shorter { IfOk result (λ _. length self.new.rest.now < length self.old.rest.now) }
        ensures fault { IfErr result (λ fault. 1 ≤ fault.line) }
        ensures number { IfOk result (λ line. line.number ≡ self.new.number) }
        ensures some { IfOk result (λ line. (p : Place) → IsInHeader p
            → rest_headed self.old.number p self.old.rest.now
            ≡ headed_on self.new.number p (lexical.words line.words.rest.now) (lexical.lines self.new.rest.now)) }
        ensures wrong { IfErr result (λ fault. (p : Place) → IsInHeader p
            → rest_headed self.old.number p self.old.rest.now ≡ Err fault) }
    {
        while let Some(bytes) = self.cut() {
            let words = words_of(self.number, bytes)?;
            if !words.is_empty() {
                return Ok(Line {
                    number: self.number,
                    words,
                });
            }
        }
        Err(ScriptFault {
            line: self.number + 1,
            cause: Cause::Header,
        })
    }

    /// What the next line asks for, if one is left, where so many events came before.
    ///
    /// # Errors
    ///
    /// What is wrong with that line: the first cause in the order of `Cause`.
    #[inline(always)]
    pub fn next_request(&mut self, count: usize) -> Result<Option<Request<'a>>, ScriptFault>
        requires { count ≤ MOST_EVENTS }
        ensures asks { Gives (option_map events_of) result (asked_next self.old.number count (lexical.lines
            self.old.rest.now)) }
        ensures few { IfOk result (λ found. IfSome found (λ request. count + length (events_of request)
            ≤ MOST_EVENTS)) }
        ensures fault { IfErr result (λ fault. 1 ≤ fault.line) }
        // That line is cut off.
        ensures rest { lexical.lines self.new.rest.now ≡ drop 1 (lexical.lines self.old.rest.now) }
        ensures number { IfOk result (λ found. IfSome found (λ _. self.new.number ≡ self.old.number + 1)) }
        ensures shorter { IfOk result (λ found. IfSome found (λ _. length self.new.rest.now
            < length self.old.rest.now)) }
    {
        match self.plain_request(count) {
            Some(request) => Ok(Some(request)),
            // A request that was written to memory is moved here, so that a plain one isn't.
            None => match self.worded_request(count) {
                Ok(Some(request)) => Ok(Some(request)),
                Ok(None) => Ok(None),
                Err(fault) => Err(fault),
            },
        }
    }

    /// The same, word by word. Few lines are read so: it isn't made part of the loops over all lines.
    #[inline(never)]
    fn worded_request(&mut self, count: usize) -> Result<Option<Request<'a>>, ScriptFault>
        requires { count ≤ MOST_EVENTS }
        ensures asks { Gives (option_map events_of) result (asked_next self.old.number count (lexical.lines
            self.old.rest.now)) }
        ensures few { IfOk result (λ found. IfSome found (λ request. count + length (events_of request)
            ≤ MOST_EVENTS)) }
        ensures fault { IfErr result (λ fault. 1 ≤ fault.line) }
        ensures rest { lexical.lines self.new.rest.now ≡ drop 1 (lexical.lines self.old.rest.now) }
        ensures number { IfOk result (λ found. IfSome found (λ _. self.new.number ≡ self.old.number + 1)) }
        ensures shorter { IfOk result (λ found. IfSome found (λ _. length self.new.rest.now
            < length self.old.rest.now)) }
    {
        let Some(bytes) = self.cut() else {
            return Ok(None);
        };
        let words = words_of(self.number, bytes)?;
        let line = Line {
            number: self.number,
            words,
        };
        match request_after(line, count) {
            Ok(request) => Ok(Some(request)),
            Err(fault) => Err(fault),
        }
    }

    /// The same of a line that is found to be plain, while there is room for the events of any. Any other line stays.
    #[inline(always)]
    fn plain_request(&mut self, count: usize) -> Option<Request<'a>>
        requires { count ≤ MOST_EVENTS }
        ensures asks { IfSome result (λ request. asked_next self.old.number count (lexical.lines self.old.rest.now)
            ≡ Ok (Some (events_of request))) }
        ensures few { IfSome result (λ request. count + length (events_of request) ≤ MOST_EVENTS) }
        ensures rest { IfSome result (λ _. lexical.lines self.new.rest.now
            ≡ drop 1 (lexical.lines self.old.rest.now)) }
        ensures number { IfSome result (λ _. self.new.number ≡ self.old.number + 1) }
        ensures shorter { IfSome result (λ _. length self.new.rest.now < length self.old.rest.now) }
        ensures none { IfNone result ((self.new.number ≡ self.old.number) × (self.new.rest.now ≡ self.old.rest.now)) }
    {
        // Its events are few enough then, whatever it asks for.
        if count > MOST_EVENTS - MOST_STEPS as usize {
            return None;
        }
        let Some((request, behind)) = read_plain(self.rest) else {
            return None;
        };
        let length = self.rest.len() - behind.len() - 1;
        if length > LONGEST_LINE || self.number >= MOST_LINES {
            return None;
        }
        *self = Lines {
            rest: behind,
            number: self.number + 1,
        };
        Some(request)
    }

    /// Cuts off the next line: up to a line feed or the end, without a carriage return there.
    #[tactic(auto, using(crate::proofs::Cuts::line_ahead, crate::proofs::Cuts::lines_none))]
    pub fn cut(&mut self) -> Option<&'a [u8]>
        ensures shorter { IfSome result (λ _. length self.new.rest.now < length self.old.rest.now) }
        ensures counted { MatchOption result (self.new.number ≡ self.old.number) (λ _. self.new.number
            ≡ self.old.number + 1) }
        ensures line { MatchOption result (lexical.lines self.old.rest.now ≡ []) (λ line. lexical.lines
            self.old.rest.now ≡ line.now ∷ lexical.lines self.new.rest.now) }
        ensures none { IfNone result (self.new.rest.now ≡ self.old.rest.now) }
    {
        if self.rest.is_empty() {
            return None;
        }
        let end = feed_in(self.rest).unwrap_or(self.rest.len());
        let (line, rest) = self.rest.split_at(end);
        self.rest = without_first(rest);
        self.number += 1;
        Some(without_return(line))
    }
}

/// All but the first byte, if there is one.
fn without_first(bytes: &[u8]) -> &[u8]
    ensures { result.now ≡ drop 1 bytes.now }
{
    match bytes {
        [_first, rest @ ..] => rest,
        [] => bytes,
    }
}

/// A line without a carriage return at its end.
fn without_return(line: &[u8]) -> &[u8]
    ensures { result.now ≡ strip_carriage_return line.now }
{
    match line {
        [front @ .., b'\r'] => front,
        _ => line,
    }
}

/// The words of a line of this number, with that number in its fault.
///
/// # Errors
///
/// `Lines`, `Long` or `Byte`, the first that holds in this order.
pub fn words_of(number: u32, line: &[u8]) -> Result<Words<'_>, ScriptFault>
    requires { 1 ≤ number }
    ensures line { IfErr result (λ fault. 1 ≤ fault.line) }
    ensures words { Gives (λ words. lexical.words words.rest.now) result (in_line number (said_at number line.now)) }
{
    ScriptFault::at(number, said_in(number, line))
}

/// The words of a line of this number. Too many lines, too long a line and a wrong byte come before any word; a
/// comment has no word and no wrong byte.
fn said_in(number: u32, line: &[u8]) -> Result<Words<'_>, Cause>
    requires { 1 ≤ number }
    ensures { Gives (λ words. lexical.words words.rest.now) result (said_at number line.now) }
{
    if number > MOST_LINES {
        return Err(Cause::Lines);
    }
    said(line)
}

/// What a line says.
#[tactic(auto, using(crate::proofs::Cuts::words_none), unfolding(crate::specs::Lexical::said))]
fn said(line: &[u8]) -> Result<Words<'_>, Cause>
    ensures { Gives (λ words. lexical.words words.rest.now) result (lexical.said line.now) }
{
    if line.len() > LONGEST_LINE {
        return Err(Cause::Long);
    }
    if is_comment(line) {
        return Ok(Words::new(b""));
    }
    if !is_printed(line) {
        return Err(Cause::Byte);
    }
    Ok(Words::new(line))
}

/// Whether a line is a comment.
fn is_comment(line: &[u8]) -> bool
    ensures { result ≡ lexical.is_comment line.now }
{
    matches!(line, [b'#', ..])
}

/// Whether a line has spaces and printed ASCII characters alone.
fn is_printed(line: &[u8]) -> bool
    ensures { result ≡ list_all lexical.is_printed line.now }
{
    let mut all = true;
    // Each byte is looked at, since several at once are quicker than one after the other.
    for byte in line {
        all &= b' ' <= *byte && *byte <= b'~';
    }
    all
}

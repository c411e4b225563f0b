// How long commands take in a log that is right, by the times that its lines tell. A log without times isn't gone over.

ghost use Rattle.std.specs.Prelude.{◌≡◌, ◌≤◌, ◌<◌, ◌+◌, ◌++◌, length, OnOk, IfOk};
ghost use Rattle.std.specs.List.{list_any};
ghost use Rattle.mscp_reader.specs.Lexical as lexical;
ghost use Rattle.mscp_reader.specs.Common.{in_line};
ghost use Rattle.std.specs.Prelude.{Result};
ghost use Rattle.mscp_wire.specs.declared.line.Said.{Said};
ghost use Rattle.mscp_reader.specs.declared.fault.Cause.{Cause};
ghost use Rattle.mscp_wire.specs.Wire.{is_hasty, key, later_of};
ghost use Rattle.mscpjudge.specs.Numbers.{number_by};
ghost use Rattle.mscpjudge.specs.Timing as timings;

use crate::spans::put_spans;
use crate::time::line_time;
use mscp_controller::Connection;
use mscp_packet::fields::four_at;
use mscp_packet::opcodes;
use mscp_reader::{Lines, ScriptFault, lines_of};
use mscp_wire::{Answer, Moment, Said, Sent, is_hasty, key, line_says};
use std::alloc::{AllocError, Allocator, Global};
use std::collections::BTreeMap;

/// A command that has no end yet, and the line that sent it.
#[derive(Clone, Copy)]
pub struct Waiting {
    pub line: u32,
    /// When it was sent, and when it was last polled, is told in it.
    pub command: Sent,
}

/// The time from a command's message to its end, in nanoseconds, and the lines of both.
#[derive(Clone, Copy)]
pub struct Span {
    pub time: u64,
    pub first: u32,
    pub last: u32,
    pub command: Sent,
}

/// What the lines so far tell.
#[derive(Drop)]
pub struct Timing {
    pub waiting: BTreeMap<u64, Waiting>,
    pub timeout: Option<u16>,
    pub longest: Option<Span>,
    pub poll: Option<Span>,
    pub hasty: u32,
}

/// Whether a log tells a time: each begins with '@'. The loop is quicker where it isn't made part of another function.
#[inline(never)]
fn has_times(log: &[u8]) -> bool
    ensures { result ≡ list_any timings.is_at log.now }
{
    log.iter().any(|byte| *byte == b'@')
}

/// Whether a poll of this time comes so soon after the last one of a command that waits.
fn is_soon(timeout: Option<u16>, polled: &Option<Waiting>, time: Option<u64>) -> bool
    ensures { result ≡ timings.is_soon timeout polled.now time }
{
    match polled {
        Some(polled) => is_hasty(timeout, polled.command.polled, time),
        None => false,
    }
}

/// One more, if a poll is so soon.
fn counted(soon: bool, count: u32) -> u32
    requires { count < 4294967295 }
    ensures count { result ≡ timings.counted soon count }
    ensures bound { result ≤ count + 1 }
{
    if soon { count + 1 } else { count }
}

/// The reference number that a poll names, if a command is one.
fn polled_in(command: &Sent) -> Option<u32>
    ensures { result ≡ timings.polled_in command.now }
{
    if command.opcode == opcodes::GET_COMMAND_STATUS {
        command.parameter
    } else {
        None
    }
}

/// The time from when a command was sent to this, if both are told.
fn span_of(number: u32, waiting: &Option<Waiting>, time: Option<u64>) -> Option<Span>
    ensures { result ≡ timings.span_of number waiting.now time }
{
    let waiting = (*waiting)?;
    match (waiting.command.time, time) {
        (Some(sent), Some(ended)) => Some(Span {
            time: ended.saturating_sub(sent),
            first: waiting.line,
            last: number,
            command: waiting.command,
        }),
        _ => None,
    }
}

/// The longer of two.
fn longer(old: Option<Span>, new: Option<Span>) -> Option<Span>
    ensures { result ≡ timings.longer old new }
{
    match (old, new) {
        (Some(old), Some(new)) if old.time < new.time => Some(new),
        (Some(old), _) => Some(old),
        (None, new) => new,
    }
}

/// If it is of a poll.
fn of_poll(span: Option<Span>) -> Option<Span>
    ensures { result ≡ timings.of_poll span }
{
    match span {
        Some(span) if span.command.opcode == opcodes::GET_COMMAND_STATUS => Some(span),
        _ => None,
    }
}

/// The later of two controller timeouts that were told.
fn later(new: Option<u16>, old: Option<u16>) -> Option<u16>
    ensures { result ≡ later_of new old }
{
    match new {
        Some(timeout) => Some(timeout),
        None => old,
    }
}

/// The command of this name, if it waits.
fn waiting_at(
    waiting: &BTreeMap<u64, Waiting>,
    connection: Connection,
    reference: u32,
) -> Option<Waiting>
    ensures { result ≡ timings.waiting_by waiting.now connection reference }
{
    match waiting.get(&key(connection, reference)) {
        Some(waiting) => Some(*waiting),
        None => None,
    }
}

/// The same of the number that a poll names.
fn about(
    waiting: &BTreeMap<u64, Waiting>,
    connection: Connection,
    reference: Option<u32>,
) -> Option<Waiting>
    ensures { result ≡ timings.about (timings.waiting_by waiting.now) connection reference }
{
    waiting_at(waiting, connection, reference?)
}

/// The command of this name waits.
fn wait(
    waiting: &mut BTreeMap<u64, Waiting>,
    connection: Connection,
    reference: u32,
    sending: Waiting,
) -> Result<(), AllocError>
    ensures { OnOk result (timings.waiting_by waiting.new
        ≡ timings.with_waiting (timings.waiting_by waiting.old) connection reference (Some sending)) }
{
    waiting.insert(key(connection, reference), sending)?;
    Ok(())
}

/// It waits no more.
fn end(waiting: &mut BTreeMap<u64, Waiting>, connection: Connection, reference: u32)
    ensures { timings.waiting_by waiting.new
        ≡ timings.with_waiting (timings.waiting_by waiting.old) connection reference None }
{
    waiting.remove(&key(connection, reference));
}

/// It is polled at this time, if it waits.
fn poll(
    waiting: &mut BTreeMap<u64, Waiting>,
    connection: Connection,
    reference: u32,
    time: Option<u64>,
) -> Result<(), AllocError>
    ensures { OnOk result (timings.waiting_by waiting.new
        ≡ timings.with_waiting (timings.waiting_by waiting.old) connection reference
        (timings.polled_at time (timings.waiting_by waiting.old connection reference))) }
{
    match waiting_at(waiting, connection, reference) {
        Some(polled) => {
            let command = Sent {
                polled: time,
                ..polled.command
            };
            let polled = Waiting { command, ..polled };
            wait(waiting, connection, reference, polled)
        }
        None => Ok(()),
    }
}

/// The command that this one polls is polled, if it is a poll.
fn poll_by(waiting: &mut BTreeMap<u64, Waiting>, command: &Sent) -> Result<(), AllocError>
    ensures { OnOk result (timings.waiting_by waiting.new ≡ timings.after_poll (timings.waiting_by waiting.old)
        command.now (timings.polled_in command.now)) }
{
    match polled_in(command) {
        Some(reference) => poll(waiting, command.connection, reference, command.time),
        None => Ok(()),
    }
}

impl Timing {
    /// Of no line.
    fn none(alloc: Global) -> Timing
        ensures timed { timings.IsTimed timings.nothing_timed result }
        ensures hasty { result.hasty ≡ 0 }
    {
        Timing {
            waiting: BTreeMap::new(alloc),
            timeout: None,
            longest: None,
            poll: None,
            hasty: 0,
        }
    }

    /// The line of this number sends a command.
    fn hear_sent(&mut self, number: u32, command: Sent) -> Result<(), AllocError>
        requires { self.old.hasty < number }
        ensures timed { OnOk result ((t : timings.Timed) → timings.IsTimed t self.old
            → timings.IsTimed (timings.after_sent number t command) self.new) }
        ensures hasty { self.new.hasty ≤ number }
    {
        let polled = about(&self.waiting, command.connection, polled_in(&command));
        let soon = is_soon(self.timeout, &polled, command.time);
        self.hasty = counted(soon, self.hasty);
        poll_by(&mut self.waiting, &command)?;
        let sending = Waiting {
            line: number,
            command,
        };
        wait(
            &mut self.waiting,
            command.connection,
            command.reference,
            sending,
        )
    }

    /// The line of this number and this time tells an end.
    fn hear_ended(&mut self, number: u32, time: Option<u64>, connection: Connection, bytes: &[u8])
        requires { 12 ≤ length bytes.now }
        ensures timed { (t : timings.Timed) → timings.IsTimed t self.old
            → timings.IsTimed (timings.after_ended number time t connection bytes.now) self.new }
        ensures hasty { self.new.hasty ≡ self.old.hasty }
    {
        let reference = four_at(bytes, 0);
        let waiting = waiting_at(&self.waiting, connection, reference);
        let span = span_of(number, &waiting, time);
        self.longest = longer(self.longest, span);
        self.poll = longer(self.poll, of_poll(span));
        self.timeout = later(Answer::of(connection, bytes).timeout, self.timeout);
        end(&mut self.waiting, connection, reference);
    }

    /// The controller is initialised.
    fn reset(&mut self, alloc: Global)
        ensures timed { (t : timings.Timed) → timings.IsTimed t self.old
            → timings.IsTimed (record t { waiting = timings.nobody; timeout = None }) self.new }
        ensures hasty { self.new.hasty ≡ self.old.hasty }
    {
        self.waiting = BTreeMap::new(alloc);
        self.timeout = None;
    }

    /// The line of this number and this time tells a moment.
    fn hear(
        &mut self,
        alloc: Global,
        number: u32,
        time: Option<u64>,
        moment: &Moment,
    ) -> Result<(), AllocError>
        requires { self.old.hasty < number }
        ensures timed { OnOk result ((t : timings.Timed) → timings.IsTimed t self.old
            → timings.IsTimed (timings.after_moment number time t moment.now) self.new) }
        ensures hasty { self.new.hasty ≤ number }
    {
        match moment {
            Moment::Message(connection, message, sent) if message.len() >= 12 => {
                let command = Sent {
                    time: *sent,
                    ..Sent::of(*connection, message.as_slice())
                };
                return self.hear_sent(number, command);
            }
            Moment::End(connection, message) if message.len() >= 12 => {
                self.hear_ended(number, time, *connection, message.as_slice());
            }
            Moment::Reset => self.reset(alloc),
            Moment::Message(..) | Moment::End(..) | Moment::Closed(_) => {}
        }
        Ok(())
    }
}

/// The same of what a line says, if it tells a moment.
fn hear_said(
    timing: &mut Timing,
    alloc: Global,
    number: u32,
    time: Option<u64>,
    said: &Result<Said, ScriptFault>,
) -> Result<(), AllocError>
    requires { timing.old.hasty < number }
    ensures timed { OnOk result ((t : timings.Timed) (read : Result Said Cause) → timings.IsTimed t timing.old
        → said.now ≡ in_line number read → timings.IsTimed (timings.after_said number time t read) timing.new) }
    ensures hasty { timing.new.hasty ≤ number }
{
    match said {
        Ok(Said::Happens(moment)) => timing.hear(alloc, number, time, moment),
        _ => Ok(()),
    }
}

/// What the lines of a log tell.
fn timing_of(alloc: Global, lines: &mut Lines<'_>) -> Result<Timing, AllocError>
    requires { lines.old.number ≡ 0 }
    ensures { IfOk result (λ timing. timings.IsTimed
        (timings.after_lines 0 timings.nothing_timed (lexical.lines lines.old.rest.now)) timing) }
{
    let mut timing = Timing::none(alloc);
    while let Some(line) = lines.cut() {
        let time = line_time(lines.number, line);
        let said = line_says(lines.number, line);
        hear_said(&mut timing, alloc, lines.number, time, &said)?;
    }
    Ok(timing)
}

/// Appends the lines of the times of a log that isn't too large.
fn put_timed(
    alloc: Global,
    text: &mut Vec<u8>,
    log: &[u8],
    numbers: &[u32],
) -> Result<(), AllocError>
    ensures { OnOk result (text.new.items ≡ text.old.items ++ timings.lines_timed (number_by numbers.now) log.now) }
{
    match lines_of(log) {
        Ok(mut lines) => {
            let timing = timing_of(alloc, &mut lines)?;
            put_spans(text, &timing.longest, &timing.poll, timing.hasty, numbers)
        }
        Err(_) => Ok(()),
    }
}

/// The same, if it tells some.
#[tactic(auto, unfolding(crate::specs::Timing::timing_text))]
pub(crate) fn put_timing(
    alloc: Global,
    text: &mut Vec<u8>,
    log: &[u8],
    numbers: &[u32],
) -> Result<(), AllocError>
    ensures { OnOk result (text.new.items ≡ text.old.items ++ timings.timing_text (number_by numbers.now) log.now) }
{
    if has_times(log) {
        put_timed(alloc, text, log, numbers)
    } else {
        Ok(())
    }
}

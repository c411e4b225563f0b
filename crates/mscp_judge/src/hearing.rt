// What the hosts of a log would have heard, line by line.

ghost use Rattle.std.specs.Prelude.{◌≡◌, ◌≤◌, ◌<◌, ◌+◌, OnOk, Some, length};
ghost use Rattle.mscp_judge.specs.Common.{events_of, MOST_EVENTS, Gives, Heard, IsHeard, after_answer, after_lines, end_bytes, heard_log, hears, host_at, hosts_after_all, sends_on, silence, told, with_host};
ghost use Rattle.mscp_reader.specs.Lexical as lexical;
ghost use Rattle.mscp_judge.specs.Heard.{Hears, asking};

use crate::answers::{is, is_answer};
use crate::hosts::{hear, host_of, is_reset, put_line, send_message};
use crate::told::end_bytes;
use mscp_controller::{Config, Connection, OutOfMemory};
use mscp_host::{Host, HostFault, News};
use mscp_packet::write_command;
use mscp_reader::{
    Line, Lines, ReadFault, Request, Words, bytes_in, lines_of, read_header, request_after,
    words_of,
};
use std::alloc::Allocator;

/// What the hosts of a log would have heard.
#[derive(Drop)]
pub struct Hearing<A: Allocator> {
    first: Option<Host>,
    second: Option<Host>,
    // How many events were asked for.
    count: usize,
    /// How many ends were told.
    pub ends: u32,
    /// For how many of them a host would have reset the controller.
    pub resets: u32,
    /// A line for each.
    pub text: Vec<u8, A>,
}

impl<A: Allocator> Hearing<A> {
    /// Of no line.
    fn new(alloc: A, config: &Config) -> Hearing<A>
        ensures heard { IsHeard (silence config.now) result }
        ensures ends { result.ends ≡ 0 }
        ensures resets { result.resets ≡ 0 }
        ensures count { result.count ≡ 0 }
    {
        Hearing {
            first: host_of(config.credits()),
            second: host_of(config.second()),
            count: 0,
            ends: 0,
            resets: 0,
            text: Vec::new(alloc),
        }
    }

    /// The host of a connection sends a message.
    fn send(&mut self, connection: Connection, message: &[u8])
        ensures heard { (h : Heard) → IsHeard h self.old
            → IsHeard (record h { hosts = sends_on h.hosts connection message.now }) self.new }
        ensures count { self.new.count ≡ self.old.count }
        ensures ends { self.new.ends ≡ self.old.ends }
        ensures resets { self.new.resets ≡ self.old.resets }
    {
        match connection {
            Connection::First => send_message(&mut self.first, message),
            Connection::Second => send_message(&mut self.second, message),
        }
    }

    /// The hosts send what a line asks for.
    fn send_all(&mut self, request: &Request<'_>)
        ensures heard { (h : Heard) → IsHeard h self.old
            → IsHeard (record h { hosts = hosts_after_all h.hosts (events_of request.now) }) self.new }
        ensures count { self.new.count ≡ self.old.count }
        ensures ends { self.new.ends ≡ self.old.ends }
        ensures resets { self.new.resets ≡ self.old.resets }
    {
        match request {
            Request::Send(connection, valid) => {
                self.send(*connection, write_command(&valid.command).as_slice());
            }
            Request::Packet(connection, digits) => {
                self.send(*connection, bytes_in(digits).as_slice());
            }
            Request::Steps(..) => {}
            Request::Take(_) | Request::Look => {}
        }
    }

    /// A line asks for events.
    fn ask(&mut self, request: &Request<'_>)
        requires { self.old.count + length (events_of request.now) ≤ MOST_EVENTS }
        ensures heard { (h : Heard) → IsHeard h self.old → IsHeard (asking h (events_of request.now)) self.new }
        ensures count { self.new.count ≡ self.old.count + length (events_of request.now) }
        ensures ends { self.new.ends ≡ self.old.ends }
        ensures resets { self.new.resets ≡ self.old.resets }
    {
        self.send_all(request);
        self.count += request.event_count();
    }

    /// What the host of a connection says of bytes that it receives.
    fn receive(&mut self, connection: Connection, bytes: &[u8]) -> Result<News, HostFault>
        ensures said { result ≡ (hears (host_at connection self.old) bytes.now).0 }
        ensures after { self.new ≡ with_host connection (hears (host_at connection self.old) bytes.now).1 self.old }
    {
        match connection {
            Connection::First => hear(&mut self.first, bytes),
            Connection::Second => hear(&mut self.second, bytes),
        }
    }

    /// An end of a connection is told in the line of this number.
    fn tell(&mut self, number: u32, connection: Connection, bytes: &[u8]) -> Result<(), OutOfMemory>
        requires ends { self.old.ends < number }
        requires resets { self.old.resets ≤ self.old.ends }
        ensures told { OnOk result ((h : Heard) → IsHeard h self.old
            → IsHeard (told number h connection (Some bytes.now)) self.new) }
        ensures ends { self.new.ends ≤ number }
        ensures resets { self.new.resets ≤ self.new.ends }
        ensures count { self.new.count ≡ self.old.count }
    {
        let said = self.receive(connection, bytes);
        self.ends += 1;
        if is_reset(&said) {
            self.resets += 1;
        }
        Ok(put_line(&mut self.text, number, &said)?)
    }

    /// The words tell an end of a connection, or are passed over.
    fn tell_end(
        &mut self,
        number: u32,
        connection: Connection,
        words: Words<'_>,
    ) -> Result<(), OutOfMemory>
        requires ends { self.old.ends < number }
        requires resets { self.old.resets ≤ self.old.ends }
        ensures told { OnOk result ((h : Heard) → IsHeard h self.old
            → IsHeard (told number h connection (end_bytes (lexical.words words.entry.rest.now))) self.new) }
        ensures ends { self.new.ends ≤ number }
        ensures resets { self.new.resets ≤ self.new.ends }
        ensures count { self.new.count ≡ self.old.count }
    {
        match end_bytes(words) {
            Some(bytes) => self.tell(number, connection, bytes.as_slice()),
            None => Ok(()),
        }
    }

    /// A line of these words answers: it tells an end, or is passed over.
    #[tactic(auto, unfolding(crate::specs::Heard::after_answer))]
    fn answer(&mut self, number: u32, words: Words<'_>) -> Result<(), OutOfMemory>
        requires ends { self.old.ends < number }
        requires resets { self.old.resets ≤ self.old.ends }
        ensures heard { OnOk result ((h : Heard) → IsHeard h self.old
            → IsHeard (after_answer number h (lexical.words words.entry.rest.now)) self.new) }
        ensures ends { self.new.ends ≤ number }
        ensures resets { self.new.resets ≤ self.new.ends }
        ensures count { self.new.count ≡ self.old.count }
    {
        let mut rest = words;
        match rest.next_word() {
            Some(word) if is(word, "second") => self.tell_end(number, Connection::Second, rest),
            Some(_) => self.tell_end(number, Connection::First, words),
            None => Ok(()),
        }
    }

    /// What comes of the line of this number.
    fn line(&mut self, number: u32, bytes: &[u8]) -> Result<(), ReadFault>
        requires count { self.old.count ≤ MOST_EVENTS }
        requires ends { self.old.ends < number }
        requires resets { self.old.resets ≤ self.old.ends }
        ensures heard { (h : Heard) → IsHeard h self.old → Hears number h bytes.now result self.new }
        ensures count { OnOk result (self.new.count ≤ MOST_EVENTS) }
        ensures ends { self.new.ends ≤ number }
        ensures resets { self.new.resets ≤ self.new.ends }
    {
        let words = words_of(number, bytes)?;
        if words.is_empty() {
            return Ok(());
        }
        if is_answer(words) {
            return Ok(self.answer(number, words)?);
        }
        match request_after(Line { number, words }, self.count) {
            Ok(request) => {
                self.ask(&request);
                Ok(())
            }
            Err(fault) => Err(ReadFault::Script(fault)),
        }
    }
}

/// What hosts of the credits of a log's header would have heard, if they had sent what its lines send and received the
/// ends that it tells. A GET COMMAND STATUS about a host's oldest command is its poll. All other answers are passed
/// over.
///
/// # Errors
///
/// The first line at fault, or `OutOfMemory`.
pub fn hear_log<A: Allocator>(alloc: A, bytes: &[u8]) -> Result<Hearing<A>, ReadFault>
    ensures { Gives result (heard_log bytes.now) }
{
    let mut lines = lines_of(bytes)?;
    let config = read_header(&mut lines)?;
    hear_lines(alloc, &config, &mut lines)
}

/// What the hosts hear in the lines of a log that stand behind its header, whose configuration this is.
fn hear_lines<A: Allocator>(
    alloc: A,
    config: &Config,
    lines: &mut Lines<'_>,
) -> Result<Hearing<A>, ReadFault>
    ensures { Gives result (after_lines lines.old.number (silence config.now) (lexical.lines lines.old.rest.now)) }
{
    let mut hearing = Hearing::new(alloc, config);
    while let Some(bytes) = lines.cut() {
        hearing.line(lines.number, bytes)?;
    }
    Ok(hearing)
}

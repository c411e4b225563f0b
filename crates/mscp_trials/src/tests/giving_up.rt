// No call says that memory is wanted where there is some: not where there is nothing to do, not for any opcode or
// length, and not at any count of events or turns.

use super::HEADER;
use super::messages::{TABLE, message};
use super::moments::event_of;
use super::scripts::is_told_by_both;
use super::streams::simulated;
use super::texts::told;
use super::told::{event, heard};
use super::values::config;
use crate::tests::checks::{got, holds, same, same_of};
use mscp_controller::{Block, Connection, Event, Sweep, run};
use mscp_sim::{Heard, Turn, converse, read_script, report, show_packet};
use std::fmt::Write;
use std::process::Abort;

const NOTHING: &[u8] = b"steps 0 seeks 0 pending 0\n";

#[test]
fn no_events_want_no_memory(rt: HostRuntime) {
    let rt = &rt;
    let entries = got(rt, run(rt.alloc(), config(rt, 4, 16), Sweep, &[]));
    same(rt, entries.len(), 0);
    let text = got(rt, report(rt.alloc(), entries.as_slice()));
    same(rt, text.as_slice(), NOTHING);
}

#[test]
fn a_header_alone_wants_no_memory(rt: HostRuntime) {
    is_told_by_both(&rt, HEADER.as_bytes(), 0, NOTHING);
}

/// A talk of these turns, which are so many, ends with what is heard in the last.
fn is_heard(rt: &(impl Abort + AllocGlobal), turns: &[Turn], count: usize, last: Option<Heard>) {
    let talk = got(rt, converse(rt.alloc(), config(rt, 4, 16), Sweep, turns));
    let counts = (talk.heard.len(), talk.trace.len());
    same(rt, counts, (count, count));
    let told = talk.heard.as_slice().last().map(heard);
    same(rt, told, last.as_ref().map(heard));
}

#[test]
fn no_turns_want_no_memory(rt: HostRuntime) {
    is_heard(&rt, &[], 0, None);
}

#[test]
fn a_talk_of_many_turns_is_heard(rt: HostRuntime) {
    let take = Turn::Take(Connection::First);
    let turns = got(&rt, vec![in rt.alloc(); take; 1_000_000]);
    is_heard(&rt, turns.as_slice(), 1_000_000, Some(Heard::Quiet));
}

/// The word of a packet shows a line that begins like this, or has a fault with this text.
fn begins(opcode: u8, length: usize) -> &'static str {
    if length < 12 {
        return "packet: short";
    }
    if opcode < 0x80 {
        return "command ";
    }
    if opcode == 0x80 {
        return "end ";
    }
    for (known, count) in TABLE {
        if known == opcode - 0x80 {
            return if length < count {
                "packet: length"
            } else {
                "end "
            };
        }
    }
    "packet: code"
}

/// How a line begins that tells a packet.
fn beginning(line: &[u8]) -> &'static str {
    if line.starts_with(b"command ") {
        "command "
    } else if line.starts_with(b"end ") {
        "end "
    } else {
        "neither"
    }
}

/// These bytes are shown, as digits, as a line that begins like this, or have a fault with this text.
fn is_shown(rt: &(impl Abort + AllocGlobal), bytes: &[u8], wanted: &str) {
    let word = got(rt, hex::encode(rt.alloc(), bytes));
    match show_packet(rt.alloc(), word.as_str()) {
        Ok(line) => same_of(rt, bytes, beginning(line.as_slice()), wanted),
        Err(fault) => told(rt, &fault, wanted),
    }
}

#[test]
fn every_packet_is_shown_or_has_its_fault(rt: HostRuntime) {
    for opcode in 0..=255 {
        let bytes = message(opcode, 0xFF);
        for length in 0..65 {
            is_shown(&rt, &bytes[..length], begins(opcode, length));
        }
    }
}

/// Appends a message, with a step and a take after it: as events, and as a script.
fn add_message(
    rt: &(impl Abort + AllocGlobal),
    events: &mut Vec<Event>,
    script: &mut String,
    bytes: &[u8],
) {
    got(rt, events.push(event_of(rt, Connection::First, bytes)));
    got(rt, events.push(Event::Step(Block::Good)));
    got(rt, events.push(Event::Take(Connection::First)));
    let digits = got(rt, hex::encode(rt.alloc(), bytes));
    got(rt, writeln!(script, "packet {digits}\nstep 1\ntake"));
}

/// Appends each message of 1 to 64 bytes of this opcode, filled with one byte.
fn add_messages(
    rt: &(impl Abort + AllocGlobal),
    events: &mut Vec<Event>,
    script: &mut String,
    (opcode, fill): (u8, u8),
) {
    let bytes = message(opcode, fill);
    for length in 1..65 {
        add_message(rt, events, script, &bytes[..length]);
    }
}

/// Each message of 1 to 64 bytes, of each opcode and filled with zeros and with ones.
fn all_messages(rt: &(impl Abort + AllocGlobal)) -> (Vec<Event>, String) {
    let mut events = Vec::new(rt.alloc());
    let mut script = got(rt, String::from_str(rt.alloc(), HEADER));
    for opcode in 0..=255 {
        add_messages(rt, &mut events, &mut script, (opcode, 0x00));
        add_messages(rt, &mut events, &mut script, (opcode, 0xFF));
    }
    (events, script)
}

#[test]
fn every_message_is_read(rt: HostRuntime) {
    let rt = &rt;
    let (events, script) = all_messages(rt);
    let read = got(rt, read_script(rt.alloc(), script.as_bytes()));
    same(rt, read.events.len(), events.len());
    for (place, (made, wanted)) in read.events.iter().zip(&events).enumerate() {
        same_of(rt, place, event(made), event(wanted));
    }
}

#[test]
fn every_message_is_run_and_reported(rt: HostRuntime) {
    let rt = &rt;
    let (_events, script) = all_messages(rt);
    let text = got(rt, simulated(rt, script.as_bytes()));
    is_told_by_both(rt, script.as_bytes(), 98_304, text.as_slice());
    holds(rt, text.ends_with(b"steps 32768 seeks 0 pending 0\n"));
}

// A log of the wire in words: each of its lines that says something.

ghost use Rattle.std.specs.Prelude.{◌≡◌, ◌≤◌, ◌++◌, [], false, OnOk};
ghost use Rattle.mscp_reader.specs.Lexical as lexical;
ghost use Rattle.mscp_reader.specs.Outcome.{Tells};
ghost use Rattle.mscpjudge.specs.Common.{WritesOnce};
ghost use Rattle.mscpjudge.specs.Showing.{ShowsLine, TellsShown, bytes_text, known_text, line_shown, lines_shown, log_shown, moment_text, named_text, number_text, read_shown, said_text, sent_text, unread_text};

use crate::fault::Fault;
use crate::foreign::{foreign_of, put_foreign};
use crate::judging::Outcome;
use crate::ports::{Kind, line_kind};
use crate::time::{line_time, put_at};
use crate::wire::connection_name;
use mscp_controller::Connection;
use mscp_reader::{Lines, ReadFault, ScriptFault, lines_of};
use mscp_script::{Sink, Source, read_all};
use mscp_text::{ShowFault, put, put_field, show_packet};
use mscp_wire::{Moment, Said, line_says};
use std::alloc::{AllocError, Global};

/// Appends why bytes are no packet, and their digits.
fn put_unread(text: &mut Vec<u8>, fault: &str, digits: &str) -> Result<(), AllocError>
    ensures { OnOk result (text.new.items ≡ text.old.items ++ unread_text fault.now digits.now) }
{
    put(text, fault)?;
    put(text, ": ")?;
    put(text, digits)?;
    put(text, "\n")
}

/// Appends the line of the packet in these bytes, or why they are none.
#[tactic(auto, unfolding(crate::specs::Showing::known_text))]
fn put_known(alloc: Global, text: &mut Vec<u8>, bytes: &[u8]) -> Result<(), AllocError>
    ensures { OnOk result (text.new.items ≡ text.old.items ++ known_text bytes.now) }
{
    let word = hex::encode(alloc, bytes)?;
    match show_packet(alloc, word.as_str()) {
        Ok(line) => text.extend_from_slice(&line),
        Err(ShowFault::Hex) => put_unread(text, "hex", word.as_str()),
        Err(ShowFault::Short) => put_unread(text, "short", word.as_str()),
        Err(ShowFault::Long) => put_unread(text, "long", word.as_str()),
        Err(ShowFault::Code) => put_unread(text, "code", word.as_str()),
        Err(ShowFault::Length) => put_unread(text, "length", word.as_str()),
        Err(ShowFault::OutOfMemory) => Err(AllocError),
    }
}

/// Appends the line of a command or an end, or why bytes are none.
#[tactic(auto, unfolding(crate::specs::Showing::bytes_text))]
fn put_packet(alloc: Global, text: &mut Vec<u8>, bytes: &[u8]) -> Result<(), AllocError>
    ensures { OnOk result (text.new.items ≡ text.old.items ++ bytes_text bytes.now) }
{
    match foreign_of(bytes) {
        Some(opcode) => put_foreign(text, bytes, opcode),
        None => put_known(alloc, text, bytes),
    }
}

/// Appends what the controller sends a connection's host.
fn put_sent(
    alloc: Global,
    text: &mut Vec<u8>,
    connection: Connection,
    bytes: &[u8],
) -> Result<(), AllocError>
    ensures { OnOk result (text.new.items ≡ text.old.items ++ sent_text connection bytes.now) }
{
    put(text, connection_name(connection))?;
    put(text, "controller: ")?;
    put_packet(alloc, text, bytes)
}

/// Appends what happened.
fn put_moment(alloc: Global, text: &mut Vec<u8>, moment: &Moment) -> Result<(), AllocError>
    ensures { OnOk result (text.new.items ≡ text.old.items ++ moment_text moment.now) }
{
    match moment {
        Moment::Message(connection, message, _) => {
            put(text, connection_name(*connection))?;
            put(text, "host: ")?;
            put_packet(alloc, text, message.as_slice())
        }
        Moment::End(connection, message) => {
            put_sent(alloc, text, *connection, message.as_slice())
        }
        Moment::Reset => put(text, "reset\n"),
        Moment::Closed(connection) => {
            put(text, connection_name(*connection))?;
            put(text, "reset\n")
        }
    }
}

/// Appends the number of a line, and its time.
fn put_number(text: &mut Vec<u8>, number: u32, time: Option<u64>) -> Result<(), AllocError>
    ensures { OnOk result (text.new.items ≡ text.old.items ++ number_text number time) }
{
    put_field(text, "line ", number)?;
    put_at(text, time)?;
    put(text, ": ")
}

/// Appends what the line of this number says, and when.
fn put_said(
    alloc: Global,
    text: &mut Vec<u8>,
    number: u32,
    time: Option<u64>,
    said: &Said,
) -> Result<(), AllocError>
    ensures { OnOk result (text.new.items ≡ text.old.items ++ said_text number time said.now) }
{
    match said {
        Said::Nothing => Ok(()),
        Said::Credits(credits) => {
            put_number(text, number, time)?;
            put_field(text, "credits ", *credits)?;
            put(text, "\n")
        }
        Said::Begun => {
            put_number(text, number, time)?;
            put(text, "begun\n")
        }
        Said::Happens(moment) => {
            put_number(text, number, time)?;
            put_moment(alloc, text, moment)
        }
        Said::Attention(connection, message) => {
            put_number(text, number, time)?;
            put_sent(alloc, text, *connection, message.as_slice())
        }
    }
}

/// The same of the line's bytes.
fn put_read(alloc: Global, text: &mut Vec<u8>, number: u32, line: &[u8]) -> Result<(), ReadFault>
    requires { 1 ≤ number }
    ensures { ShowsLine result (read_shown number line.now) text.old.items text.new.items }
{
    let said = line_says(number, line)?;
    match put_said(alloc, text, number, line_time(number, line), &said) {
        Ok(()) => Ok(()),
        Err(_) => Err(ReadFault::OutOfMemory),
    }
}

/// Appends the line of a port.
fn put_named(
    text: &mut Vec<u8>,
    number: u32,
    time: Option<u64>,
    port: u32,
) -> Result<(), AllocError>
    ensures { OnOk result (text.new.items ≡ text.old.items ++ named_text number time port) }
{
    put_number(text, number, time)?;
    put_field(text, "port ", port)?;
    put(text, "\n")
}

/// Appends what a line says, to the ports or to others.
#[tactic(auto, unfolding(crate::specs::Showing::line_shown))]
fn put_line(alloc: Global, text: &mut Vec<u8>, number: u32, line: &[u8]) -> Result<(), ReadFault>
    requires { 1 ≤ number }
    ensures { ShowsLine result (line_shown number line.now) text.old.items text.new.items }
{
    match line_kind(number, line) {
        Kind::Names(port) => match put_named(text, number, line_time(number, line), port) {
            Ok(()) => Ok(()),
            Err(_) => Err(ReadFault::OutOfMemory),
        },
        Kind::Faulty(cause) => Err(ReadFault::Script(ScriptFault {
            line: number,
            cause,
        })),
        Kind::Bare | Kind::Says => put_read(alloc, text, number, line),
    }
}

/// What the lines of a log say.
fn show_lines(alloc: Global, lines: &mut Lines<'_>) -> Result<Vec<u8>, ReadFault>
    requires { lines.old.number ≡ 0 }
    ensures { Tells (λ text. text.items) result (lines_shown 0 [] (lexical.lines lines.old.rest.now)) }
{
    let mut text = Vec::new(alloc);
    while let Some(line) = lines.cut() {
        put_line(alloc, &mut text, lines.number, line)?;
    }
    Ok(text)
}

/// What a log says.
fn show_log(alloc: Global, bytes: &[u8]) -> Result<Vec<u8>, ReadFault>
    ensures { Tells (λ text. text.items) result (log_shown bytes.now) }
{
    let mut lines = lines_of(bytes)?;
    show_lines(alloc, &mut lines)
}

/// Shows the log of the wire that a reader gives, in one write.
pub(crate) fn show_captured<R: Source, W: Sink>(
    alloc: Global,
    reader: &mut R,
    writer: &mut W,
) -> Result<Outcome, Fault>
    requires reader { R.has_failed reader.old ≡ false }
    requires writer { W.has_failed writer.old ≡ false }
    ensures told { TellsShown result (R.remaining reader.old) (W.contents writer.old) (W.contents writer.new) }
    ensures once { WritesOnce result (W.writes writer.old) (W.writes writer.new) }
{
    let log = read_all(alloc, reader)?;
    let text = show_log(alloc, &log)?;
    writer.write_all(&text)?;
    Ok(Outcome::Legal)
}

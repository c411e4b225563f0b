// What is said of a moment that breaks a rule: what it tells, and what that is compared with. Numbers that people know
// in hexadecimal are told so.

ghost use Rattle.std.specs.Prelude.{◌≡◌, ◌≤◌, ◌++◌, length, slice_index, OnOk};
ghost use Rattle.hex.specs.Hex.{encode_lower};
ghost use Rattle.mscpjudge.specs.Values as values;

use crate::lengths::put_length;
use crate::wire::put_command;
use mscp_packet::fields::{four_at, two_at};
use mscp_text::{put, put_field, write_hex};
use mscp_wire::{Answer, Asked, Identity, Moment, Rule, Seen, Sent, Wrong};
use std::alloc::{AllocError, Allocator};

/// Appends bytes as two lower case hexadecimal digits each.
pub fn put_digits<A: Allocator>(text: &mut Vec<u8, A>, bytes: &[u8]) -> Result<(), AllocError>
    requires { length bytes.now ≤ 8 }
    ensures { OnOk result (text.new.items ≡ text.old.items ++ encode_lower bytes.now) }
{
    let mut room = [0u8; 16];
    let digits = &mut room[..2 * bytes.len()];
    write_hex(bytes, digits);
    text.extend_from_slice(digits)
}

/// Appends bytes in hexadecimal.
fn put_hex<A: Allocator>(text: &mut Vec<u8, A>, bytes: &[u8]) -> Result<(), AllocError>
    requires { length bytes.now ≤ 8 }
    ensures { OnOk result (text.new.items ≡ text.old.items ++ values.hex_text bytes.now) }
{
    put(text, "0x")?;
    put_digits(text, bytes)
}

/// Appends a byte in hexadecimal.
#[tactic(auto, unfolding(crate::specs::Values::byte_text))]
fn put_byte<A: Allocator>(text: &mut Vec<u8, A>, number: u8) -> Result<(), AllocError>
    ensures { OnOk result (text.new.items ≡ text.old.items ++ values.byte_text number) }
{
    let bytes = [number];
    put_hex(text, bytes.as_slice())
}

/// Appends a number of two bytes in hexadecimal.
#[tactic(auto, unfolding(crate::specs::Values::short_text))]
fn put_short<A: Allocator>(text: &mut Vec<u8, A>, number: u16) -> Result<(), AllocError>
    ensures { OnOk result (text.new.items ≡ text.old.items ++ values.short_text number) }
{
    let bytes = number.to_be_bytes();
    put_hex(text, bytes.as_slice())
}

/// Appends a number, if there is one.
fn put_number<A: Allocator>(text: &mut Vec<u8, A>, number: Option<u32>) -> Result<(), AllocError>
    ensures { OnOk result (text.new.items ≡ text.old.items ++ values.number_text number) }
{
    match number {
        Some(number) => put_field(text, "", number),
        None => put(text, "none"),
    }
}

/// Appends how long something is, and ends the line.
fn put_bytes<A: Allocator>(text: &mut Vec<u8, A>, bytes: &[u8]) -> Result<(), AllocError>
    ensures { OnOk result (text.new.items ≡ text.old.items ++ values.bytes_text bytes.now) }
{
    put_field(text, "", bytes.len())?;
    put(text, " bytes\n")
}

/// The opcode or the endcode of a packet.
fn code_of(bytes: &[u8]) -> u8
    requires { 12 ≤ length bytes.now }
    ensures { result ≡ slice_index bytes.now 8 }
{
    bytes[8]
}

/// Appends a byte and a number of two bytes in hexadecimal, each behind words.
fn put_codes<A: Allocator>(
    text: &mut Vec<u8, A>,
    word: &str,
    code: u8,
    behind: &str,
    status: u16,
) -> Result<(), AllocError>
    ensures { OnOk result (text.new.items ≡ text.old.items ++ values.codes_text word.now code behind.now status) }
{
    put(text, word)?;
    put_byte(text, code)?;
    put(text, behind)?;
    put_short(text, status)
}

/// Appends the rest of the line of an end: the command and the unit that it names, and how long it is.
#[tactic(auto, unfolding(crate::specs::Values::named_text))]
fn put_named<A: Allocator>(text: &mut Vec<u8, A>, bytes: &[u8]) -> Result<(), AllocError>
    requires { 12 ≤ length bytes.now }
    ensures { OnOk result (text.new.items ≡ text.old.items ++ values.named_text bytes.now) }
{
    put_field(text, ", command ", four_at(bytes, 0))?;
    put_field(text, " of unit ", two_at(bytes, 4))?;
    put(text, ", ")?;
    put_bytes(text, bytes)
}

/// Appends the line of an end.
fn put_end<A: Allocator>(text: &mut Vec<u8, A>, bytes: &[u8]) -> Result<(), AllocError>
    requires { 12 ≤ length bytes.now }
    ensures { OnOk result (text.new.items ≡ text.old.items ++ values.end_text bytes.now) }
{
    let code = code_of(bytes);
    let status = two_at(bytes, 10);
    put_codes(text, "end: endcode ", code, ", status ", status)?;
    put_named(text, bytes)
}

/// Appends a byte in hexadecimal behind a word, and how long a packet is.
fn put_coded<A: Allocator>(
    text: &mut Vec<u8, A>,
    word: &str,
    code: u8,
    bytes: &[u8],
) -> Result<(), AllocError>
    ensures { OnOk result (text.new.items ≡ text.old.items ++ values.coded_text word.now code bytes.now) }
{
    put(text, word)?;
    put_byte(text, code)?;
    put(text, ", ")?;
    put_bytes(text, bytes)
}

/// Appends the line of a message.
fn put_message<A: Allocator>(text: &mut Vec<u8, A>, bytes: &[u8]) -> Result<(), AllocError>
    requires { 12 ≤ length bytes.now }
    ensures { OnOk result (text.new.items ≡ text.old.items ++ values.message_text bytes.now) }
{
    put_coded(text, "message: opcode ", code_of(bytes), bytes)
}

/// Appends the line of what a moment tells.
#[tactic(auto, unfolding(crate::specs::Values::told_text))]
pub fn put_told<A: Allocator>(text: &mut Vec<u8, A>, moment: &Moment) -> Result<(), AllocError>
    ensures { OnOk result (text.new.items ≡ text.old.items ++ values.told_text moment.now) }
{
    match moment {
        Moment::Message(_, message, _) => {
            if message.len() < 12 {
                put(text, "message: ")?;
                return put_bytes(text, message.as_slice());
            }
            put_message(text, message.as_slice())
        }
        Moment::End(_, message) => {
            if message.len() < 12 {
                put(text, "end: ")?;
                return put_bytes(text, message.as_slice());
            }
            put_end(text, message.as_slice())
        }
        Moment::Reset | Moment::Closed(_) => Ok(()),
    }
}

/// Appends a line of two numbers.
fn put_both<A: Allocator>(
    text: &mut Vec<u8, A>,
    word: &str,
    told: Option<u32>,
    behind: &str,
    other: Option<u32>,
) -> Result<(), AllocError>
    ensures { OnOk result (text.new.items ≡ text.old.items ++ values.both_text word.now told behind.now other) }
{
    put(text, word)?;
    put_number(text, told)?;
    put(text, behind)?;
    put_number(text, other)?;
    put(text, "\n")
}

/// The last figure of the command that a poll is about.
fn last_of(asked: Asked) -> Option<u32>
    ensures { result ≡ values.last_of asked }
{
    match asked {
        Asked::Nothing => None,
        Asked::Oldest(last) => last,
        Asked::Gone(last) => last,
    }
}

/// Appends the line of the command that is passed, if there is one.
fn put_passed<A: Allocator>(text: &mut Vec<u8, A>, passed: &Option<Sent>) -> Result<(), AllocError>
    ensures { OnOk result (text.new.items ≡ text.old.items ++ values.passed_text passed.now) }
{
    match passed {
        Some(command) => {
            put(text, "passes: ")?;
            put_command(text, command)
        }
        None => Ok(()),
    }
}

/// Appends a line of bytes that were told, and of those that were told before, in hexadecimal.
fn put_was<A: Allocator>(
    text: &mut Vec<u8, A>,
    word: &str,
    told: &[u8],
    known: &[u8],
) -> Result<(), AllocError>
    requires told { length told.now ≤ 8 }
    requires known { length known.now ≤ 8 }
    ensures { OnOk result (text.new.items ≡ text.old.items ++ values.was_text word.now told.now known.now) }
{
    put(text, word)?;
    put_hex(text, told)?;
    put(text, ", was ")?;
    put_hex(text, known)?;
    put(text, "\n")
}

/// Appends the line of two identifiers, unless they are one.
fn put_identifier<A: Allocator>(
    text: &mut Vec<u8, A>,
    told: u64,
    known: u64,
) -> Result<(), AllocError>
    ensures { OnOk result (text.new.items ≡ text.old.items ++ values.identifier_text told known) }
{
    if told == known {
        return Ok(());
    }
    let told = told.to_be_bytes();
    let known = known.to_be_bytes();
    put_was(text, "identifier: ", told.as_slice(), known.as_slice())
}

/// Appends the line of two media types, unless they are one.
fn put_media<A: Allocator>(text: &mut Vec<u8, A>, told: u32, known: u32) -> Result<(), AllocError>
    ensures { OnOk result (text.new.items ≡ text.old.items ++ values.media_text told known) }
{
    if told == known {
        return Ok(());
    }
    let told = told.to_be_bytes();
    let known = known.to_be_bytes();
    put_was(text, "media type: ", told.as_slice(), known.as_slice())
}

/// Appends the line of two sizes, unless they are one.
fn put_size<A: Allocator>(
    text: &mut Vec<u8, A>,
    told: Option<u32>,
    known: Option<u32>,
) -> Result<(), AllocError>
    ensures { OnOk result (text.new.items ≡ text.old.items ++ values.size_text told known) }
{
    match (told, known) {
        (Some(told), Some(known)) if told != known => {
            put_both(text, "size: ", Some(told), ", was ", Some(known))
        }
        _ => Ok(()),
    }
}

/// Appends a line for each part of an identity that differs.
#[tactic(auto, unfolding(crate::specs::Values::differing_text))]
fn put_differing<A: Allocator>(
    text: &mut Vec<u8, A>,
    told: &Identity,
    known: &Identity,
) -> Result<(), AllocError>
    ensures { OnOk result (text.new.items ≡ text.old.items ++ values.differing_text told.now known.now) }
{
    put_identifier(text, told.identifier, known.identifier)?;
    put_media(text, told.media, known.media)?;
    put_size(text, told.size, known.size)
}

/// The same, if both are there.
fn put_identity<A: Allocator>(
    text: &mut Vec<u8, A>,
    told: Option<Identity>,
    known: Option<Identity>,
) -> Result<(), AllocError>
    ensures { OnOk result (text.new.items ≡ text.old.items ++ values.identity_text told known) }
{
    match (told, known) {
        (Some(told), Some(known)) => put_differing(text, &told, &known),
        _ => Ok(()),
    }
}

/// Appends the line of two identifiers of the controller, if both are there and aren't one.
fn put_controller<A: Allocator>(
    text: &mut Vec<u8, A>,
    told: Option<u64>,
    known: Option<u64>,
) -> Result<(), AllocError>
    ensures { OnOk result (text.new.items ≡ text.old.items ++ values.controller_text told known) }
{
    match (told, known) {
        (Some(told), Some(known)) => put_identifier(text, told, known),
        _ => Ok(()),
    }
}

/// Appends the line of the figure of the command that is polled, and of the last one.
fn put_figure<A: Allocator>(
    text: &mut Vec<u8, A>,
    polled: Option<u32>,
    told: Option<u32>,
    last: Option<u32>,
) -> Result<(), AllocError>
    ensures { OnOk result (text.new.items ≡ text.old.items ++ values.figure_text polled told last) }
{
    put(text, "figure of command ")?;
    put_number(text, polled)?;
    put_both(text, ": ", told, ", the last was ", last)
}

/// Appends what an end of a command that breaks a rule is compared with.
#[tactic(auto, unfolding(crate::specs::Values::compared_text))]
fn put_compared<A: Allocator>(
    text: &mut Vec<u8, A>,
    rule: Rule,
    answer: &Answer,
    command: &Sent,
    passed: &Option<Sent>,
    seen: &Seen,
) -> Result<(), AllocError>
    ensures { OnOk result (text.new.items ≡ text.old.items
        ++ values.compared_text rule answer.now command.now passed.now seen.now) }
{
    match rule {
        Rule::Order => put_passed(text, passed),
        Rule::About => put_both(
            text,
            "names: command ",
            answer.parameter,
            ", not ",
            command.parameter,
        ),
        Rule::Figure => put_figure(
            text,
            command.parameter,
            answer.figure,
            last_of(command.asked),
        ),
        Rule::Count => put_both(
            text,
            "bytes: ",
            answer.parameter,
            ", asked for ",
            command.parameter,
        ),
        Rule::Identity => put_identity(text, answer.identity, seen.unit.identity),
        Rule::Controller => put_controller(text, answer.controller, seen.controller),
        _ => Ok(()),
    }
}

/// Appends what the end of a command is compared with.
#[tactic(auto, unfolding(crate::specs::Values::answered_text))]
fn put_answered<A: Allocator>(text: &mut Vec<u8, A>, wrong: &Wrong) -> Result<(), AllocError>
    ensures { OnOk result (text.new.items ≡ text.old.items
        ++ values.answered_text wrong.now.rule wrong.now.moment wrong.now.command wrong.now.passed wrong.now.seen) }
{
    let (Moment::End(connection, message), Some(command)) = (&wrong.moment, &wrong.command) else {
        return Ok(());
    };
    if message.len() < 12 {
        return Ok(());
    }
    let answer = Answer::of(*connection, message.as_slice());
    put_compared(
        text,
        wrong.rule,
        &answer,
        command,
        &wrong.passed,
        &wrong.seen,
    )
}

/// Appends what a moment that breaks a rule is compared with, if there is something.
#[tactic(auto, unfolding(crate::specs::Values::against_text))]
pub fn put_against<A: Allocator>(text: &mut Vec<u8, A>, wrong: &Wrong) -> Result<(), AllocError>
    ensures { OnOk result (text.new.items ≡ text.old.items
        ++ values.against_text wrong.now.rule wrong.now.moment wrong.now.command wrong.now.passed wrong.now.seen) }
{
    match (wrong.rule, &wrong.moment) {
        (Rule::Length, Moment::End(_, message)) => put_length(text, message.as_slice()),
        _ => put_answered(text, wrong),
    }
}

// What a host's message asks for, as the port sees it.

ghost use Rattle.std.specs.Prelude.{◌≡◌, ◌≤◌, true, find, length, nat_le, IfSome};
ghost use Rattle.mscp_packet.specs.Commands.{IsCommand};
ghost use Rattle.mscp_port.specs.Common.{option_copied, bare_end, handed, next_unit};
ghost use Rattle.mscp_port.specs.Messages.{own_end as end_of_own, is_transfer, past_volume, refused_end, volume_refusal};

use crate::formality::stand_in;
use crate::volumes::Volume;
use mscp_drive::{INVALID_BLOCK, INVALID_BYTE_COUNT, Unit, Units};
use mscp_packet::fields::{four_at, two_at};
use mscp_packet::status::{INVALID_OPCODE, SUCCESS};
use mscp_packet::{
    Class, Command, End, EndBody, class_of, endcodes, opcodes, port_answers, read_command,
};

/// The bytes of a block.
const BLOCK_BYTES: u32 = 512;

/// The modifier of GET UNIT STATUS that asks for the next unit.
const NEXT_UNIT: u16 = 0x0001;

/// The end of a message to a unit with this volume that the port answers itself, if it does: one for a connection that
/// isn't there, a formality of a unit that isn't there, or a transfer past the end of the volume.
#[tactic(auto, unfolding(mscp_packet::specs::Opcodes::port_answers))]
pub(crate) fn own_end(message: &[u8], is_foreign: bool, volume: Option<Volume>) -> Option<End>
    requires { 12 ≤ length message.now }
    ensures { result ≡ end_of_own is_foreign volume message.now }
{
    if is_foreign {
        return Some(bare_end(message, endcodes::UNKNOWN, INVALID_OPCODE));
    }
    if volume.is_none() && port_answers(message[8]) {
        return Some(bare_end(message, message[8] + endcodes::UNKNOWN, SUCCESS));
    }
    Some(refused_end(message, refusal(message, volume)?))
}

/// Whether it is a transfer that has all its fields: ACCESS, ERASE, COMPARE HOST DATA, READ or WRITE.
#[tactic(auto, unfolding(mscp_packet::specs::Opcodes::is_transfer_opcode))]
fn is_transfer(message: &[u8]) -> bool
    requires { 12 ≤ length message.now }
    ensures value { result ≡ is_transfer message.now }
    ensures long { result ≡ true → 32 ≤ length message.now }
{
    matches!(class_of(message[8]), Class::Free) && message.len() >= 32
}

/// Why a transfer isn't made whose blocks aren't on this volume, which may have fewer than its unit.
fn refusal(message: &[u8], volume: Option<Volume>) -> Option<u16>
    requires { 12 ≤ length message.now }
    ensures value { result ≡ volume_refusal volume message.now }
    ensures transfer { IfSome result (λ status. is_transfer message.now ≡ true) }
{
    let volume = volume?;
    if !volume.is_there || !is_transfer(message) {
        return None;
    }
    past_volume(volume.size, four_at(message, 28), four_at(message, 12))
}

/// Why so many bytes from a block on aren't on a volume of this size, if they aren't.
fn past_volume(size: u32, block: u32, bytes: u32) -> Option<u16>
    ensures { result ≡ past_volume size block bytes }
{
    if size <= block {
        Some(INVALID_BLOCK)
    } else if size - block < bytes.div_ceil(BLOCK_BYTES) {
        Some(INVALID_BYTE_COUNT)
    } else {
        None
    }
}

/// The end of a transfer that is refused with this status.
#[tactic(auto, unfolding(mscp_packet::specs::Opcodes::is_transfer_opcode))]
fn refused_end(message: &[u8], status: u16) -> End
    requires { is_transfer message.now ≡ true }
    ensures { result ≡ refused_end message.now status }
{
    End {
        body: EndBody::Moved(0),
        ..bare_end(message, message[8] + endcodes::UNKNOWN, status)
    }
}

/// The end of a message with this code and status.
fn bare_end(message: &[u8], code: u8, status: u16) -> End
    requires { 12 ≤ length message.now }
    ensures { result ≡ bare_end message.now code status }
{
    End {
        reference: four_at(message, 0),
        unit: two_at(message, 4),
        code,
        status,
        body: EndBody::Bare,
    }
}

/// The first unit whose number isn't below one.
fn first_from(units: &Units, number: u16) -> Option<&Unit>
    ensures { option_copied result ≡ find (λ unit. nat_le number unit.number) units.now }
{
    units.list().iter().find(|unit| unit.number() >= number)
}

/// Its number, and 0 where there is none.
fn next_unit(units: &Units, number: u16) -> u16
    ensures { result ≡ next_unit units.now number }
{
    match first_from(units, number) {
        Some(unit) => unit.number(),
        None => 0,
    }
}

/// The command that a message is.
fn command_in(message: &[u8]) -> Command
    requires short { 12 ≤ length message.now }
    requires long { length message.now ≤ 64 }
    ensures { IsCommand message.now result }
{
    match read_command(message) {
        Ok(command) => command,
        Err(_) => unreachable!(),
    }
}

/// The command that the controller gets for a message: a formality has its stand-in, and a GET UNIT STATUS which asks
/// for the next unit is to that one.
pub(crate) fn command_for_controller(message: &[u8], units: &Units) -> Command
    requires short { 12 ≤ length message.now }
    requires long { length message.now ≤ 64 }
    ensures { IsCommand (handed units.now message.now) result }
{
    let command = command_in(message);
    if port_answers(message[8]) {
        return stand_in(command);
    }
    if message[8] != opcodes::GET_UNIT_STATUS || two_at(message, 10) % 2 != NEXT_UNIT {
        return command;
    }
    Command {
        unit: next_unit(units, command.unit),
        ..command
    }
}

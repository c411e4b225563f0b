// Commands to messages, from their fields by name.

ghost use Rattle.std.specs.Prelude.{◌≡◌, ◌+◌, ◌≤◌, ◌<◌, ◌^◌, ◌++◌, take, drop, length};
ghost use Rattle.arrayvec.specs.ArrayVec.{array_vec_len};
ghost use Rattle.mscp_packet.specs.Commands.{IsCommand, command_bytes, order_with};
ghost use Rattle.mscp_packet.specs.Opcodes.{opcode_of};
ghost use Rattle.mscp_c.specs.CommandWritten.{MessageTold, beside, blank, command_given, message_bytes, order_given, with_four, with_two};

use crate::outs::PacketOut;
use crate::status::DONE;
use crate::telling::tell_packet;
use arrayvec::ArrayVec;
use mscp_packet::fields::{put_four, put_two};
use mscp_packet::{Command, Order, read_command, write_command};

/// A command, as a program in C gives it. What its opcode doesn't have isn't looked at.
#[repr(C)]
#[derive(Clone, Copy)]
pub struct CommandIn {
    pub reference: u32,
    pub other: u32,
    pub bytes: u32,
    pub lbn: u32,
    pub buffer: u32,
    pub unit: u16,
    pub modifiers: u16,
    pub version: u16,
    pub flags: u16,
    pub timeout: u16,
    pub opcode: u8,
}

/// What a long message of the opcode byte asks for that is zero beside it.
fn blank_order(opcode: u8) -> Order
    ensures { result ≡ order_with (opcode_of opcode) (blank opcode) }
{
    let mut bytes = [0; 32];
    bytes[8] = opcode;
    match read_command(&bytes) {
        Ok(command) => command.order,
        Err(_) => Order::UnitStatus,
    }
}

/// What a command asks for.
fn order_of(given: &CommandIn) -> Order
    ensures { result ≡ order_given (opcode_of given.now.opcode) given.now }
{
    match blank_order(given.opcode) {
        Order::Abort(_) => Order::Abort(given.other),
        Order::Status(_) => Order::Status(given.other),
        Order::SetController(_) => Order::SetController(given.version),
        Order::Move(kind, _, _) => Order::Move(kind, given.bytes, given.lbn),
        order => order,
    }
}

/// The command that is given.
fn command_of(given: CommandIn) -> Command
    ensures value { result ≡ command_given given }
    ensures range { (given.reference < 2 ^ 32) × (given.unit < 2 ^ 16) }
{
    Command {
        reference: given.reference,
        unit: given.unit,
        order: order_of(&given),
    }
}

/// Writes bytes over those from a place on.
fn set_at(message: &mut ArrayVec<u8, 48>, at: usize, part: &[u8])
    requires { at + length part.now ≤ array_vec_len message.old }
    ensures items { message.new.items
        ≡ take at message.old.items ++ part.now ++ drop (at + length part.now) message.old.items }
    ensures len { array_vec_len message.new ≡ array_vec_len message.old }
{
    message.as_mut_slice()[at..at + part.len()].copy_from_slice(part);
}

/// Writes a number of two bytes at a place.
fn set_two(message: &mut ArrayVec<u8, 48>, at: usize, x: u16)
    requires { at + 2 ≤ array_vec_len message.old }
    ensures items { message.new.items ≡ with_two at x message.old.items }
    ensures len { array_vec_len message.new ≡ array_vec_len message.old }
{
    let mut part: ArrayVec<u8, 2> = ArrayVec::new();
    put_two(&mut part, x);
    set_at(message, at, part.as_slice());
}

/// Writes a number of four bytes at a place.
fn set_four(message: &mut ArrayVec<u8, 48>, at: usize, x: u32)
    requires { at + 4 ≤ array_vec_len message.old }
    ensures items { message.new.items ≡ with_four at x message.old.items }
    ensures len { array_vec_len message.new ≡ array_vec_len message.old }
{
    let mut part: ArrayVec<u8, 4> = ArrayVec::new();
    put_four(&mut part, x);
    set_at(message, at, part.as_slice());
}

/// The message of a command, with what `write_command` leaves zero.
fn message_of(given: &CommandIn) -> ArrayVec<u8, 48>
    ensures bytes { result.items ≡ message_bytes given.now }
    ensures command { IsCommand result.items (command_given given.now) }
{
    let command = command_of(*given);
    let mut message = write_command(&command);
    set_two(&mut message, 10, given.modifiers);
    match command.order {
        Order::SetController(_) => {
            set_two(&mut message, 14, given.flags);
            set_two(&mut message, 16, given.timeout);
        }
        Order::Move(..) => set_four(&mut message, 16, given.buffer),
        Order::Invalid { .. } => {}
        _ => {}
    }
    message
}

/// Writes the message of a command.
#[unsafe(no_mangle)]
pub extern "C" fn mscp_write_command(given: &CommandIn, out: &mut PacketOut) -> i32
    ensures code { result ≡ DONE }
    ensures told { MessageTold given.now out.old out.new }
{
    tell_packet(out, &message_of(given));
    DONE
}

// A command that is outstanding.

ghost use Rattle.std.specs.Prelude.{◌≡◌, ◌≤◌, length};
ghost use Rattle.mscp_wire.specs.Wire.{asks_for_next, four_in, is_compared, is_modified, is_named, is_ordered, is_required, is_sequential, is_short, is_transfer, is_unknown, sent_by};

use mscp_drive::Connection;
use mscp_packet::fields::{four_at, two_at};
use mscp_packet::{Class, class_of, least_of, opcodes, scheduled_as};

/// What a poll asks of the command that it names.
#[derive(Clone, Copy)]
pub enum Asked {
    /// Nothing: any figure is right.
    Nothing,
    /// It was the oldest that its host waits for when the poll came. This figure was last told of it, if one was.
    Oldest(Option<u32>),
    /// The same of one that ended since. If none was outstanding when the poll came, it is 0.
    Gone(Option<u32>),
}

/// A command that is outstanding: what its message says, and what hosts were told of it.
#[derive(Clone, Copy)]
pub struct Sent {
    pub connection: Connection,
    pub reference: u32,
    pub unit: u16,
    pub opcode: u8,
    /// How many bytes its message has.
    pub bytes: usize,
    /// Whether it asks for the next unit, so that its end may name another one.
    pub next: bool,
    /// Whether it has a modifier.
    pub modified: bool,
    /// Whether it has the modifier Compare.
    pub compares: bool,
    /// The number in bytes 12 to 15, if the message has them: of an ABORT and a GET COMMAND STATUS the reference number
    /// of the command that they are about, of a transfer how many bytes are to be moved.
    pub parameter: Option<u32>,
    /// The number in bytes 28 to 31, if the message has them: the first block of a transfer.
    pub block: Option<u32>,
    /// When it was sent, in nanoseconds, if that is told.
    pub time: Option<u64>,
    /// The figure that was last told of it by a poll of the oldest command, if one was.
    pub told: Option<u32>,
    /// When that poll was sent, if that is told.
    pub polled: Option<u64>,
    /// What it asks of another command, if it is a poll.
    pub asked: Asked,
    /// Whether an AVAILABLE or an ONLINE of its unit ended beside it, if it is a GET UNIT STATUS.
    pub beside: bool,
}

/// The number in the four bytes from a place on, if there are so many.
pub(crate) fn four_in(b: &[u8], at: usize) -> Option<u32>
    requires { at ≤ 64 }
    ensures { result ≡ four_in b.now at }
{
    if b.len() >= at + 4 {
        Some(four_at(b, at))
    } else {
        None
    }
}

/// Whether a message is a GET UNIT STATUS that asks for the next unit (manual, "GET UNIT STATUS Command").
fn asks_for_next(b: &[u8]) -> bool
    requires { 12 ≤ length b.now }
    ensures { result ≡ asks_for_next b.now }
{
    b[8] == opcodes::GET_UNIT_STATUS && two_at(b, 10) % 2 == 1
}

/// Whether a message sets a modifier.
fn is_modified(b: &[u8]) -> bool
    requires { 12 ≤ length b.now }
    ensures { result ≡ is_modified b.now }
{
    two_at(b, 10) != 0
}

/// Whether a message sets the modifier Compare (manual, "Command Modifiers").
fn is_compared(b: &[u8]) -> bool
    requires { 12 ≤ length b.now }
    ensures { result ≡ is_compared b.now }
{
    two_at(b, 10) / 16384 % 2 == 1
}

impl Sent {
    /// The command of a message (manual, "Command Messages").
    pub fn of(connection: Connection, b: &[u8]) -> Sent
        requires { 12 ≤ length b.now }
        ensures { result ≡ sent_by connection b.now }
    {
        Sent {
            connection,
            reference: four_at(b, 0),
            unit: two_at(b, 4),
            opcode: b[8],
            bytes: b.len(),
            next: asks_for_next(b),
            modified: is_modified(b),
            compares: is_compared(b),
            parameter: four_in(b, 12),
            block: four_in(b, 28),
            time: None,
            told: None,
            polled: None,
            asked: Asked::Nothing,
            beside: false,
        }
    }

    /// Whether its message is too short for its opcode.
    pub fn is_short(&self) -> bool
        ensures { result ≡ is_short self.now }
    {
        self.bytes < least_of(self.opcode)
    }

    /// Whether it has this reference number on this connection.
    pub fn is_named(&self, connection: Connection, reference: u32) -> bool
        ensures { result ≡ is_named connection reference self.now }
    {
        self.connection == connection && self.reference == reference
    }
}

/// Whether it keeps its place among the commands of its unit.
pub(crate) fn is_sequential(opcode: u8) -> bool
    ensures { result ≡ is_sequential opcode }
{
    matches!(class_of(opcode), Class::Sequential)
}

/// Whether no row of the table of opcodes has it.
pub(crate) fn is_unknown(opcode: u8) -> bool
    ensures { result ≡ is_unknown opcode }
{
    matches!(class_of(opcode), Class::Unknown)
}

/// Whether it is a transfer.
pub(crate) fn is_transfer(opcode: u8) -> bool
    ensures { result ≡ is_transfer opcode }
{
    matches!(class_of(opcode), Class::Free)
}

/// Whether it has its place among the commands of its unit, too: a transfer, or one of DETERMINE ACCESS PATHS, COMPARE
/// CONTROLLER DATA, FLUSH and REPLACE.
pub(crate) fn is_ordered(opcode: u8) -> bool
    ensures { result ≡ is_ordered opcode }
{
    matches!(scheduled_as(opcode), Class::Free)
}

/// Whether no controller may leave it out.
pub(crate) fn is_required(opcode: u8) -> bool
    ensures { result ≡ is_required opcode }
{
    matches!(
        opcode,
        opcodes::ABORT
            | opcodes::GET_COMMAND_STATUS
            | opcodes::GET_UNIT_STATUS
            | opcodes::SET_CONTROLLER_CHARACTERISTICS
            | opcodes::AVAILABLE
            | opcodes::ONLINE
            | opcodes::SET_UNIT_CHARACTERISTICS
            | opcodes::READ
            | opcodes::WRITE
    )
}

// What is asked of the table of opcodes by an opcode's byte.

ghost use Rattle.std.specs.Prelude.{◌≡◌};
ghost use Rattle.mscp_packet.specs.Opcodes as table;
ghost use Rattle.mscp_packet.specs.Rows.{IsRow};

use crate::class::{Answerer, Class, Row, StatusSet, foreign_of, make_row, opcode_of};
use crate::end::BodyKind;

/// What a command is called whose opcode has no row.
pub(crate) const UNKNOWN_NAME: &str = "command of an unknown opcode";

/// The row of an opcode byte, any of the 256. A byte without one is an opcode that nobody knows.
fn row_at(byte: u8) -> Row
    ensures { IsRow result (table.row_at byte) }
{
    if let Some(opcode) = opcode_of(byte) {
        return opcode.row();
    }
    match foreign_of(byte) {
        Some(opcode) => opcode.row(),
        None => make_row(
            byte,
            UNKNOWN_NAME,
            Class::Unknown,
            12,
            BodyKind::Bare,
            StatusSet::Any,
            0,
            Answerer::Nobody,
        ),
    }
}

/// Whether an opcode byte has a row, so that the manual has a name for it.
pub fn has_row(byte: u8) -> bool
    ensures { result ≡ table.has_row byte }
{
    opcode_of(byte).is_some() || foreign_of(byte).is_some()
}

/// What the manual calls a command with this opcode byte.
pub fn opcode_name(byte: u8) -> &'static str
    ensures { result.now ≡ table.opcode_name byte }
{
    row_at(byte).name
}

/// How commands with this opcode byte are scheduled, whoever answers them (manual, "Command Categories and Execution
/// Order"). `class_of` is that of the controller's own.
pub fn scheduled_as(byte: u8) -> Class
    ensures { result ≡ table.scheduled_as byte }
{
    row_at(byte).class
}

/// The fewest bytes of a message with this opcode byte, so that what it asks for is there.
pub fn least_of(byte: u8) -> usize
    ensures { result ≡ table.least_of byte }
{
    row_at(byte).least
}

/// Whether the end of a command with this opcode byte may have a status of this code. There are codes up to 11.
pub fn may_have_status(byte: u8, code: u16) -> bool
    ensures { result ≡ table.may_have_status byte code }
{
    row_at(byte).statuses.has(code)
}

/// The modifiers that a command with this opcode byte may carry.
pub fn modifiers_of(byte: u8) -> u16
    ensures { result ≡ table.modifiers_of byte }
{
    row_at(byte).modifiers
}

/// Whether the port in front of the controller answers commands with this opcode byte.
#[tactic(auto, unfolding(crate::specs::Opcodes::port_answers))]
pub fn port_answers(byte: u8) -> bool
    ensures { result ≡ table.port_answers byte }
{
    // What the controller answers is no foreign opcode.
    match foreign_of(byte) {
        Some(opcode) => matches!(opcode.row().answerer, Answerer::Port),
        None => false,
    }
}

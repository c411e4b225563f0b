// Bytes to commands and ends.

ghost use Rattle.std.specs.Prelude.{◌≡◌, ◌↔◌, ◌≤◌, ◌<◌, ◌⊎◌, length, IfOk, slice_index};
ghost use Rattle.mscp_packet.specs.Common.{least, opcode_of, order_with, parameters, IsCommand, opcode_byte, body_at, end_length, least_end, kind_of_code, IsEnd, IsUnder};

use crate::class::{Opcode, opcode_of};
use crate::command::{Command, Order};
use crate::end::{BodyKind, End, EndBody, kind_of};
use crate::fields::{eight_at, four_at, two_at};
use crate::status::{INVALID_LENGTH, INVALID_OPCODE};

/// Why bytes are no message: a message has 12 to 64 bytes (profile).
#[derive(Clone, Copy)]
pub enum PacketFault {
    /// Under 12 bytes.
    Short,
    /// Over 64 bytes.
    Long,
}

/// What a long enough message of the opcode asks for.
fn parameters_in(opcode: Opcode, b: &[u8]) -> Order
    requires { least opcode ≤ length b.now }
    ensures { result ≡ parameters opcode b.now }
{
    match opcode {
        Opcode::Abort => Order::Abort(four_at(b, 12)),
        Opcode::Status => Order::Status(four_at(b, 12)),
        Opcode::UnitStatus => Order::UnitStatus,
        Opcode::SetController => Order::SetController(two_at(b, 12)),
        Opcode::Available => Order::Available,
        Opcode::Online => Order::Online,
        Opcode::SetUnit => Order::SetUnit,
        Opcode::Move(kind) => Order::Move(kind, four_at(b, 12), four_at(b, 28)),
    }
}

/// What a message asks for, or why it is no valid command.
fn order_in(b: &[u8]) -> Order
    requires { 12 ≤ length b.now }
    ensures { result ≡ order_with (opcode_of (slice_index b.now 8)) b.now }
{
    let byte = b[8];
    let Some(opcode) = opcode_of(byte) else {
        return Order::Invalid {
            opcode: byte,
            status: INVALID_OPCODE,
        };
    };
    if b.len() < opcode.row().least {
        return Order::Invalid {
            opcode: byte,
            status: INVALID_LENGTH,
        };
    }
    parameters_in(opcode, b)
}

/// The command in a message of 12 to 64 bytes (manual, "Command Messages"; the limits are the profile's). A message
/// that is no valid command gives an `Order::Invalid` with the status of its end: `INVALID_OPCODE`, or `INVALID_LENGTH`
/// where it is shorter than the least of its opcode. Reserved bytes, modifiers, and bytes past the known fields are
/// ignored (profile).
///
/// # Errors
///
/// `Short` under 12 bytes, `Long` over 64.
pub fn read_command(b: &[u8]) -> Result<Command, PacketFault>
    ensures short { (result ≡ Err PacketFault.Short) ↔ (length b.now < 12) }
    ensures long { (result ≡ Err PacketFault.Long) ↔ (64 < length b.now) }
    ensures command { IfOk result (λ c. IsCommand b.now c) }
    ensures only { (c : Command) → IsCommand b.now c → result ≡ Ok c }
    ensures opcode { IfOk result (λ c. opcode_byte c.order ≡ slice_index b.now 8) }
{
    if b.len() < 12 {
        return Err(PacketFault::Short);
    }
    if b.len() > 64 {
        return Err(PacketFault::Long);
    }
    Ok(Command {
        reference: four_at(b, 0),
        unit: two_at(b, 4),
        order: order_in(b),
    })
}

/// Why bytes are no end. The code is judged before the length of the endcode (profile).
#[derive(Clone, Copy)]
pub enum EndFault {
    /// Under 12 or over 64 bytes, or under the length of its endcode.
    Length,
    /// Of 12 to 64 bytes, and byte 8 is no endcode.
    Code,
}

/// How many bytes an end with a body of this shape has (manual, "End Messages").
fn length_of(kind: BodyKind) -> usize
    ensures { result ≡ end_length kind }
{
    match kind {
        BodyKind::Bare => 12,
        BodyKind::Abort => 16,
        BodyKind::Status => 20,
        BodyKind::UnitStatus => 48,
        BodyKind::Controller => 28,
        BodyKind::Online => 44,
        BodyKind::Moved => 32,
    }
}

/// The fewest bytes of an end with this endcode (manual, "End Messages").
pub fn least_end_of(code: u8) -> usize
    ensures { result ≡ least_end code }
{
    match kind_of(code) {
        Some(kind) => length_of(kind),
        None => 12,
    }
}

/// The body of this shape in a long enough message.
fn body_in(kind: BodyKind, b: &[u8]) -> EndBody
    requires { end_length kind ≤ length b.now }
    ensures { result ≡ body_at kind b.now }
{
    match kind {
        BodyKind::Bare => EndBody::Bare,
        BodyKind::Abort => EndBody::Abort(four_at(b, 12)),
        BodyKind::Status => EndBody::Status {
            other: four_at(b, 12),
            figure: four_at(b, 16),
        },
        BodyKind::UnitStatus => EndBody::UnitStatus {
            id: eight_at(b, 20),
            media: four_at(b, 28),
            track: two_at(b, 36),
            group: two_at(b, 38),
            cylinder: two_at(b, 40),
        },
        BodyKind::Controller => EndBody::Controller {
            timeout: two_at(b, 16),
            id: eight_at(b, 20),
        },
        BodyKind::Online => EndBody::Online {
            id: eight_at(b, 20),
            media: four_at(b, 28),
            size: four_at(b, 36),
            serial: four_at(b, 40),
        },
        BodyKind::Moved => EndBody::Moved(four_at(b, 12)),
    }
}

/// The end in a message of 12 to 64 bytes (manual, "End Messages"; the limits are the profile's). The body is of the
/// shape that follows the endcode. Flags, reserved bytes, and bytes past the length of the endcode are ignored
/// (profile).
///
/// # Errors
///
/// `Length` under 12 or over 64 bytes, or under the length of its endcode; else `Code` if byte 8 is no endcode.
pub fn read_end(b: &[u8]) -> Result<End, EndFault>
    ensures end { IfOk result (λ e. IsEnd b.now e) }
    ensures only { (e : End) → IsEnd b.now e → result ≡ Ok e }
    ensures code { (result ≡ Err EndFault.Code)
        ↔ ((12 ≤ length b.now) × (length b.now ≤ 64) × (kind_of_code (slice_index b.now 8) ≡ None)) }
    ensures length { (result ≡ Err EndFault.Length)
        ↔ ((length b.now < 12) ⊎ (64 < length b.now) ⊎ IsUnder (kind_of_code (slice_index b.now 8)) (length b.now)) }
{
    if b.len() < 12 || b.len() > 64 {
        return Err(EndFault::Length);
    }
    let code = b[8];
    let Some(kind) = kind_of(code) else {
        return Err(EndFault::Code);
    };
    if b.len() < length_of(kind) {
        return Err(EndFault::Length);
    }
    Ok(End {
        reference: four_at(b, 0),
        unit: two_at(b, 4),
        code,
        status: two_at(b, 10),
        body: body_in(kind, b),
    })
}

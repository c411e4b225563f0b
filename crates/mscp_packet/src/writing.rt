// Commands and ends to bytes. What is written and not named is zero (profile).

ghost use Rattle.std.specs.Prelude.{◌≡◌, ◌+◌, ◌≤◌, ◌++◌};
ghost use Rattle.mscp_packet.specs.Common.{array_vec_len, command_bytes, command_fields, parameter_bytes, written, HasCommandRange, HasRange, IsCommand, IsValidOrder, body_bytes, end_bytes, end_fields, end_length, kind_of_body, unit_bytes, HasBodyRange, HasEndRange, IsEnd, IsOfKind, IsZeroBeside};

use crate::command::{Command, Order};
use crate::end::{End, EndBody};
use crate::fields::{put, put_eight, put_four, put_two};
use arrayvec::ArrayVec;

/// Appends the parameters of an order.
fn put_parameters(out: &mut ArrayVec<u8, 48>, order: &Order)
    requires { array_vec_len out.old ≤ 12 }
    ensures items { out.new.items ≡ out.old.items ++ parameter_bytes order.now }
    ensures range { HasRange order.now }
{
    match order {
        Order::Abort(other) | Order::Status(other) => put_four(out, *other),
        Order::SetController(version) => {
            put_two(out, *version);
            put(out, &[0; 4]);
        }
        Order::Move(_, count, block) => {
            put_four(out, *count);
            put(out, &[0; 12]);
            put_four(out, *block);
        }
        _ => {}
    }
}

/// The bytes of a command.
fn bytes_of_command(command: &Command) -> ArrayVec<u8, 48>
    ensures items { result.items ≡ command_bytes command.now }
    ensures range { HasCommandRange command.now }
{
    let mut out = ArrayVec::new();
    put_four(&mut out, command.reference);
    put_two(&mut out, command.unit);
    put(&mut out, &[0, 0, command.opcode(), 0, 0, 0]);
    put_parameters(&mut out, &command.order);
    out
}

/// The message of a command, of 12 to 32 bytes (manual, "Command Messages"; the lengths are the profile's). An
/// `Order::Invalid` writes 12 bytes with its opcode (profile).
pub fn write_command(command: &Command) -> ArrayVec<u8, 48>
    ensures bytes { result.items ≡ command_bytes command.now }
    ensures length { array_vec_len result ≡ written command.now.order }
    ensures zeros { IsZeroBeside (command_fields command.now.order) result.items }
    ensures reads_back { IsValidOrder command.now.order → IsCommand result.items command.now }
{
    bytes_of_command(command)
}

/// Appends the fields of a body.
#[rattlefmt::skip]
fn put_body(out: &mut ArrayVec<u8, 48>, body: &EndBody)
    requires { array_vec_len out.old ≤ 12 }
    ensures items { out.new.items ≡ out.old.items ++ body_bytes body.now }
    ensures range { HasBodyRange body.now }
{
    match body {
        EndBody::Bare => {}
        EndBody::Abort(other) => put_four(out, *other),
        EndBody::Status { other, figure } => {
            put_four(out, *other);
            put_four(out, *figure);
        }
        EndBody::UnitStatus { id, media, track, group, cylinder } => {
            put_unit(out, *id, *media);
            put_two(out, *track);
            put_two(out, *group);
            put_two(out, *cylinder);
            put(out, &[0; 6]);
        }
        EndBody::Controller { timeout, id } => {
            put(out, &[0; 4]);
            put_two(out, *timeout);
            put(out, &[0; 2]);
            put_eight(out, *id);
        }
        EndBody::Online { id, media, size, serial } => {
            put_unit(out, *id, *media);
            put_four(out, *size);
            put_four(out, *serial);
        }
        EndBody::Moved(count) => {
            put_four(out, *count);
            put(out, &[0; 16]);
        }
    }
}

/// Appends the 24 bytes that tell which unit and medium it is.
fn put_unit(out: &mut ArrayVec<u8, 48>, id: u64, media: u32)
    requires { array_vec_len out.old ≤ 12 }
    ensures items { out.new.items ≡ out.old.items ++ unit_bytes id media }
    ensures len { array_vec_len out.new ≡ array_vec_len out.old + 24 }
{
    put(out, &[0; 8]);
    put_eight(out, id);
    put_four(out, media);
    put(out, &[0; 4]);
}

/// The bytes of an end.
fn bytes_of_end(end: &End) -> ArrayVec<u8, 48>
    ensures items { result.items ≡ end_bytes end.now }
    ensures range { HasEndRange end.now }
{
    let mut out = ArrayVec::new();
    put_four(&mut out, end.reference);
    put_two(&mut out, end.unit);
    put(&mut out, &[0, 0, end.code, 0]);
    put_two(&mut out, end.status);
    put_body(&mut out, &end.body);
    out
}

/// The message of an end, of 12 to 48 bytes (manual, "End Messages"). The body is written as it is, whatever the
/// endcode.
pub fn write_end(end: &End) -> ArrayVec<u8, 48>
    ensures bytes { result.items ≡ end_bytes end.now }
    ensures length { array_vec_len result ≡ end_length (kind_of_body end.now.body) }
    ensures zeros { IsZeroBeside (end_fields end.now.body) result.items }
    ensures reads_back { IsOfKind end.now → IsEnd result.items end.now }
{
    bytes_of_end(end)
}

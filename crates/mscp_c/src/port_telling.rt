// How what a port wants is told.

ghost use Rattle.std.specs.Prelude.{◌≡◌, ◌≤◌, length};
ghost use Rattle.mscp_c.specs.Common.{move_byte, action_told, bytes_wanted, next_code, of_kind, of_memory, of_transfer, serial_told, with_bytes};

use crate::outs::ActionOut;
use crate::status::{DONE, NOTHING};
use mscp_memory::Policy;
use mscp_packet::MoveKind;
use mscp_port::{Action, Port};

/// The kinds of what it wants.
const PAUSE: u8 = 1;

const READ: u8 = 2;

const WRITE: u8 = 3;

const INTERRUPT: u8 = 4;

const TRANSFER: u8 = 5;

/// The bytes of a slot of a ring.
const SLOT: usize = 4;

/// The opcode of a transfer.
fn opcode_of(kind: MoveKind) -> u8
    ensures { result ≡ move_byte kind }
{
    match kind {
        MoveKind::Access => 16,
        MoveKind::Erase => 18,
        MoveKind::Compare => 32,
        MoveKind::Read => 33,
        MoveKind::Write => 34,
    }
}

/// It is of this kind, and nothing else is told of it.
fn tell_kind(out: &mut ActionOut, kind: u8)
    ensures { out.new ≡ of_kind kind out.old }
{
    out.serial = 0;
    out.address = 0;
    out.count = 0;
    out.block = 0;
    out.unit = 0;
    out.vector = 0;
    out.kind = kind;
    out.opcode = 0;
}

/// It is about so many bytes of host memory from an address on.
fn tell_memory(out: &mut ActionOut, kind: u8, address: u32, count: u32)
    ensures { out.new ≡ of_memory kind address count out.old }
{
    tell_kind(out, kind);
    out.address = address;
    out.count = count;
}

/// These bytes are to be written to host memory.
fn tell_write(out: &mut ActionOut, address: u32, count: u32, bytes: &[u8])
    requires { length bytes.now ≤ 64 }
    ensures { out.new ≡ with_bytes bytes.now (of_memory WRITE address count out.old) }
{
    tell_memory(out, WRITE, address, count);
    // Most are slots, which are copied without a call.
    if bytes.len() == SLOT {
        out.bytes[..SLOT].copy_from_slice(bytes);
    } else {
        out.bytes[..bytes.len()].copy_from_slice(bytes);
    }
}

/// A block of this serial is to be moved, to so many bytes of host memory from an address on, or from them.
fn tell_transfer(
    out: &mut ActionOut,
    serial: u64,
    kind: MoveKind,
    unit: u16,
    block: u32,
    address: u32,
    count: u32,
)
    ensures { out.new ≡ of_transfer serial kind unit block address count out.old }
{
    tell_memory(out, TRANSFER, address, count);
    out.serial = serial;
    out.block = block;
    out.unit = unit;
    out.opcode = opcode_of(kind);
}

/// Tells what a port wants done next.
pub(crate) fn tell_action(out: &mut ActionOut, port: &Port<Policy>, action: Action) -> i32
    ensures code { result ≡ next_code action }
    ensures told { out.new ≡ action_told action (bytes_wanted port.now port.now.task) (serial_told port.now) out.old }
{
    match action {
        Action::Rest => return NOTHING,
        Action::Pause => tell_kind(out, PAUSE),
        Action::Read { address, count } => tell_memory(out, READ, address, count),
        Action::Write { address, count } => tell_write(
            out,
            address,
            count,
            port.bytes().as_slice(),
        ),
        Action::Interrupt(vector) => {
            tell_kind(out, INTERRUPT);
            out.vector = vector;
        }
        Action::Transfer {
            kind,
            unit,
            block,
            address,
            count,
        } => tell_transfer(
            out,
            port.serial().unwrap_or(0),
            kind,
            unit,
            block,
            address,
            count,
        ),
    }
    DONE
}

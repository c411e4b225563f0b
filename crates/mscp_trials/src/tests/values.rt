// Units, configurations, commands, ends and reports that several tests are about.

use mscp_controller::{Config, Connection, Report};
use mscp_drive::{Unit, Units};
use mscp_packet::{Command, End, EndBody, MoveKind, Order};
use std::process::Abort;

pub const FIRST: Connection = Connection::First;

pub const SECOND: Connection = Connection::Second;

/// A unit of 1000 blocks, 20 of them a cylinder.
pub fn unit(rt: &impl Abort, number: u16) -> Unit {
    Unit::new(number, 10, 2, 1, 1000, 1, 0, 1)
        .ok()
        .expect(rt, "no size is zero")
}

/// The configuration of these credits of both connections, this budget and these units, with the longest transfer of 8
/// blocks.
pub fn limits(
    rt: &impl Abort,
    (credits, second): (u32, u32),
    budget: u64,
    units: &[Unit],
) -> Config {
    let units = Units::new(units).ok().expect(rt, "numbers that rise");
    Config::new(credits, second, budget, 8, 60, 1, units)
        .ok()
        .expect(rt, "limits that a controller can keep")
}

/// The same of one connection, and of unit 0 alone.
pub fn config(rt: &impl Abort, credits: u32, budget: u64) -> Config {
    limits(rt, (credits, 0), budget, &[unit(rt, 0)])
}

/// A command to unit 0.
pub fn command(reference: u32, order: Order) -> Command {
    Command {
        reference,
        unit: 0,
        order,
    }
}

/// A READ of so many bytes of unit 0, from a block on.
pub fn read(reference: u32, bytes: u32, block: u32) -> Command {
    command(reference, Order::Move(MoveKind::Read, bytes, block))
}

/// The end of a command to unit 0.
pub fn ended(reference: u32, code: u8, status: u16, body: EndBody) -> End {
    End {
        reference,
        unit: 0,
        code,
        status,
        body,
    }
}

/// The end of a READ, with this status and so many bytes.
pub fn read_ended(reference: u32, status: u16, bytes: u32) -> End {
    ended(reference, 0xA1, status, EndBody::Moved(bytes))
}

/// The end of an ABORT of the other command.
pub fn abort_ended(reference: u32, other: u32) -> End {
    ended(reference, 0x81, 0, EndBody::Abort(other))
}

/// The end of an ONLINE of the unit above.
pub fn online_ended(reference: u32) -> End {
    let body = EndBody::Online {
        id: 1,
        media: 0,
        size: 1000,
        serial: 1,
    };
    ended(reference, 0x89, 0, body)
}

/// A step of a command to unit 0: the block that it touches, whether it is the first one, how many cylinders the head
/// crosses, and the end that it brings.
pub fn served(
    connection: Connection,
    reference: u32,
    lbn: Option<u32>,
    started: bool,
    seek: u32,
    ended: Option<End>,
) -> Report {
    Report::Served {
        connection,
        reference,
        unit: 0,
        lbn,
        started,
        seek,
        ended,
    }
}

/// These bytes, and zeros behind them.
pub fn padded<const COUNT: usize>(start: &[u8]) -> [u8; COUNT] {
    let mut all = [0; COUNT];
    for (byte, given) in all.iter_mut().zip(start) {
        *byte = *given;
    }
    all
}

/// The message of a READ of at most 65535 bytes of a unit, from a block on.
pub fn read_message(reference: u8, unit: u8, bytes: u16, block: u8) -> [u8; 32] {
    let [low, high] = bytes.to_le_bytes();
    let mut message = padded(&[reference, 0, 0, 0, unit, 0, 0, 0, 0x21, 0, 0, 0, low, high]);
    message[28] = block;
    message
}

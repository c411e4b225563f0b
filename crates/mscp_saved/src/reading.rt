// The parts of a saved controller from bytes. They are read into lists where those lie: none is made and then moved.

ghost use Rattle.std.specs.Prelude.{◌≡◌, ◌+◌, ◌*◌, ◌≤◌, ◌++◌, length};
ghost use Rattle.mscp_saved.specs.Common.{array_vec_len, command_of, order_weight, begun_in, connection_in, drive_in, end_in, part, parts_in, sized, unit_in, waiting_in, shape};

use arrayvec::ArrayVec;
use mscp_controller::{Connection, Drive, Name, Record};
use mscp_drive::{Head, Unit};
use mscp_packet::fields::{eight_at, four_at, two_at};
use mscp_packet::{Command, End, EndBody, Order, read_command, read_end};

/// The bytes of the part at a place, where all parts have one size.
pub fn part(b: &[u8], size: usize, place: usize) -> &[u8]
    requires { size * place + size ≤ length b.now }
    ensures value { result.now ≡ part size place b.now }
    ensures len { length result.now ≡ size }
{
    &b[size * place..][..size]
}

/// The connection of a number.
pub fn connection_in(byte: u8) -> Connection
    ensures { result ≡ connection_in byte }
{
    if byte == 1 {
        Connection::First
    } else {
        Connection::Second
    }
}

/// The unit of these sizes and identifiers, or one of one block where a size is zero.
fn sized(
    number: u16,
    track: u16,
    group: u16,
    cylinder: u16,
    size: u32,
    id: u64,
    media: u32,
    serial: u32,
) -> Unit
    ensures { result ≡ sized (shape number track group cylinder size id media serial) }
{
    match Unit::new(number, track, group, cylinder, size, id, media, serial) {
        Ok(unit) => unit,
        Err(_) => Unit::default(),
    }
}

/// The unit in the bytes of a drive.
fn unit_in(b: &[u8]) -> Unit
    requires { length b.now ≡ 34 }
    ensures { result ≡ unit_in b.now }
{
    sized(
        two_at(b, 0),
        two_at(b, 2),
        two_at(b, 4),
        two_at(b, 6),
        four_at(b, 8),
        eight_at(b, 12),
        four_at(b, 20),
        four_at(b, 24),
    )
}

/// The drive in the bytes of one.
fn drive_in(b: &[u8]) -> Drive
    requires { length b.now ≡ 34 }
    ensures { result ≡ drive_in b.now }
{
    let head = Head {
        cylinder: four_at(b, 30),
        up: b[29] == 1,
    };
    Drive {
        unit: unit_in(b),
        online: b[28] == 1,
        head,
    }
}

/// Appends so many drives, behind one another from the first byte on.
pub(crate) fn read_drives(drives: &mut ArrayVec<Drive, 16>, b: &[u8], count: usize)
    requires few { array_vec_len drives.old + count ≤ 16 }
    requires long { 34 * count ≤ length b.now }
    ensures items { drives.new.items ≡ drives.old.items ++ parts_in drive_in 34 count b.now }
    ensures len { array_vec_len drives.new ≡ array_vec_len drives.old + count }
{
    for place in 0..count {
        drives.push(drive_in(part(b, 34, place)));
    }
}

/// The command in the bytes of a message.
fn command_in(b: &[u8]) -> Command
    requires { length b.now ≡ 32 }
    ensures { result ≡ command_of b.now }
{
    let Ok(command) = read_command(b) else {
        unreachable!();
    };
    command
}

/// How many steps an order takes: one for each block of a transfer, and at least one.
fn weight_of(order: &Order) -> u32
    ensures { result ≡ order_weight order.now }
{
    match order {
        Order::Move(_, count, _) => count.div_ceil(512).max(1),
        _ => 1,
    }
}

/// The waiting command in the bytes of one.
fn waiting_in(b: &[u8]) -> Record
    requires { length b.now ≡ 41 }
    ensures { result ≡ waiting_in b.now }
{
    let command = command_in(&b[..32]);
    let record = Record::new(connection_in(b[40]), command, weight_of(&command.order));
    record.resumed(four_at(b, 32), four_at(b, 36))
}

/// Appends so many waiting commands, behind one another from the first byte on.
pub(crate) fn read_waiting(waiting: &mut ArrayVec<Record, 64>, b: &[u8], count: usize)
    requires few { array_vec_len waiting.old + count ≤ 64 }
    requires long { 41 * count ≤ length b.now }
    ensures items { waiting.new.items ≡ waiting.old.items ++ parts_in waiting_in 41 count b.now }
    ensures len { array_vec_len waiting.new ≡ array_vec_len waiting.old + count }
{
    for place in 0..count {
        waiting.push(waiting_in(part(b, 41, place)));
    }
}

/// The end in the bytes of one, or what is read as one and is none.
fn end_in(b: &[u8]) -> End
    requires { length b.now ≡ 48 }
    ensures { result ≡ end_in b.now }
{
    match read_end(b) {
        Ok(end) => end,
        Err(_) => End {
            reference: 0,
            unit: 0,
            code: 0,
            status: 0,
            body: EndBody::Bare,
        },
    }
}

/// Appends so many ends, behind one another from the first byte on.
pub(crate) fn read_ends(ends: &mut ArrayVec<End, 64>, b: &[u8], count: usize)
    requires few { array_vec_len ends.old + count ≤ 64 }
    requires long { 48 * count ≤ length b.now }
    ensures items { ends.new.items ≡ ends.old.items ++ parts_in end_in 48 count b.now }
    ensures len { array_vec_len ends.new ≡ array_vec_len ends.old + count }
{
    for place in 0..count {
        ends.push(end_in(part(b, 48, place)));
    }
}

/// What was begun, by the head, if something was.
pub(crate) fn begun_in(b: &[u8]) -> Option<Name>
    requires { 48 ≤ length b.now }
    ensures { result ≡ begun_in b.now }
{
    if b[43] == 0 {
        return None;
    }
    Some(Name {
        connection: connection_in(b[43]),
        reference: four_at(b, 44),
    })
}

// The tags of commands. Two that may be sought together have the same tag: so one whose tag is another isn't sought.

ghost use Rattle.std.specs.Prelude.{◌≡◌, ℕ, ◌<◌, ◌≤◌, ◌^◌, ◌%◌, ◌||◌, get_or, length, nat_eq, IfSome, Some, false, true};
ghost use Rattle.mscp_wire.specs.Kept as kept;
ghost use Rattle.mscp_wire.specs.Sought.{is_sought};
ghost use Rattle.mscp_wire.specs.declared.sent.Sent as sents;

use crate::held::Sought;
use crate::sent::{Sent, is_ordered, is_sequential};
use mscp_drive::Connection;
use mscp_packet::{is_immediate, opcodes};
use std::alloc::Allocator;

/// The tag of no command.
const NONE: u16 = u16::MAX;

/// The tag for a number of a connection, of commands that are answered when they arrive or of others. It has 16 bits,
/// of which a machine looks at many at once.
#[inline(always)]
fn tag(connection: Connection, number: u64, immediate: bool) -> u16
    requires { number < 2 ^ 40 }
    ensures { result ≡ kept.tag connection number immediate }
{
    let whole = 4 * number + u64::from(connection == Connection::Second) * 2 + u64::from(immediate);
    (whole % 65_536) as u16
}

/// The number for what a command names that is about another one.
fn about(parameter: Option<u32>) -> u64
    ensures tag { result ≡ kept.about parameter }
    ensures bound { result < 2 ^ 40 }
{
    match parameter {
        Some(other) => 65_538 + u64::from(other),
        None => 65_537,
    }
}

/// The number of a command that isn't in its unit's line.
fn aside(command: &Sent) -> u64
    ensures tag { result ≡ kept.aside command.now }
    ensures bound { result < 2 ^ 40 }
{
    if command.opcode == opcodes::ABORT || command.opcode == opcodes::GET_COMMAND_STATUS {
        return about(command.parameter);
    }
    if command.opcode == opcodes::GET_UNIT_STATUS && !command.next {
        u64::from(command.unit)
    } else {
        65_536
    }
}

/// The tag of a command.
fn tag_of(command: &Sent) -> u16
    ensures { result ≡ kept.tag_of command.now }
{
    if is_sequential(command.opcode) || is_ordered(command.opcode) {
        return tag(command.connection, u64::from(command.unit), false);
    }
    tag(
        command.connection,
        aside(command),
        is_immediate(command.opcode),
    )
}

/// The tag of what stands in a cell.
pub(crate) fn tag_if(cell: &Option<Sent>) -> u16
    ensures { result ≡ kept.tag_if cell.now }
{
    match cell {
        Some(command) => tag_of(command),
        None => NONE,
    }
}

/// Each cell has the tag of what stands in it.
pub(crate) fn tag_all<A: Allocator>(tags: &mut Vec<u16, A>, cells: &[Option<Sent>])
    requires { length cells.now ≤ length tags.old.items }
    ensures { kept.AreTagged cells.now tags.new.items }
{
    for at in 0..cells.len() {
        tags[at] = tag_if(&cells[at]);
    }
}

/// The tag of commands that are about this one.
fn tag_about(command: &Sent) -> u16
    ensures { result ≡ kept.tag command.now.connection (kept.about (Some command.now.reference)) true }
{
    tag(command.connection, about(Some(command.reference)), true)
}

/// The tag of those in the line of a unit.
fn tag_lined(connection: Connection, unit: u16) -> u16
    ensures { result ≡ kept.tag connection unit false }
{
    tag(connection, u64::from(unit), false)
}

/// The tags of GET UNIT STATUS of this one's unit, and of the next one.
fn tags_beside(command: &Sent) -> (u16, u16)
    ensures unit { result.0 ≡ kept.tag command.now.connection command.now.unit true }
    ensures next { result.1 ≡ kept.tag command.now.connection 65536 true }
{
    (
        tag(command.connection, u64::from(command.unit), true),
        tag(command.connection, 65_536, true),
    )
}

/// Two tags of which each has one that is sought, if there are such.
pub(crate) fn tags_of(sought: &Sought) -> Option<(u16, u16)>
    ensures { IfSome result (λ tags. (s : sents.Sent) → is_sought sought.now s ≡ true
        → (nat_eq (kept.tag_of s) tags.0 || nat_eq (kept.tag_of s) tags.1) ≡ true) }
{
    match sought {
        Sought::AbortOf(other) => Some((tag_about(other), tag_about(other))),
        Sought::PollOf(other) => Some((tag_about(other), tag_about(other))),
        Sought::Keeping(other) => {
            let tag = tag_lined(other.connection, other.unit);
            Some((tag, tag))
        }
        Sought::Turning(connection, unit) => {
            let tag = tag_lined(*connection, *unit);
            Some((tag, tag))
        }
        Sought::Beside(other) => Some(tags_beside(other)),
        Sought::Named(_, _) | Sought::WaitedFor(_) => None,
    }
}

/// What is left over of the tag of each command for which the host of a connection waits, if it is divided by 4.
pub(crate) fn tag_waiting(connection: Connection) -> u16
    ensures { result ≡ kept.tag connection 0 false }
{
    tag(connection, 0, false)
}

/// Whether this is one of these tags. It looks at all: so a machine looks at some at once.
fn have(tags: &[u16], tag: u16) -> bool
    ensures { result ≡ false → (i : ℕ) → i < length tags.now → nat_eq (get_or tags.now i 0) tag ≡ false }
{
    let mut found = false;
    for at in 0..tags.len() {
        if tags[at] == tag {
            found = true;
        }
    }
    found
}

/// Whether one of two is.
pub(crate) fn have_either(tags: &[u16], one: u16, other: u16) -> bool
    ensures { result ≡ false → (i : ℕ) → i < length tags.now
        → (nat_eq (get_or tags.now i 0) one || nat_eq (get_or tags.now i 0) other) ≡ false }
{
    if one == other {
        return have(tags, one);
    }
    have(tags, one) || have(tags, other)
}

/// Whether this is left over of one of them, if it is divided by 4.
pub(crate) fn have_left(tags: &[u16], left: u16) -> bool
    ensures { result ≡ false → (i : ℕ) → i < length tags.now
        → nat_eq (get_or tags.now i 0 % 4) left ≡ false }
{
    let mut found = false;
    for at in 0..tags.len() {
        if tags[at] % 4 == left {
            found = true;
        }
    }
    found
}

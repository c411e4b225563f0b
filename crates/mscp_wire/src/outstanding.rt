// What an end owes to the commands that are outstanding beside its own.

ghost use Rattle.std.specs.Prelude.{◌≡◌, ◌+◌, drop, IsSome};
ghost use Rattle.mscp_wire.specs.Wire as wire;
ghost use Rattle.mscp_wire.specs.Kept.{cell, place, sents};

use crate::answer::{Answer, is_it};
use crate::commands::Commands;
use crate::held::Sought;
use crate::sent::{Sent, is_ordered, is_sequential};
use mscp_packet::{codes, opcodes};
use std::alloc::Allocator;

/// Whether a command is an ABORT of another.
pub(crate) fn aborts(command: &Sent, abort: &Sent) -> bool
    ensures { result ≡ wire.aborts command.now abort.now }
{
    abort.connection == command.connection
        && abort.opcode == opcodes::ABORT
        && is_it(abort.parameter, command.reference)
}

/// Whether the command in a cell is aborted only while an ABORT of it is outstanding that came after it.
pub(crate) fn has_abort<A: Allocator + Copy>(
    commands: &Commands<A>,
    at: usize,
    command: &Sent,
    answer: &Answer,
) -> bool
    requires { IsSome (cell commands.now at) }
    ensures { result ≡ wire.has_abort (drop (place commands.now at + 1) (sents commands.now)) command.now answer.now }
{
    answer.status_code() != codes::ABORTED || commands.has_behind(at, &Sought::AbortOf(*command))
}

/// Whether an earlier command keeps another back: both are of one unit, and one of them is sequential.
pub(crate) fn keeps_back(command: &Sent, earlier: &Sent) -> bool
    ensures { result ≡ wire.keeps_back command.now earlier.now }
{
    if earlier.connection != command.connection || earlier.unit != command.unit {
        return false;
    }
    if is_sequential(earlier.opcode) {
        return is_sequential(command.opcode) || is_ordered(command.opcode);
    }
    is_ordered(earlier.opcode) && is_sequential(command.opcode)
}

/// Whether a status of this code may come before earlier commands of the unit end.
pub(crate) fn is_apart(code: u16) -> bool
    ensures { result ≡ wire.is_apart code }
{
    code == codes::INVALID_COMMAND || code == codes::ABORTED || code == codes::UNIT_OFFLINE
}

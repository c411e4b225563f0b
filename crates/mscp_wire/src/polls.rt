// What polls ask of commands that are outstanding, and what those hear of them.

ghost use Rattle.std.specs.Prelude.{◌≡◌, ◌+◌, ◌<◌, drop, length, map, set, find, option_map, IsSome};
ghost use Rattle.std.specs.List.{list_any};
ghost use Rattle.mscp_wire.specs.Wire as wire;
ghost use Rattle.mscp_wire.specs.Kept as kept;

use crate::answer::{Answer, is_it};
use crate::cells::Cells;
use crate::commands::Commands;
use crate::held::Sought;
use crate::sent::{Asked, Sent};
use mscp_drive::Connection;
use mscp_packet::{is_immediate, opcodes};
use std::alloc::Allocator;

/// Whether a command of this connection isn't answered when it arrives, so that its host waits for it.
pub(crate) fn waits_on(connection: Connection, command: &Sent) -> bool
    ensures { result ≡ wire.waits_on connection command.now }
{
    command.connection == connection && !is_immediate(command.opcode)
}

/// Whether it has this reference number, if it is there.
fn has_number(command: Option<Sent>, reference: u32) -> bool
    ensures { result ≡ wire.has_number command reference }
{
    match command {
        Some(command) => command.reference == reference,
        None => false,
    }
}

/// Whether a command is the oldest that its host waits for.
fn is_oldest<A: Allocator + Copy>(commands: &Commands<A>, command: &Sent) -> bool
    ensures { result ≡ wire.is_oldest (kept.sents commands.now) command.now }
{
    !is_immediate(command.opcode)
        && has_number(commands.oldest_on(command.connection), command.reference)
}

/// Whether a poll of this time comes sooner than a controller timeout of so many seconds after one of that time. It
/// isn't known if a time isn't, or if no timeout was told.
pub fn is_hasty(timeout: Option<u16>, last: Option<u64>, time: Option<u64>) -> bool
    ensures { result ≡ wire.is_hasty timeout last time }
{
    match (timeout, last, time) {
        (Some(timeout), Some(last), Some(time)) => {
            time.saturating_sub(last) < u64::from(timeout) * 1_000_000_000
        }
        _ => false,
    }
}

/// Whether a poll of a command may ask it for its figure.
fn may_ask<A: Allocator + Copy>(
    timeout: Option<u16>,
    commands: &Commands<A>,
    poll: &Sent,
    command: &Sent,
) -> bool
    ensures { result ≡ wire.may_ask timeout (kept.sents commands.now) poll.now command.now }
{
    command.unit == poll.unit
        && is_oldest(commands, command)
        && !is_hasty(timeout, command.polled, poll.time)
}

/// What a poll asks of the command that has the number which it names, if there is one.
fn asked_about<A: Allocator + Copy>(
    timeout: Option<u16>,
    commands: &Commands<A>,
    poll: &Sent,
    named: Option<Sent>,
) -> Asked
    ensures { result ≡ wire.asked_about timeout (kept.sents commands.now) poll.now named }
{
    match named {
        None => Asked::Gone(Some(0)),
        Some(command) => {
            if may_ask(timeout, commands, poll, &command) {
                Asked::Oldest(command.told)
            } else {
                Asked::Nothing
            }
        }
    }
}

/// The same by that number. Of itself a poll may tell any.
fn asked_by<A: Allocator + Copy>(
    timeout: Option<u16>,
    commands: &Commands<A>,
    poll: &Sent,
    named: Option<u32>,
) -> Asked
    ensures { result ≡ wire.asked_by timeout (kept.sents commands.now) poll.now named }
{
    match named {
        Some(other) if other != poll.reference => {
            let command = commands.find_named(poll.connection, other);
            asked_about(timeout, commands, poll, command)
        }
        _ => Asked::Nothing,
    }
}

/// A command, once it is known what it asks as a poll of those that are outstanding, by the controller timeout.
pub(crate) fn asking<A: Allocator + Copy>(
    timeout: Option<u16>,
    commands: &Commands<A>,
    command: &Sent,
) -> Sent
    ensures { result ≡ wire.asking timeout (kept.sents commands.now) command.now }
{
    let asked = if command.opcode == opcodes::GET_COMMAND_STATUS {
        asked_by(timeout, commands, command, command.parameter)
    } else {
        Asked::Nothing
    };
    Sent { asked, ..*command }
}

/// Whether a figure is lower than the last one, if there is one.
fn is_below(last: Option<u32>, figure: u32) -> bool
    ensures { result ≡ wire.is_below last figure }
{
    match last {
        Some(last) => figure < last,
        None => true,
    }
}

/// Whether a figure may be told that isn't 0. Whether a command of its number came since is said.
fn may_be(asked: Asked, came: bool, figure: u32) -> bool
    ensures { result ≡ wire.may_be asked came figure }
{
    match asked {
        Asked::Nothing => true,
        Asked::Oldest(last) => is_below(last, figure),
        Asked::Gone(last) => came || is_below(last, figure),
    }
}

/// Whether a figure may be told. 0 says that the command isn't outstanding: its end may be on the way.
fn may_tell(asked: Asked, came: bool, figure: Option<u32>) -> bool
    ensures { result ≡ wire.may_tell asked came figure }
{
    match figure {
        Some(figure) => figure == 0 || may_be(asked, came, figure),
        None => false,
    }
}

/// Whether it matters for a figure that isn't 0 if a command of its number came since.
fn asks_gone(asked: Asked) -> bool
    ensures { result ≡ kept.asks_gone asked }
{
    matches!(asked, Asked::Gone(_))
}

/// Whether the figure that an end tells is right, if its command, which stands in a cell, is a poll of this other one.
pub(crate) fn has_figure<A: Allocator + Copy>(
    commands: &Commands<A>,
    at: usize,
    poll: &Sent,
    answer: &Answer,
    polled: Option<u32>,
) -> bool
    requires { IsSome (kept.cell commands.now at) }
    ensures { result ≡ wire.has_figure (drop (kept.place commands.now at + 1) (kept.sents commands.now)) poll.now
        answer.now polled }
{
    match polled {
        Some(other) => {
            let came = asks_gone(poll.asked)
                && !is_it(answer.figure, 0)
                && commands.has_behind(at, &Sought::Named(answer.connection, other));
            may_tell(poll.asked, came, answer.figure)
        }
        None => true,
    }
}

/// Whether a poll asks of the oldest command.
pub(crate) fn asks_oldest(asked: Asked) -> bool
    ensures { result ≡ wire.asks_oldest asked }
{
    matches!(asked, Asked::Oldest(_))
}

/// Whether another command is a poll of this one.
pub fn polls(command: &Sent, other: &Sent) -> bool
    ensures { result ≡ wire.polls command.now other.now }
{
    other.connection == command.connection
        && other.opcode == opcodes::GET_COMMAND_STATUS
        && is_it(other.parameter, command.reference)
}

/// What a poll asks once the command that it names ended.
pub(crate) fn left(asked: Asked) -> Asked
    ensures { result ≡ wire.left asked }
{
    match asked {
        Asked::Oldest(last) => Asked::Gone(last),
        _ => Asked::Nothing,
    }
}

/// Another command, once one ended.
pub(crate) fn leaves(ended: &Sent, other: &Sent) -> Sent
    ensures { result ≡ kept.leaves ended.now other.now }
{
    if polls(ended, other) {
        Sent {
            asked: left(other.asked),
            ..*other
        }
    } else {
        *other
    }
}

/// A command, if it has this name, once a poll of this time told this figure of it.
pub(crate) fn tells(
    name: (Connection, u32),
    figure: Option<u32>,
    time: Option<u64>,
    command: &Sent,
) -> Sent
    ensures { result ≡ kept.tells name.0 name.1 figure time command.now }
{
    if command.is_named(name.0, name.1) {
        Sent {
            told: figure,
            polled: time,
            ..*command
        }
    } else {
        *command
    }
}

/// What stands in a cell, once such a poll told it.
fn tell_in<A: Allocator + Copy>(
    cells: &mut Cells<A>,
    at: usize,
    name: (Connection, u32),
    figure: Option<u32>,
    time: Option<u64>,
)
    requires { at < length cells.old }
    ensures { cells.new ≡ set cells.old at
        (option_map (kept.tells name.0 name.1 figure time) (kept.cell cells.old at)) }
{
    if let Some(command) = cells.as_slice()[at] {
        cells.put(at, Some(tells(name, figure, time, &command)));
    }
}

/// What stands in all of them, once such a poll told it.
pub(crate) fn tell_all<A: Allocator + Copy>(
    cells: &mut Cells<A>,
    name: (Connection, u32),
    figure: Option<u32>,
    time: Option<u64>,
)
    ensures { kept.sents cells.new ≡ map (kept.tells name.0 name.1 figure time) (kept.sents cells.old) }
{
    for at in 0..cells.len() {
        tell_in(cells, at, name, figure, time);
    }
}

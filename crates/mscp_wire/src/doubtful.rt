// What of an end hardly any controller does, though no rule forbids it.

ghost use Rattle.std.specs.Prelude.{◌≡◌};
ghost use Rattle.mscp_wire.specs.Doubts as doubt;
ghost use Rattle.mscp_wire.specs.Wire as wire;

use crate::answer::Answer;
use crate::doubts::Doubtful;
use crate::identity::{Identity, agrees};
use crate::sent::{Sent, is_transfer, is_unknown};
use crate::told::Told;
use crate::units::Units;
use mscp_packet::{codes, endcodes, opcodes};
use std::alloc::Allocator;

/// The most blocks that all copies of a replacement and caching table have: 65,535 in each of 255.
const MOST_BLOCKS: u32 = 16_711_425;

/// Whether an end of SET UNIT CHARACTERISTICS tells of a unit another identity than this, if that is there.
fn is_another(identity: Option<Identity>, answer: &Answer) -> bool
    ensures { result ≡ doubt.is_another identity answer.now }
{
    match identity {
        Some(known) => {
            answer.code == endcodes::SET_UNIT_CHARACTERISTICS
                && answer.tells_unit()
                && !agrees(answer.identity, &known)
        }
        None => false,
    }
}

/// How many blocks stand behind a unit's size: those of its replacement and caching table.
fn blocks_behind(table: Option<u32>) -> u32
    ensures { result ≡ doubt.blocks_behind table }
{
    match table {
        Some(blocks) => blocks,
        None => MOST_BLOCKS,
    }
}

/// Whether so many bytes from a block on end behind them.
fn ends_past(size: Option<u32>, table: Option<u32>, block: Option<u32>, bytes: Option<u32>) -> bool
    ensures { result ≡ doubt.ends_past size table block bytes }
{
    match (size, block, bytes) {
        (Some(size), Some(block), Some(bytes)) => {
            let end = u64::from(block) + (u64::from(bytes) + 511) / 512;
            u64::from(size) + u64::from(blocks_behind(table)) < end
        }
        _ => false,
    }
}

/// Whether a transfer succeeded that ends there.
fn is_past(told: &Told, command: &Sent, answer: &Answer) -> bool
    ensures { result ≡ doubt.is_past told.now command.now answer.now }
{
    answer.is_moved()
        && answer.status_code() == codes::SUCCESS
        && told.state.is_single()
        && ends_past(
            told.noted.size,
            told.noted.table,
            command.block,
            command.parameter,
        )
}

/// Whether a command has no use for a status of this code (manual, "Status and Event Codes").
fn has_no_use(command: &Sent, code: u16) -> bool
    ensures { result ≡ doubt.has_no_use command.now code }
{
    let opcode = command.opcode;
    (code == codes::WRITE_PROTECTED
        && matches!(
            opcode,
            opcodes::ACCESS | opcodes::COMPARE_HOST_DATA | opcodes::READ
        ))
        || (code == codes::COMPARE_ERROR
            && !(opcode == opcodes::COMPARE_HOST_DATA || (is_transfer(opcode) && command.compares)))
        || (code == codes::HOST_BUFFER_ACCESS_ERROR
            && !matches!(
                opcode,
                opcodes::COMPARE_HOST_DATA | opcodes::READ | opcodes::WRITE
            ))
        || (opcode == opcodes::AVAILABLE
            && code >= codes::MEDIA_FORMAT_ERROR
            && code <= codes::HOST_BUFFER_ACCESS_ERROR)
}

/// Whether its status has such a code.
fn is_odd(command: &Sent, answer: &Answer) -> bool
    ensures { result ≡ doubt.is_odd command.now answer.now }
{
    answer.is_known() && !is_unknown(command.opcode) && has_no_use(command, answer.status_code())
}

/// Whether a WRITE or an ERASE succeeded, though its unit is protected from writing.
fn writes_protected(told: &Told, answer: &Answer) -> bool
    ensures { result ≡ doubt.writes_protected told.now answer.now }
{
    (answer.code == endcodes::WRITE || answer.code == endcodes::ERASE)
        && answer.status_code() == codes::SUCCESS
        && told.state.is_single()
        && told.noted.protected
}

/// Whether the next unit is asked for, and one is told that is above the named one, which is there.
fn skips<A: Allocator + Copy>(units: &Units<A>, command: &Sent, answer: &Answer) -> bool
    ensures { result ≡ doubt.skips (wire.kept units.now answer.now.connection command.now.unit) command.now answer.now }
{
    command.next
        && answer.code == endcodes::GET_UNIT_STATUS
        && (answer.status_code() == codes::SUCCESS || answer.status_code() == codes::UNIT_AVAILABLE)
        && command.unit < answer.unit
        && units.told(answer.connection, command.unit).noted.present
}

/// What is doubtful of the end of a command, by what was told before of units.
fn doubtful_end<A: Allocator + Copy>(units: &Units<A>, answer: &Answer, command: &Sent) -> Doubtful
    ensures { result ≡ doubt.doubtful_end (wire.kept units.now) (wire.kept_called units.now) answer.now command.now }
{
    let told = units.told(answer.connection, answer.unit);
    Doubtful {
        identity: is_another(told.identity, answer),
        size: is_past(&told, command, answer),
        status: is_odd(command, answer),
        protection: writes_protected(&told, answer),
        identifier: units.is_called_twice(answer),
        next: skips(units, command, answer),
        figure: false,
    }
}

/// The same, if it answers one.
pub(crate) fn doubtful_found<A: Allocator + Copy>(
    units: &Units<A>,
    answer: &Answer,
    command: Option<Sent>,
) -> Doubtful
    ensures { result ≡ doubt.doubtful_found (wire.kept units.now) (wire.kept_called units.now) answer.now command }
{
    match command {
        Some(command) => doubtful_end(units, answer, &command),
        None => Doubtful::nothing(),
    }
}

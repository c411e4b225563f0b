// How a message is judged when it comes.
//
// The order is fixed, since a driver sees which fault comes first: size, credits, the number in use, and then what the
// command asks for. Whether the last credit is enough is asked of the raw opcode byte, also of a message that is too
// short for its opcode, or unknown: so the last credit is kept for a poll or an ABORT.

ghost use Rattle.std.specs.Prelude.{◌≡◌, ◌+◌, ◌≤◌, ◌^◌, IfOk};
ghost use Rattle.mscp_controller.specs.Common.{judged, move_fault, unit_fault, version_fault, first_block, unit_found, weighed, weight};

use mscp_drive::Config;
use mscp_packet::status::{INVALID_VERSION, UNIT_OFFLINE};
use mscp_packet::{Command, Order};

/// The weight of a transfer to the unit, or the status that refuses it.
fn judge_move(config: &Config, number: u16, count: u32, block: u32) -> Result<u32, u16>
    ensures weight { result ≡ weighed (move_fault config.now count block (unit_found config.now number))
        (weight count) }
    ensures small { IfOk result (λ steps. block + steps ≤ 2 ^ 32) }
{
    match config.units().find(number) {
        Some(unit) => unit.check(block, count, config.longest()),
        None => Err(UNIT_OFFLINE),
    }
}

/// The weight of another command to the unit, or the status that refuses it.
fn judge_unit(config: &Config, number: u16) -> Result<u32, u16>
    ensures { result ≡ weighed (unit_fault (unit_found config.now number)) 1 }
{
    match config.units().find(number) {
        Some(_) => Ok(1),
        None => Err(UNIT_OFFLINE),
    }
}

/// The weight of SET CONTROLLER CHARACTERISTICS of this MSCP version, or the status that refuses it.
fn judge_version(version: u16) -> Result<u32, u16>
    ensures { result ≡ weighed (version_fault version) 1 }
{
    match version {
        0 => Ok(1),
        _ => Err(INVALID_VERSION),
    }
}

/// How many steps the command takes, or the status that refuses it.
pub(crate) fn judge(config: &Config, command: &Command) -> Result<u32, u16>
    ensures steps { result ≡ judged config.now command.now }
    ensures small { IfOk result (λ steps. first_block command.now.order + steps ≤ 2 ^ 32) }
{
    match command.order {
        Order::Invalid { status, .. } => Err(status),
        Order::Abort(_) | Order::Status(_) => Ok(1),
        Order::Move(_, count, block) => judge_move(config, command.unit, count, block),
        Order::SetController(version) => judge_version(version),
        _ => judge_unit(config, command.unit),
    }
}

// Beside which commands a GET UNIT STATUS is answered.
//
// It may be answered at any moment between its message and its end. So if an AVAILABLE or an ONLINE of its unit is
// outstanding at any time between, its end may tell what was so before it or after. One that asks for the next unit is
// beside one that is outstanding of the unit that its end names, and beside any that ended meanwhile, as it isn't
// known before which unit that is.

ghost use Rattle.std.specs.Prelude.{◌≡◌};
ghost use Rattle.mscp_wire.specs.Wire as wire;
ghost use Rattle.mscp_wire.specs.Kept as kept;

use crate::sent::Sent;
use mscp_drive::Connection;
use mscp_packet::opcodes;

/// Whether a command of this opcode changes the state of its unit: an AVAILABLE and an ONLINE do.
pub(crate) fn turns(opcode: u8) -> bool
    ensures { result ≡ wire.turns opcode }
{
    opcode == opcodes::AVAILABLE || opcode == opcodes::ONLINE
}

/// Whether a command does, and another is a GET UNIT STATUS of its unit, or of whichever is next.
pub(crate) fn turns_beside(command: &Sent, status: &Sent) -> bool
    ensures { result ≡ wire.turns_beside command.now status.now }
{
    turns(command.opcode)
        && status.opcode == opcodes::GET_UNIT_STATUS
        && status.connection == command.connection
        && (status.next || status.unit == command.unit)
}

/// Whether a command changes the state of this unit of a connection.
pub(crate) fn is_turning(connection: Connection, unit: u16, command: &Sent) -> bool
    ensures { result ≡ wire.is_turning connection unit command.now }
{
    turns(command.opcode) && command.connection == connection && command.unit == unit
}

/// Another command, once one that may have changed the state of its unit ended.
pub(crate) fn marked(ended: &Sent, other: &Sent) -> Sent
    ensures { result ≡ kept.besides ended.now other.now }
{
    if turns_beside(ended, other) {
        Sent {
            beside: true,
            ..*other
        }
    } else {
        *other
    }
}

// Commands that are a formality for a controller which has one path to each unit, no cache, and no data of its own to
// compare: DETERMINE ACCESS PATHS, COMPARE CONTROLLER DATA and FLUSH.
//
// They ask nothing of a disk, but no command may pass one in front of it that is sequential. If the port held one back
// in its slot, the polls after it would wait, too. So the controller gets an ACCESS of no bytes in the place of such a
// command: it waits for its turn, has a figure, and can be aborted. The port writes its own endcode into the end.

ghost use Rattle.std.specs.Prelude.{◌≡◌};
ghost use Rattle.mscp_port.specs.Formalities.{code_told, ends_formality, formal_status};

use crate::buffers::Buffer;
use mscp_packet::status::{ABORTED, SUCCESS};
use mscp_packet::{Command, MoveKind, Order, endcodes, port_answers};

/// Whether it is the endcode of one of them: the opcode with the top bit set, which no opcode has.
#[tactic(auto, unfolding(mscp_packet::specs::Opcodes::port_answers))]
pub(crate) fn ends_formality(code: u8) -> bool
    ensures { result ≡ ends_formality code }
{
    port_answers(code.wrapping_sub(endcodes::UNKNOWN))
}

/// What the controller gets in its place: an ACCESS of no bytes, of the same number and unit.
pub(crate) fn stand_in(command: Command) -> Command
    ensures { result ≡ record command { order = Order.Move MoveKind.Access 0 0 } }
{
    Command {
        order: Order::Move(MoveKind::Access, 0, 0),
        ..command
    }
}

/// The endcode that is told of an end with this code: that of the command that was read, of which this is kept.
#[tactic(auto, unfolding(mscp_packet::specs::Opcodes::port_answers))]
pub(crate) fn code_told(kept: Option<Buffer>, code: u8) -> u8
    ensures { result ≡ code_told kept code }
{
    match kept {
        Some(buffer) if port_answers(buffer.opcode) => buffer.opcode + endcodes::UNKNOWN,
        _ => code,
    }
}

/// The status that is told of one whose stand-in ended with this: it succeeds, unless it was aborted.
pub(crate) fn formal_status(status: u16) -> u16
    ensures { result ≡ formal_status status }
{
    if status == ABORTED { ABORTED } else { SUCCESS }
}

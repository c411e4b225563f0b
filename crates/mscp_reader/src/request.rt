// What a line asks for.

ghost use Rattle.std.specs.Prelude.{◌≡◌, true, is_some, length};
ghost use Rattle.mscp_packet.specs.Commands.{order_opcode};

use mscp_drive::{Block, Connection};
use mscp_packet::{Command, Order};

/// A command that is valid, as all are that a line names by words.
#[derive(Clone, Copy)]
pub struct ValidCommand {
    pub command: Command,
    pub ghost valid: { is_some (order_opcode command.order) ≡ true },
}

impl ValidCommand {
    /// The command of this reference number to this unit.
    pub(crate) fn new(reference: u32, unit: u16, order: Order) -> ValidCommand
        requires { is_some (order_opcode order) ≡ true }
        ensures { result.command ≡ record { reference = reference; unit = unit; order = order } }
    {
        ValidCommand {
            command: Command {
                reference,
                unit,
                order,
            },
        }
    }
}

/// What a line asks for. The digits of a message are borrowed from the script: room for its bytes would be cleared and
/// moved for each line.
#[derive(Clone, Copy)]
pub enum Request<'a> {
    /// The connection's host sends this command.
    Send(Connection, ValidCommand),
    /// The connection's host sends the message of these digits, two for each byte.
    Packet(Connection, &'a [u8]),
    /// The connection's host takes an end.
    Take(Connection),
    /// The drive serves so many blocks, each with this outcome. A line that is skipped asks for none.
    Steps(u32, Block),
    /// The figures of all waiting commands are asked for.
    Look,
}

impl Request<'_> {
    ghost use Rattle.mscp_reader.specs.Requests.{events_of};

    /// How many events it is.
    pub fn event_count(&self) -> usize
        ensures { result ≡ length (events_of self.now) }
    {
        match self {
            Request::Steps(count, _) => *count as usize,
            _ => 1,
        }
    }
}

// Commands as values.

ghost use Rattle.std.specs.Prelude.{◌≡◌};

use crate::asking::UNKNOWN_NAME;
use crate::class::{Class, Opcode};

/// The five transfers.
#[derive(Clone, Copy)]
pub enum MoveKind {
    /// ACCESS
    Access,
    /// ERASE
    Erase,
    /// COMPARE HOST DATA
    Compare,
    /// READ
    Read,
    /// WRITE
    Write,
}

/// What a command asks for (manual, "Command Messages").
#[derive(Clone, Copy)]
pub enum Order {
    /// ABORT of the command with this reference number.
    Abort(u32),
    /// GET COMMAND STATUS of the command with this reference number.
    Status(u32),
    /// GET UNIT STATUS
    UnitStatus,
    /// SET CONTROLLER CHARACTERISTICS with this MSCP version.
    SetController(u16),
    /// AVAILABLE
    Available,
    /// ONLINE
    Online,
    /// SET UNIT CHARACTERISTICS
    SetUnit,
    /// A transfer of so many bytes from this logical block on.
    Move(MoveKind, u32, u32),
    /// A message that is no valid command: its opcode byte, and the status that its end has, `INVALID_OPCODE` or
    /// `INVALID_LENGTH` of `status`.
    Invalid { opcode: u8, status: u16 },
}

impl Order {
    ghost use Rattle.mscp_packet.specs.Common.{ok_or, opcode_byte, order_class, order_name, order_opcode};

    /// The opcode, or the byte of what is no valid command.
    fn opcode(&self) -> Result<Opcode, u8>
        ensures { result ≡ ok_or (order_opcode self.now) (opcode_byte self.now) }
    {
        Ok(match self {
            Order::Abort(_) => Opcode::Abort,
            Order::Status(_) => Opcode::Status,
            Order::UnitStatus => Opcode::UnitStatus,
            Order::SetController(_) => Opcode::SetController,
            Order::Available => Opcode::Available,
            Order::Online => Opcode::Online,
            Order::SetUnit => Opcode::SetUnit,
            Order::Move(kind, ..) => Opcode::Move(*kind),
            Order::Invalid { opcode, .. } => return Err(*opcode),
        })
    }

    /// What the manual calls it.
    pub fn name(&self) -> &'static str
        ensures { result.now ≡ order_name self.now }
    {
        match self.opcode() {
            Ok(opcode) => opcode.row().name,
            Err(_) => UNKNOWN_NAME,
        }
    }

    /// How it is scheduled (manual, "Command Categories and Execution Order"): by its opcode's row of the table, and
    /// `Unknown` if it is no valid command's.
    pub fn class(&self) -> Class
        ensures { result ≡ order_class self.now }
    {
        self.opcode()
            .map_or(Class::Unknown, |opcode| opcode.row().class)
    }
}

/// A command: its reference number, the unit that it is for, and what it asks for (manual, "Command Messages").
#[derive(Clone, Copy)]
pub struct Command {
    pub reference: u32,
    pub unit: u16,
    pub order: Order,
}

impl Command {
    ghost use Rattle.mscp_packet.specs.Commands.{opcode_byte};

    /// The opcode byte that the command is written with.
    pub fn opcode(&self) -> u8
        ensures { result ≡ opcode_byte self.now.order }
    {
        match self.order.opcode() {
            Ok(opcode) => opcode.row().byte,
            Err(byte) => byte,
        }
    }
}

impl MoveKind {
    ghost use Rattle.mscp_packet.specs.Opcodes.{move_byte};

    /// The opcode byte of the transfer.
    pub fn opcode(self) -> u8
        ensures { result ≡ move_byte self }
    {
        Opcode::Move(self).row().byte
    }
}

// What a controller answers.

use arrayvec::ArrayVec;
use mscp_drive::Connection;
use mscp_packet::PacketFault;
use mscp_queue::Report;

/// Why a message is refused: the first that holds, in this order. Nothing is changed.
#[derive(Clone, Copy)]
pub enum SendFault {
    /// Under 12 bytes.
    Short,
    /// Over 64 bytes.
    Long,
    /// The connection's balance is 0.
    NoCredit,
    /// The connection's balance is 1, and the class of the opcode byte isn't Immediate.
    LastCredit,
    /// A command of the connection with this reference number waits, or its end wasn't taken.
    Doubled,
}

impl From<PacketFault> for SendFault {
    ghost use Rattle.std.specs.Prelude.{◌≡◌};
    ghost use Rattle.mscp_controller.specs.Sizes.{size_fault};

    ghost from_gives = { λ fault refusal. refusal ≡ size_fault fault };

    fn from(fault: PacketFault) -> SendFault {
        match fault {
            PacketFault::Short => SendFault::Short,
            PacketFault::Long => SendFault::Long,
        }
    }
}

/// Why a step can't be finished: no command of its connection and reference number is begun. Nothing is changed.
#[derive(Clone, Copy)]
pub struct NotBegun;

/// What became of a message: each names its reference number.
#[derive(Clone, Copy)]
pub enum Sent {
    /// The command waits for steps.
    Queued(u32),
    /// Its end was made at once, after that of the command that it aborted, if it did.
    Answered {
        reference: u32,
        aborted: Option<u32>,
    },
}

/// What a controller answers to an event.
#[derive(Drop)]
pub enum Entry {
    /// What became of the message of the connection, or why it was refused.
    Sent(Connection, Result<Sent, SendFault>),
    /// The connection's oldest end that wasn't taken before, as bytes.
    Taken(Connection, Option<ArrayVec<u8, 48>>),
    /// What the step did.
    Stepped(Report),
    /// Connection, reference number and figure of each waiting command, oldest first.
    Looked(ArrayVec<(Connection, u32, u32), 64>),
}

// How a step of a command goes, as the end of its command tells it.

ghost use Rattle.std.specs.Prelude.{◌≡◌, ◌≤◌};
ghost use Rattle.mscp_packet.specs.StatusCodes as codes;
ghost use Rattle.mscp_packet.specs.Statuses.{code_of};
ghost use Rattle.mscp_port.specs.Blocks.{block_of as block_after, block_told};

use crate::action::Outcome;
use mscp_packet::status;
use mscp_queue::{Block, FaultStatus};

/// How a step went. The port alone knows of volumes, so a status that a drive hands in never stands for one of theirs.
#[derive(Clone, Copy)]
pub(crate) enum Verdict {
    /// Its block was served so.
    Served(Block),
    /// No volume is in its unit, or another one than when its command came, with which the unit isn't online.
    NoVolume,
    /// Its unit isn't online with the volume that is in it.
    NotOnline,
}

/// A block that ends its command with this status.
fn bad(status: u16) -> Block
    requires { codes.media_format_error ≤ code_of status }
    ensures { result ≡ Block.Bad status }
{
    match FaultStatus::new(status) {
        Some(status) => Block::Bad(status),
        None => unreachable!(),
    }
}

/// How a block was served whose action went so.
pub(crate) fn block_of(outcome: Outcome) -> Block
    ensures { result ≡ block_after outcome }
{
    match outcome {
        Outcome::Done => Block::Good,
        Outcome::Missing => bad(status::MISSING),
        Outcome::Parity => bad(status::PARITY),
        Outcome::Unmapped => bad(status::UNMAPPED),
        Outcome::Different => bad(status::DIFFERENT),
        Outcome::Failed(status) => Block::Bad(status),
    }
}

impl Verdict {
    /// The step ends its command with this status.
    pub fn fault(status: u16) -> Verdict
        requires { codes.media_format_error ≤ code_of status }
        ensures { result ≡ Verdict.Served (Block.Bad status) }
    {
        Verdict::Served(bad(status))
    }

    /// What the controller is told, which doesn't know of volumes: a step that had none is a drive's error there.
    pub fn block(self) -> Block
        ensures { result ≡ block_told self }
    {
        match self {
            Verdict::Served(block) => block,
            Verdict::NoVolume | Verdict::NotOnline => bad(status::DRIVE_ERROR),
        }
    }
}

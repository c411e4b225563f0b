// What is told before a step.

ghost use Rattle.std.specs.Prelude.{◌≡◌, ◌+◌, ◌<◌, ◌^◌};
ghost use Rattle.mscp_queue.specs.Common.{first_block, upcoming_of};

use crate::drive::Drive;
use crate::plan::touched;
use crate::record::Record;
use mscp_drive::Connection;
use mscp_packet::Command;

/// What the next step serves: the command and the connection that it came by, the block that the step touches, how many
/// steps the command had, and how many it takes in all. `lbn` is none for a sequential command, and for a transfer
/// whose unit is available.
#[derive(Clone, Copy)]
pub struct Upcoming {
    pub connection: Connection,
    pub command: Command,
    pub lbn: Option<u32>,
    pub done: u32,
    pub weight: u32,
}

impl Upcoming {
    /// What the next step of the command serves.
    pub(crate) fn of(drive: &Drive, served: &Record) -> Upcoming
        requires { first_block served.now.command.order + served.now.done < 2 ^ 32 }
        ensures { result ≡ upcoming_of drive.now served.now }
    {
        Upcoming {
            connection: served.connection(),
            command: served.command(),
            lbn: touched(drive, served),
            done: served.done(),
            weight: served.weight(),
        }
    }
}

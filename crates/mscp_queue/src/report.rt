// What a step reports.

use mscp_drive::Connection;
use mscp_packet::End;

/// What a step did.
#[derive(Clone, Copy)]
pub enum Report {
    /// Nothing waits.
    Idle,
    /// The command of this connection, reference number and unit was served one block. `lbn` is the block that was
    /// touched, `started` says that it was the command's first step, `seek` is how many cylinders the head
    /// went, and `ended` is the end that it got.
    Served {
        connection: Connection,
        reference: u32,
        unit: u16,
        lbn: Option<u32>,
        started: bool,
        seek: u32,
        ended: Option<End>,
    },
}

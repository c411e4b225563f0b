// What goes over the wire.

use arrayvec::ArrayVec;
use mscp_drive::Connection;

/// What goes over the wire at one time.
#[derive(Drop)]
pub enum Moment {
    /// The host of a connection sends a message. If that is told, it does so at this time, in nanoseconds.
    Message(Connection, ArrayVec<u8, 64>, Option<u64>),
    /// The controller answers a connection's host with an end.
    End(Connection, ArrayVec<u8, 64>),
    /// The controller is initialised: nothing is outstanding any more.
    Reset,
    /// The connection of a host closes: none of its commands is outstanding any more.
    Closed(Connection),
}

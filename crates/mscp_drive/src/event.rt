// What comes to a controller.

use crate::block::Block;
use crate::connection::Connection;
use arrayvec::ArrayVec;

/// What comes to a controller.
#[derive(Drop)]
pub enum Event {
    /// A message of the connection's host.
    Send(Connection, ArrayVec<u8, 64>),
    /// The connection's host takes its oldest end.
    Take(Connection),
    /// The drive serves one block, with this outcome.
    Step(Block),
    /// The figures of all waiting commands are asked for.
    Look,
}

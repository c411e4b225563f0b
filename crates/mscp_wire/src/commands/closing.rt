// A connection that closes takes its commands away. They are sought from the youngest on, and only while there are
// some: so what stands behind them is passed, and came later than they did.

ghost use Rattle.std.specs.Prelude.{◌≡◌, ◌≢◌, ◌<◌, ℕ, false, length};
ghost use Rattle.mscp_wire.specs.Kept.{cell, is_on, sents, stands};
ghost use Rattle.mscp_wire.specs.Wire as wire;

use crate::commands::Commands;
use crate::tallies::is_on;
use mscp_drive::Connection;
use std::alloc::Allocator;

impl<A: Allocator + Copy> Commands<A> {
    /// The command in a cell isn't outstanding any more, if it is of this connection.
    fn close_in(&mut self, at: usize, connection: Connection)
        requires { at < length self.old }
        ensures others { wire.others_of connection (sents self.new) ≡ wire.others_of connection (sents self.old) }
        ensures cells { length self.new ≡ length self.old }
        ensures gone { stands (is_on connection) (cell self.new at) ≡ false }
        ensures same { (i : ℕ) → i ≢ at → cell self.new i ≡ cell self.old i }
    {
        if let Some(command) = self.cells.as_slice()[at] {
            if is_on(connection, &command) {
                self.remove(at);
            }
        }
    }

    /// None of a connection is.
    pub fn close(&mut self, connection: Connection)
        ensures { sents self.new ≡ wire.others_of connection (sents self.old) }
    {
        let mut at = self.cells.len();
        while at > 0 && self.count_on(connection) > 0 {
            at -= 1;
            self.close_in(at, connection);
        }
    }
}

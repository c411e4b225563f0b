// What tells commands apart.

ghost use Rattle.std.specs.Prelude.{◌≡◌};
ghost use Rattle.mscp_queue.specs.Names.{same_name};

use mscp_drive::Connection;

/// The name of a command that waits: the connection that it came by, and its reference number.
#[derive(Clone, Copy, Default)]
pub struct Name {
    pub connection: Connection,
    pub reference: u32,
}

impl Name {
    /// Whether both name the same command.
    pub(crate) fn is(self, other: Name) -> bool
        ensures { result ≡ same_name self other }
    {
        self.connection == other.connection && self.reference == other.reference
    }
}

// What stands before the text of a message that a port sends.

ghost use Rattle.std.specs.Prelude.{◌≡◌, ◌≤◌, length};
ghost use Rattle.mscp_host.specs.Messages.{envelope_in};

use mscp_packet::fields::two_at;

/// The envelope of a message from a port: the four bytes before its text (UQSSP, "Envelope Header").
#[derive(Clone, Copy)]
pub struct Envelope {
    /// How many bytes the text has.
    pub length: u16,
    /// How many credits it tells.
    pub credits: u8,
    /// The type of the message: 0 is a sequential message, 1 a datagram, 2 a notification of credits.
    pub kind: u8,
    /// The connection: 0 is that of the disks.
    pub connection: u8,
}

impl Envelope {
    /// The envelope that these four bytes are. Further ones are ignored.
    pub fn read(b: &[u8]) -> Envelope
        requires { 4 ≤ length b.now }
        ensures { result ≡ envelope_in b.now }
    {
        Envelope {
            length: two_at(b, 0),
            credits: b[2] % 16,
            kind: b[2] / 16,
            connection: b[3],
        }
    }
}

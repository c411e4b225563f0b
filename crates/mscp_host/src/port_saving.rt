// A host of a port to bytes.

ghost use Rattle.std.specs.Prelude.{◌≡◌, ◌+◌, ◌*◌, ◌≤◌, ◌<◌, ◌^◌, ◌++◌, [], flat_map, length, All, Ok};
ghost use Rattle.mscp_host.specs.Common.{array_vec_len};
ghost use Rattle.mscp_host.specs.PortRestored.{port_restored};
ghost use Rattle.mscp_host.specs.PortSaved.{HasAskedRange, HasPortRange, port_frame_bytes, port_saved_bytes, size_bytes};

use crate::asked::Asked;
use crate::port_host::PortHost;
use arrayvec::ArrayVec;
use mscp_packet::fields::{put, put_four, put_two};

/// The most bytes that a host of a port is saved as: a head, the bytes that 64 commands ask for, and a host.
pub const PORT_HOST_ROOM: usize = 1066;

/// "MSCD", as a number.
pub(crate) const MAGIC: u32 = 0x4443_534D;

/// The version of the format.
pub(crate) const VERSION: u32 = 1;

/// Appends what tells how long all is, with so many commands.
fn put_frame(out: &mut ArrayVec<u8, PORT_HOST_ROOM>, commands: usize)
    requires few { commands ≤ 64 }
    requires start { out.old.items ≡ [] }
    ensures items { out.new.items ≡ port_frame_bytes commands }
    ensures len { array_vec_len out.new ≡ 12 }
{
    put_four(out, MAGIC);
    put_four(out, VERSION);
    put_four(out, (42 + 16 * commands) as u32);
}

/// Appends how many bytes a command asks for.
fn put_size(out: &mut ArrayVec<u8, PORT_HOST_ROOM>, asked: Asked)
    requires { array_vec_len out.old + 4 ≤ 1066 }
    ensures items { out.new.items ≡ out.old.items ++ size_bytes asked }
    ensures len { array_vec_len out.new ≡ array_vec_len out.old + 4 }
    ensures range { HasAskedRange asked }
{
    put_four(out, asked.bytes);
}

/// Appends how many bytes each command asks for.
fn put_sizes(out: &mut ArrayVec<u8, PORT_HOST_ROOM>, commands: &[Asked])
    requires { array_vec_len out.old + 4 * length commands.now ≤ 1066 }
    ensures items { out.new.items ≡ out.old.items ++ flat_map size_bytes commands.now }
    ensures len { array_vec_len out.new ≡ array_vec_len out.old + 4 * length commands.now }
    ensures range { All HasAskedRange commands.now }
{
    for asked in commands {
        put_size(out, *asked);
    }
}

impl PortHost {
    /// All that it keeps, as bytes, at most `PORT_HOST_ROOM`, of which `PortHost::restore` makes it again. What is the
    /// same host has the same bytes. A `Watch` isn't part of it: its three numbers are the driver's.
    pub fn save(&self) -> ArrayVec<u8, PORT_HOST_ROOM>
        ensures bytes { result.items ≡ port_saved_bytes self.now }
        ensures range { HasPortRange self.now }
        ensures back { port_restored result.items ≡ Ok self.now }
    {
        let commands = self.asked.as_slice();
        let mut out = ArrayVec::new();
        put_frame(&mut out, commands.len());
        put_two(&mut out, self.credits);
        out.push(u8::from(self.is_over));
        out.push(commands.len() as u8);
        put_sizes(&mut out, commands);
        put(&mut out, self.host.save().as_slice());
        out
    }
}

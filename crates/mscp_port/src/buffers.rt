// What is kept of the commands that wait: where their data are in host memory.

ghost use Rattle.std.specs.Prelude.{◌≡◌, ◌<◌, ◌⊎◌, true, Contains, IfSome};
ghost use Rattle.mscp_port.specs.Common.{position, kept_of, IsInBuffer, is_of, kept_beside, part_of, without, without_aborted};
ghost use Rattle.mscp_port.specs.declared.buffers.Buffer.{Buffer as Kept};
ghost use Rattle.mscp_port.specs.Buffers.{buffer_in, byte_or_zero as byte_of, four_or_zero as four_of, two_or_zero as two_of};

use arrayvec::ArrayVec;
use mscp_packet::fields::{four_at, two_at};
use mscp_packet::port_answers;
use mscp_queue::Connection;

/// What is kept of a command that waits: what its message says that the controller doesn't read.
#[derive(Clone, Copy, Default)]
pub(crate) struct Buffer {
    pub reference: u32,
    pub opcode: u8,
    /// Where a transfer's data are in host memory, and how many bytes they have.
    pub address: u32,
    pub count: u32,
    pub modifiers: u16,
    /// The unit flags of ONLINE and SET UNIT CHARACTERISTICS.
    pub flags: u16,
    /// How often the volume of its unit had changed when it came.
    pub changes: u32,
}

/// The number in the four bytes from a place on, or 0 where the message is shorter.
fn four_or_zero(message: &[u8], at: usize) -> u32
    requires { at < 64 }
    ensures { result ≡ four_of message.now at }
{
    if message.len() < at + 4 {
        return 0;
    }
    four_at(message, at)
}

/// The number in the two bytes from a place on, or 0 where the message is shorter.
fn two_or_zero(message: &[u8], at: usize) -> u16
    requires { at < 64 }
    ensures { result ≡ two_of message.now at }
{
    if message.len() < at + 2 {
        return 0;
    }
    two_at(message, at)
}

/// The byte at a place, or 0 where the message is shorter.
fn byte_or_zero(message: &[u8], at: usize) -> u8
    requires { at < 64 }
    ensures { result ≡ byte_of message.now at }
{
    if message.len() < at + 1 {
        return 0;
    }
    message[at]
}

impl Buffer {
    /// What is kept of a message, whose unit's volume had changed so often.
    pub fn of(message: &[u8], changes: u32) -> Buffer
        ensures { result ≡ buffer_in message.now changes }
    {
        Buffer {
            reference: four_or_zero(message, 0),
            opcode: byte_or_zero(message, 8),
            address: four_or_zero(message, 16),
            count: four_or_zero(message, 12),
            modifiers: two_or_zero(message, 10),
            flags: two_or_zero(message, 14),
            changes,
        }
    }

    /// Whether it is kept of the command of this connection and reference number. A host talks by the first connection.
    fn is_of(&self, connection: Connection, reference: u32) -> bool
        ensures { result ≡ is_of connection reference self.now }
    {
        match connection {
            Connection::First => self.reference == reference,
            Connection::Second => false,
        }
    }

    /// Where the data of the step that comes after so many others are in host memory, and how many bytes they have.
    /// None past the end of the buffer, or where they reach the end of 32 bits. A formality has no data.
    pub fn part(&self, done: u32) -> Option<(u32, u32)>
        ensures value { result ≡ part_of self.now done }
        ensures inside { IfSome result (λ part. IsInBuffer self.now part.0 part.1) }
    {
        let before = u64::from(done) * 512;
        let address = u64::from(self.address) + before;
        let count = u64::from(self.count).saturating_sub(before).min(512);
        if port_answers(self.opcode)
            || before > u64::from(self.count)
            || address + count > 0xFFFF_FFFF
        {
            return None;
        }
        Some((address as u32, count as u32))
    }
}

/// What is kept of a command, if something is.
#[tactic(auto, using(crate::proofs::Known::of_command))]
pub(crate) fn find_buffer(
    buffers: &[Buffer],
    connection: Connection,
    reference: u32,
) -> Option<Buffer>
    ensures value { result ≡ kept_of connection reference buffers.now }
    ensures among { IfSome result (λ b. Contains buffers.now b) }
    ensures command { IfSome result (λ b. is_of connection reference b ≡ true) }
{
    let place = place_of(buffers, connection, reference)?;
    Some(buffers[place])
}

/// The place of what is kept of a command, if something is.
fn place_of(buffers: &[Buffer], connection: Connection, reference: u32) -> Option<usize>
    ensures { result ≡ position (is_of connection reference) buffers.now }
{
    buffers
        .iter()
        .position(|buffer| buffer.is_of(connection, reference))
}

/// Forgets what is kept of a command.
pub(crate) fn forget(buffers: &mut ArrayVec<Buffer, 64>, connection: Connection, reference: u32)
    ensures after { buffers.new.items ≡ without connection reference buffers.old.items }
    ensures left { (b : Kept) → Contains buffers.new.items b → Contains buffers.old.items b }
{
    buffers.retain(|buffer| !buffer.is_of(connection, reference));
}

/// Keeps what a message says. There is room for 64 commands.
pub(crate) fn keep(buffers: &mut ArrayVec<Buffer, 64>, buffer: Buffer)
    ensures room { buffers.new.items ≡ kept_beside buffer buffers.old.items }
    ensures more { (b : Kept) → Contains buffers.new.items b → Contains buffers.old.items b ⊎ (b ≡ buffer) }
{
    if !buffers.is_full() {
        buffers.push(buffer);
    }
}

/// Forgets the command that was aborted, if one was.
pub(crate) fn forget_aborted(buffers: &mut ArrayVec<Buffer, 64>, aborted: Option<u32>)
    ensures after { buffers.new.items ≡ without_aborted aborted buffers.old.items }
    ensures left { (b : Kept) → Contains buffers.new.items b → Contains buffers.old.items b }
{
    if let Some(reference) = aborted {
        forget(buffers, Connection::First, reference);
    }
}

// The bytes that a port wants written.

ghost use Rattle.std.specs.Prelude.{◌≡◌, ◌≤◌, length, replicate, None, Some};
ghost use Rattle.mscp_port.specs.Common.{bytes_wanted, clear_count, clear_from, connection_of, credits_told, given_back, little_bytes, packet_of, packet_out};

use crate::port::hearing::UTILITIES;
use crate::port::{OutgoingKind, Port};
use crate::rings::Rings;
use crate::sizes::{CLEARED, ClearSize};
use crate::slot::Descriptor;
use crate::task::Task;
use arrayvec::ArrayVec;
use mscp_packet::fields::{put, put_four, put_two};
use mscp_queue::Picker;

/// So many zeros.
fn zeros(count: u32) -> ArrayVec<u8, 64>
    requires { count ≤ 64 }
    ensures { result.items ≡ replicate count 0 }
{
    let mut bytes = ArrayVec::new();
    put(&mut bytes, &[0; 64][..count as usize]);
    bytes
}

/// What an interrupt word is written with.
fn interrupt_word() -> ArrayVec<u8, 64>
    ensures { result.items ≡ little_bytes 2 1 }
{
    let mut bytes = ArrayVec::new();
    put_two(&mut bytes, 1);
    bytes
}

/// The descriptor of a slot that is given back.
fn descriptor(slot: &Descriptor) -> ArrayVec<u8, 64>
    ensures { result.items ≡ little_bytes 4 (given_back slot.now.word) }
{
    let mut bytes = ArrayVec::new();
    put_four(&mut bytes, slot.given_back());
    bytes
}

/// The connection of a message.
fn connection_of(kind: OutgoingKind) -> u8
    ensures { result ≡ connection_of kind }
{
    match kind {
        OutgoingKind::Attention | OutgoingKind::End => 0,
        OutgoingKind::UtilitiesEnd => UTILITIES,
    }
}

impl<K: Picker> Port<K> {
    /// The bytes that are to be written to host memory, if the action that `next` told last is to write some: as many
    /// as it says.
    pub fn bytes(&self) -> ArrayVec<u8, 64>
        ensures { result.items ≡ bytes_wanted self.now self.now.task }
    {
        match (self.task, self.rings) {
            (Task::Packet(_), _) => self.packet(),
            (Task::Return(_, slot), _) => descriptor(&slot),
            (Task::Word(_), _) => interrupt_word(),
            (Task::Clear(_), Some(rings)) => {
                zeros(self.clear_count(&rings, self.task.clear_size()))
            }
            _ => ArrayVec::new(),
        }
    }

    /// The packet of what goes out: its length, the credits and the type, which is 0, the connection, and its text.
    fn packet(&self) -> ArrayVec<u8, 64>
        ensures { result.items ≡ packet_out self.now self.now.outgoing }
    {
        let mut packet = ArrayVec::new();
        if let Some(outgoing) = &self.outgoing {
            put_two(&mut packet, outgoing.bytes.len() as u16);
            packet.push(self.credits_told());
            packet.push(connection_of(outgoing.kind));
            put(&mut packet, outgoing.bytes.as_slice());
        }
        packet
    }

    /// How many bytes that packet has.
    pub(crate) fn packet_size(&self) -> u32
        ensures value { result ≡ length (packet_out self.now self.now.outgoing) }
        ensures few { result ≤ 52 }
    {
        self.outgoing
            .as_ref()
            .map_or(0, |outgoing| 4 + outgoing.bytes.len() as u32)
    }

    /// From where on the communication area is cleared, behind so many bytes that were.
    pub(crate) fn clear_from(&self, rings: &Rings, done: ClearSize) -> u32
        ensures { result ≡ clear_from self.now rings.now done }
    {
        (rings.start(self.has_purge_word()) + done.get()).min(rings.end())
    }

    /// How many bytes of it are cleared at once.
    pub(crate) fn clear_count(&self, rings: &Rings, done: ClearSize) -> u32
        ensures value { result ≡ clear_count self.now rings.now done }
        ensures few { result ≤ 64 }
    {
        (rings.end() - self.clear_from(rings, done)).min(CLEARED)
    }
}

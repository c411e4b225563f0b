// A port to bytes.

ghost use Rattle.std.specs.Prelude.{◌≡◌, ◌+◌, ◌*◌, ◌≤◌, ◌<◌, ◌^◌, ◌++◌, ◌∷◌, [], flat_map, length, All, IfSome, Ok};
ghost use Rattle.mscp_port.specs.Common.{array_vec_len, flag_byte, AreRings, number_or_none, stage_word, restored, HasBufferRange, HasCodedRange, HasDecidedRange, HasHandRange, HasStateRange, HasVolumeRange, area_bytes, buffer_bytes, coded_bytes, counts_bytes, decided_bytes, frame_bytes, hand_bytes, hardware_bytes, outgoing_byte, outgoing_text, rings_bytes, saved_bytes, stage_bytes, state_bytes, volume_bytes, words_bytes, written_bytes};

use crate::buffers::Buffer;
use crate::codes::{Coded, bus_byte, coded_task, kind_byte};
use crate::decided::Decided;
use crate::hardware::Hardware;
use crate::port::{Outgoing, Port, Words};
use crate::rings::{Rings, Side};
use crate::stage::Stage;
use crate::volumes::Volume;
use arrayvec::ArrayVec;
use mscp_packet::fields::{put, put_eight, put_four, put_two};
use mscp_queue::Picker;

/// The most bytes that a port is saved as: a head, 16 volumes, a text of 48 bytes, what is kept of 64 commands, what 64
/// ends say that wait, and a controller.
pub const ROOM: usize = 6258;

/// "MSCP", as a number.
pub(super) const MAGIC: u32 = 0x5043_534D;

/// The version of the format.
pub(super) const VERSION: u32 = 3;

/// Appends whether something is so.
pub(super) fn put_flag(out: &mut ArrayVec<u8, ROOM>, so: bool)
    requires { array_vec_len out.old + 1 ≤ 6258 }
    ensures items { out.new.items ≡ out.old.items ++ (flag_byte so ∷ []) }
    ensures len { array_vec_len out.new ≡ array_vec_len out.old + 1 }
{
    out.push(if so { 1 } else { 0 });
}

/// Appends what tells how long all is.
pub(super) fn put_frame(out: &mut ArrayVec<u8, ROOM>, total: u32)
    requires { out.old.items ≡ [] }
    ensures items { out.new.items ≡ frame_bytes total }
    ensures len { array_vec_len out.new ≡ 12 }
    ensures range { total < 2 ^ 32 }
{
    put_four(out, MAGIC);
    put_four(out, VERSION);
    put_four(out, total);
}

/// Appends what kind of port it is.
pub(super) fn put_hardware(out: &mut ArrayVec<u8, ROOM>, hardware: Hardware)
    requires { array_vec_len out.old + 4 ≤ 6258 }
    ensures items { out.new.items ≡ out.old.items ++ hardware_bytes hardware }
    ensures len { array_vec_len out.new ≡ array_vec_len out.old + 4 }
{
    out.push(bus_byte(hardware.bus));
    out.push(hardware.model);
    out.push(hardware.software);
    out.push(hardware.version);
}

/// Appends what the host wrote in the first two steps.
pub(super) fn put_words(out: &mut ArrayVec<u8, ROOM>, words: Words)
    requires { array_vec_len out.old + 4 ≤ 6258 }
    ensures items { out.new.items ≡ out.old.items ++ words_bytes words }
    ensures len { array_vec_len out.new ≡ array_vec_len out.old + 4 }
    ensures first { words.first < 2 ^ 16 }
    ensures second { words.second < 2 ^ 16 }
{
    put_two(out, words.first);
    put_two(out, words.second);
}

/// Appends how far the port has come.
pub(super) fn put_stage(out: &mut ArrayVec<u8, ROOM>, stage: Stage)
    requires { array_vec_len out.old + 3 ≤ 6258 }
    ensures items { out.new.items ≡ out.old.items ++ stage_bytes stage }
    ensures len { array_vec_len out.new ≡ array_vec_len out.old + 3 }
    ensures range { stage_word stage < 2 ^ 16 }
{
    out.push(stage.number());
    put_two(out, stage.word());
}

/// Appends what the host wrote to SA.
pub(super) fn put_written(out: &mut ArrayVec<u8, ROOM>, written: Option<u16>)
    requires { array_vec_len out.old + 3 ≤ 6258 }
    ensures items { out.new.items ≡ out.old.items ++ written_bytes written }
    ensures len { array_vec_len out.new ≡ array_vec_len out.old + 3 }
    ensures range { number_or_none written < 2 ^ 16 }
{
    match written {
        Some(word) => {
            out.push(1);
            put_two(out, word);
        }
        None => {
            out.push(0);
            put_two(out, 0);
        }
    }
}

/// Appends where the communication area is.
fn put_area(out: &mut ArrayVec<u8, ROOM>, rings: Rings)
    requires { array_vec_len out.old + 12 ≤ 6258 }
    ensures items { out.new.items ≡ out.old.items ++ area_bytes rings }
    ensures len { array_vec_len out.new ≡ array_vec_len out.old + 12 }
    ensures range { AreRings rings }
{
    put_four(out, rings.base());
    put_four(out, rings.slots(Side::Responses));
    put_four(out, rings.slots(Side::Commands));
}

/// Appends the communication area, if there is one.
pub(super) fn put_rings(out: &mut ArrayVec<u8, ROOM>, rings: Option<Rings>)
    requires { array_vec_len out.old + 13 ≤ 6258 }
    ensures items { out.new.items ≡ out.old.items ++ rings_bytes rings }
    ensures len { array_vec_len out.new ≡ array_vec_len out.old + 13 }
    ensures range { IfSome rings (λ r. AreRings r) }
{
    match rings {
        Some(rings) => {
            out.push(1);
            put_area(out, rings);
        }
        None => {
            out.push(0);
            put(out, &[0; 12]);
        }
    }
}

/// Appends a task, with four zeros where the format has room.
pub(super) fn put_coded(out: &mut ArrayVec<u8, ROOM>, coded: Coded)
    requires { array_vec_len out.old + 17 ≤ 6258 }
    ensures items { out.new.items ≡ out.old.items ++ coded_bytes coded }
    ensures len { array_vec_len out.new ≡ array_vec_len out.old + 17 }
    ensures range { HasCodedRange coded }
{
    out.push(coded.task);
    out.push(coded.whom);
    put_four(out, coded.first);
    put_four(out, coded.second);
    put_four(out, 0);
    put_two(out, coded.two);
    out.push(coded.how);
}

/// Appends a volume.
fn put_volume(out: &mut ArrayVec<u8, ROOM>, volume: Volume)
    requires { array_vec_len out.old + 18 ≤ 6258 }
    ensures items { out.new.items ≡ out.old.items ++ volume_bytes volume }
    ensures len { array_vec_len out.new ≡ array_vec_len out.old + 18 }
    ensures range { HasVolumeRange volume }
{
    put_flag(out, volume.is_there);
    put_flag(out, volume.is_protected);
    put_flag(out, volume.is_protected_by_host);
    put_flag(out, volume.is_news);
    put_flag(out, volume.is_removable);
    put_flag(out, volume.is_mounted);
    put_four(out, volume.changes);
    put_four(out, volume.size);
    put_four(out, volume.media);
}

/// Appends volumes.
pub(super) fn put_volumes(out: &mut ArrayVec<u8, ROOM>, volumes: &[Volume])
    requires { array_vec_len out.old + 18 * length volumes.now ≤ 6258 }
    ensures items { out.new.items ≡ out.old.items ++ flat_map volume_bytes volumes.now }
    ensures len { array_vec_len out.new ≡ array_vec_len out.old + 18 * length volumes.now }
    ensures range { All HasVolumeRange volumes.now }
{
    for volume in volumes {
        put_volume(out, *volume);
    }
}

/// Appends what is kept of a command.
fn put_buffer(out: &mut ArrayVec<u8, ROOM>, buffer: Buffer)
    requires { array_vec_len out.old + 21 ≤ 6258 }
    ensures items { out.new.items ≡ out.old.items ++ buffer_bytes buffer }
    ensures len { array_vec_len out.new ≡ array_vec_len out.old + 21 }
    ensures range { HasBufferRange buffer }
{
    put_four(out, buffer.reference);
    put_four(out, buffer.address);
    put_four(out, buffer.count);
    put_two(out, buffer.modifiers);
    put_two(out, buffer.flags);
    put_four(out, buffer.changes);
    out.push(buffer.opcode);
}

/// Appends what is kept of commands.
pub(super) fn put_buffers(out: &mut ArrayVec<u8, ROOM>, buffers: &[Buffer])
    requires { array_vec_len out.old + 21 * length buffers.now ≤ 6258 }
    ensures items { out.new.items ≡ out.old.items ++ flat_map buffer_bytes buffers.now }
    ensures len { array_vec_len out.new ≡ array_vec_len out.old + 21 * length buffers.now }
    ensures range { All HasBufferRange buffers.now }
{
    for buffer in buffers {
        put_buffer(out, *buffer);
    }
}

/// Appends what an end says that waits.
fn put_decided(out: &mut ArrayVec<u8, ROOM>, decided: Decided)
    requires { array_vec_len out.old + 13 ≤ 6258 }
    ensures items { out.new.items ≡ out.old.items ++ decided_bytes decided }
    ensures len { array_vec_len out.new ≡ array_vec_len out.old + 13 }
    ensures range { HasDecidedRange decided }
{
    put_two(out, decided.status);
    put_two(out, decided.flags);
    put_four(out, decided.media);
    put_four(out, decided.size);
    out.push(decided.code);
}

/// Appends what ends say that wait.
pub(super) fn put_all_decided(out: &mut ArrayVec<u8, ROOM>, all: &[Decided])
    requires { array_vec_len out.old + 13 * length all.now ≤ 6258 }
    ensures items { out.new.items ≡ out.old.items ++ flat_map decided_bytes all.now }
    ensures len { array_vec_len out.new ≡ array_vec_len out.old + 13 * length all.now }
    ensures range { All HasDecidedRange all.now }
{
    for decided in all {
        put_decided(out, *decided);
    }
}

/// The text of what goes out, which is empty if nothing does.
pub(super) fn text_of(outgoing: &Option<Outgoing>) -> &[u8]
    ensures value { result.now ≡ outgoing_text outgoing.now }
    ensures short { length result.now ≤ 48 }
{
    match outgoing {
        Some(outgoing) => outgoing.bytes.as_slice(),
        None => &[],
    }
}

/// Whether something goes out, and what that is.
pub(super) fn outgoing_byte(outgoing: &Option<Outgoing>) -> u8
    ensures { result ≡ outgoing_byte outgoing.now }
{
    match outgoing {
        Some(outgoing) => kind_byte(outgoing.kind),
        None => 0,
    }
}

impl<K: Picker> Port<K> {
    /// Appends what it counts, and whether something is so.
    fn put_counts(&self, out: &mut ArrayVec<u8, ROOM>)
        requires { array_vec_len out.old + 8 ≤ 6258 }
        ensures items { out.new.items ≡ out.old.items ++ counts_bytes self.now }
        ensures len { array_vec_len out.new ≡ array_vec_len out.old + 8 }
    {
        out.push(self.more);
        out.push(self.untold);
        out.push(self.responses);
        out.push(self.commands);
        put_flag(out, self.is_polled);
        put_flag(out, self.is_stalled);
        put_flag(out, self.is_full);
        put_flag(out, self.owes_block);
    }

    /// Appends what kind of port it is, what it counts, and what its host has set.
    fn put_state(&self, out: &mut ArrayVec<u8, ROOM>)
        requires { array_vec_len out.old + 22 ≤ 6258 }
        ensures items { out.new.items ≡ out.old.items ++ state_bytes self.now }
        ensures len { array_vec_len out.new ≡ array_vec_len out.old + 22 }
        ensures range { HasStateRange self.now }
    {
        put_hardware(out, self.hardware);
        self.put_counts(out);
        put_two(out, self.flags);
        put_two(out, self.timeout);
        put_two(out, self.left);
        put_words(out, self.words);
    }

    /// Appends how far it has come, and what it has in hand.
    fn put_hand(&self, out: &mut ArrayVec<u8, ROOM>)
        requires { array_vec_len out.old + 48 ≤ 6258 }
        ensures items { out.new.items ≡ out.old.items ++ hand_bytes self.now }
        ensures len { array_vec_len out.new ≡ array_vec_len out.old + 48 }
        ensures range { HasHandRange self.now }
    {
        put_stage(out, self.stage);
        put_written(out, self.written);
        put_rings(out, self.rings);
        put_coded(out, coded_task(self.task));
        out.push(outgoing_byte(&self.outgoing));
        out.push(text_of(&self.outgoing).len() as u8);
        out.push(self.buffers.len() as u8);
        out.push(self.decided.len() as u8);
        put_eight(out, self.serial);
    }

    /// The picker of its controller.
    pub fn picker(&self) -> &K
        ensures { result.now ≡ self.now.controller.picker }
    {
        self.controller.picker()
    }

    /// All of it but the picker, as bytes, at most `ROOM`. The picker is told by a number, which is the caller's. What
    /// is the same port has the same bytes, and `restore` makes the same port of them again.
    pub fn save(&self, number: u8) -> ArrayVec<u8, ROOM>
        ensures bytes { result.items ≡ saved_bytes number self.now }
        ensures back { restored number self.now.controller.picker result.items ≡ Ok self.now }
    {
        let controller = mscp_saved::save(&self.controller, number);
        let text = text_of(&self.outgoing);
        let buffers = self.buffers.as_slice();
        let decided = self.decided.as_slice();
        let total = 370 + text.len() + 21 * buffers.len() + 13 * decided.len() + controller.len();
        let mut out = ArrayVec::new();
        put_frame(&mut out, total as u32);
        self.put_state(&mut out);
        self.put_hand(&mut out);
        put_volumes(&mut out, &self.volumes);
        put(&mut out, text);
        put_buffers(&mut out, buffers);
        put_all_decided(&mut out, decided);
        put(&mut out, controller.as_slice());
        out
    }
}

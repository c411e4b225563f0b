// Bytes to a port.

ghost use Rattle.std.specs.Prelude.{◌≡◌, ◌*◌, ◌≤◌, ◌<◌, true, nat_eq, length, take, drop, slice_index, IfNone, IfOk, None};
ghost use Rattle.mscp_port.specs.Common.{bytes_eq, num, IsSound, parts_in, optional, stage_in, IsFramed, IsSaved, area_in, buffers_in, coded_in, controller_in, controller_place, frame_fault, held_in, hardware_in, is_framed, outgoing_in, port_in, restored, rings_if, text_in, told_front, unless, volume_in, volumes_in, words_in, saved_bytes, all_decided_in, buffer_in, decided_in};

mod front;

use crate::buffers::Buffer;
use crate::codes::{Coded, bus_in, has_size, kind_in, stage_in, task_in};
use crate::decided::Decided;
use crate::hardware::Hardware;
use crate::port::restoring::front::save_front;
use crate::port::saving::{MAGIC, VERSION};
use crate::port::{Outgoing, Port, Words};
use crate::rings::Rings;
use crate::stage::Stage;
use crate::volumes::Volume;
use arrayvec::ArrayVec;
use mscp_controller::{Config, Controller};
use mscp_packet::fields::{eight_at, four_at, put, two_at};
use mscp_queue::Picker;
use mscp_saved::{part, resume};

/// Why bytes are no saved port: the first that holds, in this order.
#[derive(Clone, Copy)]
pub enum RestoreFault {
    /// Fewer bytes than a head and volumes have, not as many as the head tells, too few for its parts, or more parts
    /// than any port has: a text of 48 bytes, 64 commands of which something is kept, and 64 ends that wait.
    Length,
    /// They don't begin with "MSCP".
    Magic,
    /// A version of the format that isn't known.
    Version,
    /// A task with a size that no task of its kind has: a text of fewer than 12 bytes or more than 64; or bytes of the
    /// communication area that are clear, which aren't whole parts of 64, or as many as no area has.
    Size,
    /// The bytes of the controller are no saved controller, with this picker's number.
    Controller(mscp_saved::RestoreFault),
    /// The bytes say a port, and aren't those that it is saved as.
    Form,
}

/// What kind of port it is.
fn hardware_in(b: &[u8]) -> Hardware
    requires { 370 ≤ length b.now }
    ensures { result ≡ hardware_in b.now }
{
    Hardware {
        bus: bus_in(b[12]),
        model: b[13],
        software: b[14],
        version: b[15],
    }
}

/// A number, if there is one.
fn optional<T: Copy>(byte: u8, number: T) -> Option<T>
    ensures { result ≡ optional byte number }
{
    if byte == 1 { Some(number) } else { None }
}

/// Whether something is so.
fn flag_at(b: &[u8], at: usize) -> bool
    requires { at < length b.now }
    ensures { result ≡ nat_eq (slice_index b.now at) 1 }
{
    b[at] == 1
}

/// How far the port has come.
fn stage_of(b: &[u8]) -> Stage
    requires { 370 ≤ length b.now }
    ensures { result ≡ stage_in (slice_index b.now 34) (num b.now 35 2) }
{
    stage_in(b[34], two_at(b, 35))
}

/// What the host wrote to SA.
fn written_in(b: &[u8]) -> Option<u16>
    requires { 370 ≤ length b.now }
    ensures { result ≡ optional (slice_index b.now 37) (num b.now 38 2) }
{
    optional(b[37], two_at(b, 38))
}

/// The communication area, if there is one.
fn rings_in(b: &[u8]) -> Option<Rings>
    requires { 370 ≤ length b.now }
    ensures { result ≡ rings_if (slice_index b.now 40) (area_in b.now) }
{
    if b[40] != 1 {
        return None;
    }
    Rings::of(four_at(b, 41), four_at(b, 45), four_at(b, 49))
}

/// A task, as numbers.
fn coded_in(b: &[u8]) -> Coded
    requires { 370 ≤ length b.now }
    ensures { result ≡ coded_in b.now }
{
    Coded {
        task: b[53],
        whom: b[54],
        first: four_at(b, 55),
        second: four_at(b, 59),
        two: two_at(b, 67),
        how: b[69],
    }
}

/// What the host wrote in the first two steps.
fn words_in(b: &[u8]) -> Words
    requires { 370 ≤ length b.now }
    ensures { result ≡ words_in b.now }
{
    Words {
        first: two_at(b, 30),
        second: two_at(b, 32),
    }
}

/// What goes out, by its number and its text.
fn outgoing_in(byte: u8, text: &[u8]) -> Option<Outgoing>
    requires { length text.now ≤ 48 }
    ensures { result ≡ outgoing_in byte text.now }
{
    if byte == 0 {
        return None;
    }
    let mut bytes = ArrayVec::new();
    put(&mut bytes, text);
    Some(Outgoing {
        bytes,
        kind: kind_in(byte),
    })
}

/// The volume in the bytes of one.
fn volume_in(b: &[u8]) -> Volume
    requires { length b.now ≡ 18 }
    ensures { result ≡ volume_in b.now }
{
    Volume {
        is_there: b[0] == 1,
        is_protected: b[1] == 1,
        is_protected_by_host: b[2] == 1,
        is_removable: b[4] == 1,
        changes: four_at(b, 6),
        size: four_at(b, 10),
        media: four_at(b, 14),
        is_mounted: b[5] == 1,
        is_news: b[3] == 1,
    }
}

/// 16 volumes, behind one another from the first byte on.
fn volumes_in(b: &[u8]) -> [Volume; 16]
    requires { 288 ≤ length b.now }
    ensures { result ≡ parts_in volume_in 18 16 b.now }
{
    let mut volumes = ArrayVec::new();
    for place in 0..16 {
        volumes.push(volume_in(part(b, 18, place)));
    }
    let Ok(volumes) = volumes.into_inner() else {
        unreachable!();
    };
    volumes
}

/// What is kept of a command, in the bytes of that.
fn buffer_in(b: &[u8]) -> Buffer
    requires { length b.now ≡ 21 }
    ensures { result ≡ buffer_in b.now }
{
    Buffer {
        reference: four_at(b, 0),
        address: four_at(b, 4),
        count: four_at(b, 8),
        modifiers: two_at(b, 12),
        flags: two_at(b, 14),
        changes: four_at(b, 16),
        opcode: b[20],
    }
}

/// What is kept of so many commands, behind one another from the first byte on.
fn buffers_in(b: &[u8], count: usize) -> ArrayVec<Buffer, 64>
    requires few { count ≤ 64 }
    requires long { 21 * count ≤ length b.now }
    ensures { result.items ≡ parts_in buffer_in 21 count b.now }
{
    let mut buffers = ArrayVec::new();
    for place in 0..count {
        buffers.push(buffer_in(part(b, 21, place)));
    }
    buffers
}

/// What so many ends say, behind one another from the first byte on.
fn all_decided_in(b: &[u8], count: usize) -> ArrayVec<Decided, 64>
    requires few { count ≤ 64 }
    requires long { 13 * count ≤ length b.now }
    ensures { result.items ≡ parts_in decided_in 13 count b.now }
{
    let mut all = ArrayVec::new();
    for place in 0..count {
        all.push(Decided::read(part(b, 13, place)));
    }
    all
}

/// Whether there is a head with volumes, as many bytes as it tells, enough for its parts, and of none too many.
fn is_framed(b: &[u8]) -> bool
    ensures value { result ≡ is_framed b.now }
    ensures framed { result ≡ true → IsFramed b.now }
{
    if b.len() < 370 {
        return false;
    }
    let (text, buffers, decided) = (usize::from(b[71]), usize::from(b[72]), usize::from(b[73]));
    four_at(b, 8) as usize == b.len()
        && text <= 48
        && buffers <= 64
        && decided <= 64
        && 370 + text + 21 * buffers + 13 * decided <= b.len()
}

/// Why no parts are read: the first fault that holds.
fn frame_fault(b: &[u8]) -> Option<RestoreFault>
    ensures value { result ≡ frame_fault b.now }
    ensures framed { result ≡ None → IsFramed b.now }
{
    if !is_framed(b) {
        return Some(RestoreFault::Length);
    }
    if four_at(b, 0) != MAGIC {
        return Some(RestoreFault::Magic);
    }
    if four_at(b, 4) != VERSION {
        return Some(RestoreFault::Version);
    }
    if !has_size(coded_in(b)) {
        return Some(RestoreFault::Size);
    }
    None
}

/// What goes out.
fn outgoing_of(b: &[u8]) -> Option<Outgoing>
    requires { IsFramed b.now }
    ensures { result ≡ outgoing_in (slice_index b.now 70) (text_in b.now) }
{
    outgoing_in(b[70], &b[370..][..usize::from(b[71])])
}

/// The volumes.
fn volumes_of(b: &[u8]) -> [Volume; 16]
    requires { 370 ≤ length b.now }
    ensures { result ≡ volumes_in b.now }
{
    volumes_in(&b[82..])
}

/// What is kept of commands.
fn buffers_of(b: &[u8]) -> ArrayVec<Buffer, 64>
    requires { IsFramed b.now }
    ensures { result.items ≡ buffers_in b.now }
{
    buffers_in(&b[370 + usize::from(b[71])..], usize::from(b[72]))
}

/// What ends say that wait.
fn all_decided_of(b: &[u8]) -> ArrayVec<Decided, 64>
    requires { IsFramed b.now }
    ensures { result.items ≡ all_decided_in b.now }
{
    all_decided_in(
        &b[370 + usize::from(b[71]) + 21 * usize::from(b[72])..],
        usize::from(b[73]),
    )
}

/// The bytes of the controller.
fn controller_bytes(b: &[u8]) -> &[u8]
    requires { IsFramed b.now }
    ensures { result.now ≡ drop (controller_place b.now) b.now }
{
    &b[370 + usize::from(b[71]) + 21 * usize::from(b[72]) + 13 * usize::from(b[73])..]
}

/// Whether the bytes in front of the controller's are those that the port is saved as that they say.
#[inline(never)]
fn is_front(b: &[u8]) -> bool
    requires { IsFramed b.now }
    ensures { result ≡ bytes_eq (told_front b.now) (take (controller_place b.now) b.now) }
{
    let mut front = ArrayVec::new();
    save_front(&mut front, b);
    front.as_slice() == &b[..b.len() - controller_bytes(b).len()]
}

/// Why these bytes are no saved port, with a picker of this number: the first fault, if there is one.
#[inline(never)]
pub fn restore_fault<K: Picker>(bytes: &[u8], number: u8, picker: &K) -> Option<RestoreFault>
    ensures value { restored number picker.now bytes.now ≡ unless (held_in picker.now bytes.now) result }
    ensures saved { IfNone result (IsSaved picker.now bytes.now) }
{
    if let Some(fault) = frame_fault(bytes) {
        return Some(fault);
    }
    let controller = controller_bytes(bytes);
    if let Some(fault) = mscp_saved::restore_fault(controller, number, picker) {
        return Some(RestoreFault::Controller(fault));
    }
    if is_front(bytes) {
        None
    } else {
        Some(RestoreFault::Form)
    }
}

/// The settings of the controller of a saved port.
pub fn saved_settings<K: Picker>(bytes: &[u8], picker: &K) -> Config
    requires { IsSaved picker.now bytes.now }
    ensures { result ≡ (controller_in picker.now bytes.now).settings }
{
    mscp_saved::saved_settings(controller_bytes(bytes), picker)
}

impl<K: Picker> Port<K> {
    /// All that bytes say of a port is so from now on, but for its controller.
    #[inline(never)]
    fn fill(&mut self, b: &[u8])
        requires { IsFramed b.now }
        ensures { self.new ≡ port_in b.now self.old.controller }
    {
        self.hardware = hardware_in(b);
        self.more = b[16];
        self.untold = b[17];
        self.stage = stage_of(b);
        self.words = words_in(b);
        self.written = written_in(b);
        self.rings = rings_in(b);
        self.responses = b[18];
        self.commands = b[19];
        self.task = task_in(coded_in(b));
        self.outgoing = outgoing_of(b);
        self.is_polled = flag_at(b, 20);
        self.is_stalled = flag_at(b, 21);
        self.is_full = flag_at(b, 22);
        self.owes_block = flag_at(b, 23);
        self.serial = eight_at(b, 74);
        self.buffers = buffers_of(b);
        self.decided = all_decided_of(b);
        self.volumes = volumes_of(b);
        self.flags = two_at(b, 24);
        self.timeout = two_at(b, 26);
        self.left = two_at(b, 28);
    }

    /// Lets a port over a controller that has the settings of a saved one be the port that was saved.
    #[inline(never)]
    pub fn resume(&mut self, bytes: &[u8])
        requires saved { IsSaved self.old.controller.picker bytes.now }
        requires settings { self.old.controller.settings
            ≡ (controller_in self.old.controller.picker bytes.now).settings }
        ensures { self.new ≡ held_in self.old.controller.picker bytes.now }
    {
        self.fill(bytes);
        resume(&mut self.controller, controller_bytes(bytes));
    }

    /// The port that was saved as these bytes, with this picker, whose number has to be that which it was saved with.
    /// Its controller keeps each promise of one. What it heard before only who saved it knows.
    ///
    /// # Errors
    ///
    /// The first fault, in the order of `RestoreFault`, if no port with this number is saved as these bytes.
    pub fn restore(bytes: &[u8], number: u8, picker: K) -> Result<Port<K>, RestoreFault>
    where
        K: Drop,
        ensures value { result ≡ restored number picker bytes.now }
        ensures same { IfOk result (λ p. saved_bytes number p ≡ bytes.now) }
        ensures sound { IfOk result (λ p. IsSound p.controller) }
    {
        if let Some(fault) = restore_fault(bytes, number, &picker) {
            return Err(fault);
        }
        let controller = Controller::new(saved_settings(bytes, &picker), picker);
        let Ok(mut port) = Port::new(hardware_in(bytes), 1, controller) else {
            unreachable!();
        };
        port.resume(bytes);
        Ok(port)
    }
}

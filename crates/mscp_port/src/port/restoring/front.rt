// What a port is saved as that bytes say, up to its controller: bytes that are a port's are these.

ghost use Rattle.std.specs.Prelude.{◌≡◌, ◌+◌, ◌≤◌, ◌++◌, [], length};
ghost use Rattle.mscp_port.specs.Common.{array_vec_len, IsFramed, front_in, told_front, counts_bytes, hand_bytes, state_bytes};

use crate::codes::{coded_task, task_in};
use crate::port::Outgoing;
use crate::port::restoring::{
    all_decided_of, buffers_of, coded_in, flag_at, hardware_in, outgoing_of, rings_in, stage_of,
    volumes_of, words_in, written_in,
};
use crate::port::saving::{
    ROOM, outgoing_byte, put_all_decided, put_buffers, put_coded, put_flag, put_frame,
    put_hardware, put_rings, put_stage, put_volumes, put_words, put_written, text_of,
};
use arrayvec::ArrayVec;
use mscp_packet::fields::{eight_at, put, put_eight, put_two, two_at};

/// Appends what bytes say that a port counts, and whether something is so.
fn put_told_counts(out: &mut ArrayVec<u8, ROOM>, b: &[u8])
    requires room { array_vec_len out.old + 8 ≤ 6258 }
    requires long { 370 ≤ length b.now }
    ensures items { out.new.items ≡ out.old.items ++ counts_bytes (front_in b.now) }
    ensures len { array_vec_len out.new ≡ array_vec_len out.old + 8 }
{
    out.push(b[16]);
    out.push(b[17]);
    out.push(b[18]);
    out.push(b[19]);
    put_flag(out, flag_at(b, 20));
    put_flag(out, flag_at(b, 21));
    put_flag(out, flag_at(b, 22));
    put_flag(out, flag_at(b, 23));
}

/// Appends what kind of port they say, what it counts, and what its host has set.
fn put_told_state(out: &mut ArrayVec<u8, ROOM>, b: &[u8])
    requires room { array_vec_len out.old + 22 ≤ 6258 }
    requires long { 370 ≤ length b.now }
    ensures items { out.new.items ≡ out.old.items ++ state_bytes (front_in b.now) }
    ensures len { array_vec_len out.new ≡ array_vec_len out.old + 22 }
{
    put_hardware(out, hardware_in(b));
    put_told_counts(out, b);
    put_two(out, two_at(b, 24));
    put_two(out, two_at(b, 26));
    put_two(out, two_at(b, 28));
    put_words(out, words_in(b));
}

/// Appends how far they say that it has come, and what it has in hand, with what goes out.
fn put_told_hand(out: &mut ArrayVec<u8, ROOM>, b: &[u8], outgoing: &Option<Outgoing>)
    requires room { array_vec_len out.old + 48 ≤ 6258 }
    requires framed { IsFramed b.now }
    requires told { outgoing.now ≡ (front_in b.now).outgoing }
    ensures items { out.new.items ≡ out.old.items ++ hand_bytes (front_in b.now) }
    ensures len { array_vec_len out.new ≡ array_vec_len out.old + 48 }
{
    put_stage(out, stage_of(b));
    put_written(out, written_in(b));
    put_rings(out, rings_in(b));
    put_coded(out, coded_task(task_in(coded_in(b))));
    out.push(outgoing_byte(outgoing));
    out.push(text_of(outgoing).len() as u8);
    out.push(b[72]);
    out.push(b[73]);
    put_eight(out, eight_at(b, 74));
}

/// Writes the bytes in front of its controller that the port is saved as that bytes say, into a list that has none.
#[inline(never)]
pub(super) fn save_front(out: &mut ArrayVec<u8, ROOM>, b: &[u8])
    requires none { out.old.items ≡ [] }
    requires framed { IsFramed b.now }
    ensures { out.new.items ≡ told_front b.now }
{
    let outgoing = outgoing_of(b);
    let text = text_of(&outgoing);
    let total = text.len() + (b.len() - usize::from(b[71]));
    put_frame(out, total as u32);
    put_told_state(out, b);
    put_told_hand(out, b, &outgoing);
    put_volumes(out, &volumes_of(b));
    put(out, text);
    put_buffers(out, buffers_of(b).as_slice());
    put_all_decided(out, all_decided_of(b).as_slice());
}

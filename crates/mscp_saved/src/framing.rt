// The head of a saved controller, and where its parts lie.

ghost use Rattle.std.specs.Prelude.{◌≡◌, ◌+◌, ◌*◌, ◌≤◌, ◌++◌, [], true, length};
ghost use Rattle.mscp_saved.specs.Common.{array_vec_len, all_waiting_in, drives_in, first_count, first_in, first_place, second_count, second_in, second_place, waiting_count, waiting_place, frame_fault, is_framed};

use crate::fault::RestoreFault;
use crate::reading::{read_drives, read_ends, read_waiting};
use crate::writing::{MAGIC, VERSION};
use arrayvec::ArrayVec;
use mscp_controller::{Drive, Record};
use mscp_packet::End;
use mscp_packet::fields::four_at;

/// Whether there is a head, and as many bytes as it tells, which are those of its parts; and no more parts than any
/// controller has.
fn is_framed(b: &[u8]) -> bool
    ensures { result ≡ is_framed b.now }
{
    if b.len() < 48 {
        return false;
    }
    let (drives, waiting) = (usize::from(b[31]), usize::from(b[40]));
    let ends = usize::from(b[41]) + usize::from(b[42]);
    four_at(b, 8) as usize == b.len()
        && 48 + 34 * drives + 41 * waiting + 48 * ends == b.len()
        && drives <= 16
        && waiting + ends <= 64
}

/// Why no parts are read, the first fault that holds.
pub(crate) fn frame_fault(b: &[u8]) -> Option<RestoreFault>
    ensures { result ≡ frame_fault b.now }
{
    if !is_framed(b) {
        return Some(RestoreFault::Length);
    }
    if four_at(b, 0) != MAGIC {
        return Some(RestoreFault::Magic);
    }
    if four_at(b, 4) != VERSION {
        return Some(RestoreFault::Version);
    }
    None
}

/// Where the waiting commands begin: behind the drives.
fn waiting_place(b: &[u8]) -> usize
    requires { is_framed b.now ≡ true }
    ensures value { result ≡ waiting_place b.now }
    ensures fits { result + 41 * waiting_count b.now ≤ length b.now }
{
    48 + 34 * usize::from(b[31])
}

/// Where the ends of the first connection begin: behind the waiting commands.
fn first_place(b: &[u8]) -> usize
    requires { is_framed b.now ≡ true }
    ensures value { result ≡ first_place b.now }
    ensures fits { result + 48 * first_count b.now ≤ length b.now }
{
    waiting_place(b) + 41 * usize::from(b[40])
}

/// Where those of the second begin: behind them.
fn second_place(b: &[u8]) -> usize
    requires { is_framed b.now ≡ true }
    ensures value { result ≡ second_place b.now }
    ensures fits { result + 48 * second_count b.now ≤ length b.now }
{
    first_place(b) + 48 * usize::from(b[41])
}

/// Reads the drives into a list that has none.
pub(crate) fn read_all_drives(drives: &mut ArrayVec<Drive, 16>, b: &[u8])
    requires framed { is_framed b.now ≡ true }
    requires none { drives.old.items ≡ [] }
    ensures value { drives.new.items ≡ drives_in b.now }
    ensures few { length drives.new.items ≤ 16 }
{
    read_drives(drives, &b[48..], usize::from(b[31]));
}

/// Reads the waiting commands into a list that has none.
pub(crate) fn read_all_waiting(waiting: &mut ArrayVec<Record, 64>, b: &[u8])
    requires framed { is_framed b.now ≡ true }
    requires none { waiting.old.items ≡ [] }
    ensures value { waiting.new.items ≡ all_waiting_in b.now }
    ensures few { length waiting.new.items ≤ 64 }
{
    read_waiting(waiting, &b[waiting_place(b)..], usize::from(b[40]));
}

/// Appends the ends of the first connection.
pub(crate) fn read_first(ends: &mut ArrayVec<End, 64>, b: &[u8])
    requires framed { is_framed b.now ≡ true }
    requires room { array_vec_len ends.old + first_count b.now ≤ 64 }
    ensures { ends.new.items ≡ ends.old.items ++ first_in b.now }
{
    read_ends(ends, &b[first_place(b)..], usize::from(b[41]));
}

/// Appends the ends of the second.
pub(crate) fn read_second(ends: &mut ArrayVec<End, 64>, b: &[u8])
    requires framed { is_framed b.now ≡ true }
    requires room { array_vec_len ends.old + second_count b.now ≤ 64 }
    ensures { ends.new.items ≡ ends.old.items ++ second_in b.now }
{
    read_ends(ends, &b[second_place(b)..], usize::from(b[42]));
}

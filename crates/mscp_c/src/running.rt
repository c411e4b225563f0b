// A whole script and a packet's line, in memory that a program in C lends. Each is written behind the front of the
// room, and then moved there: so the room has twice its bytes.

ghost use Rattle.std.specs.Prelude.{◌≡◌, ◌≢◌, ◌⊎◌, ◌*◌, ◌-◌, ◌/◌, ◌<◌, ◌≤◌, length, take, Err, IfNone, IfOk, IfSome};
ghost use Rattle.mscp_c.specs.Common.{shown, HasText, IsFault, IsLine, IsNoPacket, IsReport, IsShort, TellsFault};

use crate::status::{DONE, SMALL, cause_code, show_code};
use mscp_script::{Lent, ReadFault, Room, ScriptFault, ShowFault, report_script, show_packet_to};
use std::marker::Brand;

/// Copies text to the front of a room, if it fits, and tells how many bytes it has.
fn put_front(front: &mut [u8], text: &[u8]) -> Option<usize>
    ensures length { length front.new ≡ length front.old }
    ensures text { IfSome result (λ n. (n ≤ length front.new) × (take n front.new ≡ text.now)) }
    ensures short { IfNone result (length front.old < length text.now) }
{
    if text.len() > front.len() {
        return None;
    }
    front[..text.len()].copy_from_slice(text);
    Some(text.len())
}

/// The report of a script stands at the front of the room, and has so many bytes; or why not.
fn run<R: Room>(script: &[u8], room: &mut [u8]) -> Result<usize, ReadFault>
    requires { length room.old - length room.old / 2 ≡ R.room }
    ensures length { length room.new ≡ length room.old }
    ensures report { IfOk result (HasText (IsReport script.now) room.new) }
    ensures short { result ≡ Err ReadFault.OutOfMemory → IsShort (IsReport script.now) room.old }
    ensures fault { (fault : ScriptFault) → result ≡ Err (ReadFault.Script fault) → IsFault script.now fault }
{
    let half = room.len() / 2;
    let (front, back) = room.split_at_mut(half);
    let out = report_script(Lent::<R>::new(back), script)?;
    let text = out.appended().ok_or(ReadFault::OutOfMemory)?;
    put_front(front, text).ok_or(ReadFault::OutOfMemory)
}

/// Runs a script of so many bytes, as `mscpq` does, and writes its report to the front of the room, which needs room
/// for twice as many bytes.
#[unsafe(no_mangle)]
pub extern "C" fn mscp_run_script_at(
    script: &[u8],
    room: &mut [u8],
    count: &mut usize,
    line: &mut u32,
) -> i32
    ensures done { result ≡ DONE → HasText (IsReport script.now) room.new count.new }
    ensures short { result ≡ SMALL → IsShort (IsReport script.now) room.old }
    ensures fault { (result ≡ DONE) ⊎ (result ≡ SMALL) ⊎ TellsFault script.now result line.new }
    ensures count { result ≢ DONE → count.new ≡ count.old }
    ensures line { (result ≡ DONE) ⊎ (result ≡ SMALL) → line.new ≡ line.old }
    ensures room { length room.new ≡ length room.old }
{
    match run::<Brand>(script, room) {
        Ok(bytes) => {
            *count = bytes;
            DONE
        }
        Err(ReadFault::OutOfMemory) => SMALL,
        Err(ReadFault::Script(fault)) => {
            *line = fault.line;
            cause_code(fault.cause)
        }
    }
}

/// The line of a packet stands at the front of the room, and has so many bytes; or why not.
fn show<R: Room>(word: &[u8], room: &mut [u8]) -> Result<usize, ShowFault>
    requires { length room.old - length room.old / 2 ≡ R.room }
    ensures length { length room.new ≡ length room.old }
    ensures line { IfOk result (HasText (IsLine word.now) room.new) }
    ensures short { result ≡ Err ShowFault.OutOfMemory → IsShort (IsLine word.now) room.old }
    ensures fault { (fault : ShowFault) → result ≡ Err fault → fault ≢ ShowFault.OutOfMemory
        → shown word.now ≡ Err fault }
{
    let half = room.len() / 2;
    let (front, back) = room.split_at_mut(half);
    let out = show_packet_to(Lent::<R>::new(back), word)?;
    let text = out.appended().ok_or(ShowFault::OutOfMemory)?;
    put_front(front, text).ok_or(ShowFault::OutOfMemory)
}

/// Writes the line of the packet that a word is the hexadecimal digits of to the front of the room, as `mscpq packet`
/// does. The room needs room for twice as many bytes.
#[unsafe(no_mangle)]
pub extern "C" fn mscp_show_packet_at(word: &[u8], room: &mut [u8], count: &mut usize) -> i32
    ensures done { result ≡ DONE → HasText (IsLine word.now) room.new count.new }
    ensures short { result ≡ SMALL → IsShort (IsLine word.now) room.old }
    ensures fault { (result ≡ DONE) ⊎ (result ≡ SMALL) ⊎ IsNoPacket word.now result }
    ensures count { result ≢ DONE → count.new ≡ count.old }
    ensures room { length room.new ≡ length room.old }
{
    match show::<Brand>(word, room) {
        Ok(bytes) => {
            *count = bytes;
            DONE
        }
        Err(fault) => show_code(fault),
    }
}

// A tracked controller as bytes, and from them.

ghost use Rattle.std.specs.Prelude.{◌≡◌, ◌+◌, ◌*◌, ◌^◌, ◌<◌, ◌≤◌, ◌++◌, All, Ok, length, take, drop};
ghost use Rattle.mscp_tracked.specs.Common.{array_vec_len, behind, own_length, restored, resumed, saved_bytes, word_in, words_bytes, words_in};

use crate::tracked::Tracked;
use arrayvec::ArrayVec;
use mscp_controller::{Connection, Controller, Picker};
use mscp_packet::fields::{eight_at, four_at, put, put_eight};
use mscp_saved::{RestoreFault, part};

/// The most bytes that a tracked controller is saved as: a controller's, 64 cookies and a serial.
pub const ROOM: usize = 4184;

/// Appends numbers of 8 bytes.
fn put_words(out: &mut ArrayVec<u8, ROOM>, words: &[u64])
    requires { array_vec_len out.old + 8 * length words.now ≤ 4184 }
    ensures items { out.new.items ≡ out.old.items ++ words_bytes words.now }
    ensures len { array_vec_len out.new ≡ array_vec_len out.old + 8 * length words.now }
    ensures range { All (λ word. word < 2 ^ 64) words.now }
{
    for place in 0..words.len() {
        put_eight(out, words[place]);
    }
}

/// All that callers see of a tracked controller, as bytes, at most `ROOM`. The picker is told by a number, which is the
/// caller's. What is the same to callers has the same bytes, and `restore` makes the same of them again.
pub fn save<K: Picker>(tracked: &Tracked<K>, number: u8) -> ArrayVec<u8, ROOM>
    ensures bytes { result.items ≡ saved_bytes number tracked.now }
    ensures back { restored number tracked.now.controller.picker result.items ≡ Ok tracked.now }
{
    let mut out = ArrayVec::new();
    put(
        &mut out,
        mscp_saved::save(tracked.controller(), number).as_slice(),
    );
    put_words(&mut out, tracked.cookies());
    put_words(&mut out, tracked.untaken_cookies(Connection::First));
    put_words(&mut out, tracked.untaken_cookies(Connection::Second));
    put_eight(&mut out, tracked.beginnings());
    out
}

/// So many numbers of 8 bytes, behind one another from the first byte on.
fn words_in(b: &[u8], count: usize) -> ArrayVec<u64, 64>
    requires few { count ≤ 64 }
    requires long { 8 * count ≤ length b.now }
    ensures value { result.items ≡ words_in count b.now }
    ensures count { length result.items ≡ count }
{
    let mut words = ArrayVec::new();
    for place in 0..count {
        words.push(eight_at(part(b, 8, place), 0));
    }
    words
}

/// What stands behind so many numbers of 8 bytes.
fn behind(b: &[u8], count: usize) -> &[u8]
    requires { 8 * count ≤ length b.now }
    ensures value { result.now ≡ behind count b.now }
    ensures len { length result.now + 8 * count ≡ length b.now }
{
    &b[8 * count..]
}

/// Where the bytes of the controller end, by its head, or with all.
fn own_end(b: &[u8]) -> usize
    requires { 12 ≤ length b.now }
    ensures front { take result b.now ≡ take (own_length b.now) b.now }
    ensures rest { drop result b.now ≡ drop (own_length b.now) b.now }
    ensures inside { result ≤ length b.now }
{
    let told = four_at(b, 8) as usize;
    told.min(b.len())
}

/// The bytes of the controller, by its head.
fn own_bytes(b: &[u8]) -> &[u8]
    requires { 12 ≤ length b.now }
    ensures { result.now ≡ take (own_length b.now) b.now }
{
    &b[..own_end(b)]
}

/// The bytes behind them.
fn rest_of(b: &[u8]) -> &[u8]
    requires { 12 ≤ length b.now }
    ensures { result.now ≡ drop (own_length b.now) b.now }
{
    &b[own_end(b)..]
}

/// The tracked controller over this one whose cookies and count these bytes say, or that they are too few or too many.
fn resume<K: Picker + Drop>(controller: Controller<K>, b: &[u8]) -> Result<Tracked<K>, RestoreFault>
    ensures { result ≡ resumed b.now (Ok controller) }
{
    let waiting = controller.len();
    let first = controller.ends(Connection::First).len();
    let second = controller.ends(Connection::Second).len();
    if b.len() != 8 * (waiting + first + second + 1) {
        return Err(RestoreFault::Length);
    }
    let behind_waiting = behind(b, waiting);
    let behind_first = behind(behind_waiting, first);
    let behind_second = behind(behind_first, second);
    Ok(Tracked::resumed(
        controller,
        words_in(b, waiting),
        words_in(behind_waiting, first),
        words_in(behind_first, second),
        eight_at(behind_second, 0),
    ))
}

/// The tracked controller that was saved as these bytes, with this picker, whose number has to be that which it was
/// saved with. Its serials go on behind the one given last.
///
/// # Errors
///
/// What is wrong with the bytes of its controller, or that as many bytes as its cookies and its count take don't stand
/// behind them.
pub fn restore<K: Picker + Drop>(
    bytes: &[u8],
    number: u8,
    picker: K,
) -> Result<Tracked<K>, RestoreFault>
    ensures { result ≡ restored number picker bytes.now }
{
    if bytes.len() < 12 {
        return Err(RestoreFault::Length);
    }
    match mscp_saved::restore(own_bytes(bytes), number, picker) {
        Ok(controller) => resume(controller, rest_of(bytes)),
        Err(fault) => Err(fault),
    }
}

// Text at the front of bytes that somebody lends.
//
// A script runs in lent memory without a heap. Its report grows in the back half of a room of twice its bytes: a
// contract can't follow a reference through a type parameter, so nothing could be said of one that grew at the front.
// If the room is too small the script runs on, and its bytes are counted, so that its fault is told.

ghost use Rattle.std.specs.Prelude.{◌≡◌, ◌≤◌, ◌<◌, ◌++◌, ℕ, List, [], length, IfNone, IfSome};
ghost use Rattle.std.specs.Option.{ForSome};
ghost use Rattle.mscp_text.specs.Fronts.{IsFront};

use crate::out::Out;
use crate::past::Past;
use std::alloc::AllocError;
use std::marker::{Brand, PhantomData};

/// How many bytes are lent. What calls a function with `Brand` in this place picks the number in its proof, so a
/// contract knows it from what was lent to what is handed back.
pub trait Room {
    ghost use Rattle.std.specs.Prelude.{ℕ};

    ghost room: { ℕ };
}

impl Room for Brand {
    ghost room = { 0 };
}

/// The front of bytes that somebody lends, as long as what is appended fits there. It refuses nothing.
#[derive(Drop)]
pub struct Lent<'a, R: Room> {
    bytes: &'a mut [u8],
    // How many of them are what was appended, or none where that has more.
    count: Option<usize>,
    past: Past,
    of: PhantomData<R>,
    ghost size: { length bytes.now ≡ R.room },
    ghost front: { IsFront bytes.now count past.text },
}

/// Writes bytes behind the first ones, if they fit, and tells how many there are then.
fn put_behind(bytes: &mut [u8], count: Option<usize>, more: &[u8]) -> Option<usize>
    requires { ForSome count (λ n. n ≤ length bytes.old) }
    ensures length { length bytes.new ≡ length bytes.old }
    ensures front { (text : List ℕ) → IsFront bytes.old count text → IsFront bytes.new result (text ++ more.now) }
{
    let count = count?;
    if more.len() > bytes.len() - count {
        return None;
    }
    let end = count + more.len();
    bytes[count..end].copy_from_slice(more);
    Some(end)
}

impl<'a, R: Room> Lent<'a, R> {
    /// Bytes of which none was written.
    pub fn new(bytes: &'a mut [u8]) -> Lent<'a, R>
        requires { length bytes.old ≡ R.room }
        ensures { result.past.text ≡ [] }
    {
        Lent {
            bytes,
            count: Some(0),
            past: Past::new(),
            of: PhantomData,
        }
    }

    /// What was appended, if it fits.
    pub fn appended(&self) -> Option<&[u8]>
        ensures text { IfSome result (λ text. text.now ≡ self.now.past.text) }
        ensures over { IfNone result (R.room < length self.now.past.text) }
    {
        match self.count {
            Some(count) => Some(&self.bytes[..count]),
            None => None,
        }
    }
}

impl<'a, R: Room> Out for Lent<'a, R> {
    ghost text = { λ l. l.past.text };

    ghost refuses = { ⊥ };

    fn append(&mut self, bytes: &[u8]) -> Result<(), AllocError> {
        let past = self.past.and(bytes);
        let count = put_behind(self.bytes, self.count, bytes);
        self.past = past;
        self.count = count;
        Ok(())
    }
}

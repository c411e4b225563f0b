// The reading of a whole script.

ghost use Rattle.std.specs.Prelude.{◌≡◌, ◌≤◌, ◌↔◌, true, false, vec_len, IfOk};
ghost use Rattle.mscp_script.specs.Whole.{IsFront, IsRest, most_read};

use crate::stream::Source;
use mscp_reader::MOST_BYTES;
use std::alloc::Allocator;

/// How many bytes are read at most: one more than the longest script has.
pub(crate) const LIMIT: usize = MOST_BYTES + 1;

/// Why not all was read.
#[derive(Clone, Copy)]
pub enum ReadAllFault {
    /// A read failed.
    Read,
    /// No memory was left.
    OutOfMemory,
}

/// Reads until a read gives no byte, or 16,777,217 bytes were read. What comes after them is left in the reader.
///
/// # Errors
///
/// `Read` if a read fails, and `OutOfMemory` if memory runs out.
pub fn read_all<R: Source, A: Allocator>(
    alloc: A,
    reader: &mut R,
) -> Result<Vec<u8, A>, ReadAllFault>
    requires { R.has_failed reader.old ≡ false }
    ensures bytes { IfOk result (λ all. IsFront most_read (R.remaining reader.old) all.items) }
    ensures rest { IfOk result (λ all. IsRest most_read (R.remaining reader.old) (R.remaining reader.new)) }
    ensures bound { IfOk result (λ all. vec_len all ≤ most_read) }
    ensures read { (result ≡ Err ReadAllFault.Read) ↔ (R.has_failed reader.new ≡ true) }
{
    let mut all = Vec::new(alloc);
    let mut buf = [0u8; 4096];
    while all.len() < LIMIT {
        let room = (LIMIT - all.len()).min(buf.len());
        let Ok(count) = reader.read(&mut buf[..room]) else {
            return Err(ReadAllFault::Read);
        };
        if count == 0 {
            break;
        }
        if all.extend_from_slice(&buf[..count]).is_err() {
            return Err(ReadAllFault::OutOfMemory);
        }
    }
    Ok(all)
}

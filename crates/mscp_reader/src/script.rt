// Scripts: their size, and their lines.

ghost use Rattle.std.specs.Prelude.{◌≡◌, ◌<◌, ◌≤◌, length, IfOk, IfErr};

use crate::fault::{Cause, ScriptFault};
use crate::lines::Lines;

/// The most bytes that a script has.
pub const MOST_BYTES: usize = 16_777_216;

/// The lines of a script that isn't too large.
///
/// # Errors
///
/// `Size`, at line 0, if it has over `MOST_BYTES`.
pub fn lines_of(bytes: &[u8]) -> Result<Lines<'_>, ScriptFault>
    ensures lines { IfOk result (λ lines. (lines.number ≡ 0) × (lines.rest.now ≡ bytes.now)) }
    ensures small { IfOk result (λ _. length bytes.now ≤ MOST_BYTES) }
    ensures size { IfErr result (λ fault. (fault ≡ record { line = 0; cause = Cause.Size })
        × (MOST_BYTES < length bytes.now)) }
{
    if bytes.len() > MOST_BYTES {
        return Err(ScriptFault {
            line: 0,
            cause: Cause::Size,
        });
    }
    Ok(Lines::new(bytes))
}

// A whole log: its header, and the lines behind it.

ghost use Rattle.std.specs.Prelude.{◌≡◌, Ok};
ghost use Rattle.mscp_judge.specs.Common.{Totals, HasLegalTrace, IsLegalVerdict, JudgesLog};

use crate::judging::{Verdict, judge_lines};
use mscp_reader::{ReadFault, lines_of, read_header};
use std::alloc::Allocator;

/// Judges a log. Its header is that of a script.
///
/// # Errors
///
/// The first line at fault, or `OutOfMemory`.
pub fn judge_log<A: Allocator>(alloc: A, bytes: &[u8]) -> Result<Verdict, ReadFault>
    ensures judges { JudgesLog bytes.now result }
    // So each log of which there is a legal trace is judged to be legal,
    ensures legal { HasLegalTrace bytes.now → IsLegalVerdict result }
    // and no other.
    ensures only { (totals : Totals) → result ≡ Ok (Verdict.Legal totals) → HasLegalTrace bytes.now }
{
    let mut lines = lines_of(bytes)?;
    let config = read_header(&mut lines)?;
    judge_lines(alloc, config, &mut lines)
}

// What comes of a log by all rules: by those of the wire, and by the credits that envelopes tell.

ghost use Rattle.std.specs.Prelude.{◌≡◌, Result};
ghost use Rattle.mscp_reader.specs.declared.fault.ScriptFault as faults;
ghost use Rattle.mscp_wire.specs.Log.{Log};
ghost use Rattle.mscp_wire.specs.Right.{Says};
ghost use Rattle.mscp_wire.specs.declared.wrong.Wrong as wrongs;
ghost use Rattle.mscpjudge.specs.Credited.{ComesOf, JudgesAll, is_before, judged_by, judged_with};

use crate::credits::log_breach;
use mscp_reader::ReadFault;
use mscp_wire::{Verdict, Wrong, judge_wire};
use std::alloc::Global;

/// Whether a message without a credit stands in an earlier line than what the judge of the wire returned.
fn is_before(breach: &Wrong, judged: &Result<Verdict<Global>, ReadFault>) -> bool
    ensures { result ≡ is_before breach.now judged.now }
{
    match judged {
        Ok(Verdict::Right(..)) => true,
        Ok(Verdict::Wrong(wrong)) => breach.line < wrong.line,
        Err(ReadFault::Script(fault)) => breach.line < fault.line,
        Err(ReadFault::OutOfMemory) => false,
    }
}

/// What the judge of the wire returned, or that message in its place, if it stands before.
fn judged_with(
    breach: Wrong,
    judged: Result<Verdict<Global>, ReadFault>,
) -> Result<Verdict<Global>, ReadFault>
    ensures { result ≡ judged_with breach judged }
{
    if is_before(&breach, &judged) {
        Ok(Verdict::Wrong(breach))
    } else {
        judged
    }
}

/// The same, if there is one.
fn judged_by(
    breach: Option<Wrong>,
    judged: Result<Verdict<Global>, ReadFault>,
) -> Result<Verdict<Global>, ReadFault>
    ensures { result ≡ judged_by breach judged }
{
    match breach {
        Some(breach) => judged_with(breach, judged),
        None => judged,
    }
}

/// Judges a log of the wire, and the credits that its envelopes tell.
pub(crate) fn judge_credited(alloc: Global, bytes: &[u8]) -> Result<Verdict<Global>, ReadFault>
    ensures judges { JudgesAll result bytes.now }
    ensures only { (came : Result (Result Log wrongs.Wrong) faults.ScriptFault) → ComesOf bytes.now came
        → Says result came }
{
    let judged = judge_wire(alloc, bytes);
    judged_by(log_breach(bytes), judged)
}

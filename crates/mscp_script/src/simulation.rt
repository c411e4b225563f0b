// A script in, its report out.

ghost use Rattle.std.specs.Prelude.{◌≡◌, ◌↔◌, true, false};
ghost use Rattle.mscp_script.specs.Common.{IsFault, IsGiven, LeavesRest, WritesOnce, WritesReport, sim_of_reading, sim_of_script};
ghost use Rattle.mscp_script.specs.declared.simulation.SimFault.TheVariants as faults;

use crate::reading::{LIMIT, ReadAllFault, read_all};
use crate::reported::report_script;
use crate::stream::{Failed, Sink, Source};
use mscp_reader::{ReadFault, ScriptFault};
use std::alloc::{Allocator, Global};
use thiserror::Error;

/// Why nothing was reported, or not all of it.
#[derive(Clone, Copy, Debug, Error)]
pub enum SimFault {
    /// A read failed.
    #[error("cannot read")]
    Read,
    /// The script has a fault.
    #[error(transparent)]
    Script(ScriptFault),
    /// The write failed. Nothing is said of how much went out.
    #[error("cannot write")]
    Write,
    #[error("out of memory")]
    OutOfMemory,
}

impl From<ReadAllFault> for SimFault {
    ghost from_gives = { λ fault e. e ≡ sim_of_reading fault };

    fn from(fault: ReadAllFault) -> SimFault {
        match fault {
            ReadAllFault::Read => SimFault::Read,
            ReadAllFault::OutOfMemory => SimFault::OutOfMemory,
        }
    }
}

impl From<ReadFault> for SimFault {
    ghost from_gives = { λ fault e. e ≡ sim_of_script fault };

    fn from(fault: ReadFault) -> SimFault {
        match fault {
            ReadFault::Script(fault) => SimFault::Script(fault),
            ReadFault::OutOfMemory => SimFault::OutOfMemory,
        }
    }
}

/// A write that fails.
impl From<Failed> for SimFault {
    ghost from_gives = { λ _ e. e ≡ faults.Write };

    fn from(_failure: Failed) -> SimFault {
        SimFault::Write
    }
}

/// `simulate` over any allocator, of which both the script and its report take memory.
///
/// # Errors
///
/// Those of `simulate`.
pub fn simulate_in<A: Allocator + Copy, R: Source, W: Sink>(
    alloc: A,
    reader: &mut R,
    writer: &mut W,
) -> Result<(), SimFault>
    requires reader { R.has_failed reader.old ≡ false }
    requires writer { W.has_failed writer.old ≡ false }
    ensures read { (result ≡ Err SimFault.Read) ↔ (R.has_failed reader.new ≡ true) }
    ensures write { (result ≡ Err SimFault.Write) ↔ (W.has_failed writer.new ≡ true) }
    ensures rest { LeavesRest result (R.remaining reader.old) (R.remaining reader.new) }
    ensures fault { (fault : ScriptFault) → result ≡ Err (SimFault.Script fault)
        → IsGiven (R.remaining reader.old) (λ script. IsFault script fault) }
    ensures written { WritesReport result (R.remaining reader.old) (W.contents writer.old) (W.contents writer.new) }
    ensures once { WritesOnce result (W.writes writer.old) (W.writes writer.new) }
{
    let script = read_all(alloc, reader)?;
    let text = report_script(Vec::new(alloc), &script)?;
    writer.write_all(&text)?;
    Ok(())
}

/// Reads a script until a read gives no byte or it has 16,777,217 bytes, runs it through a new controller, and writes
/// the report of the run in one write. A fault of the script is its first. Except where it says `Write`, nothing was
/// written on a fault.
///
/// # Errors
///
/// `Read` if a read fails, the script's first fault, `OutOfMemory` if memory runs out, and `Write` if the write fails.
pub fn simulate<R: Source, W: Sink>(
    alloc: Global,
    reader: &mut R,
    writer: &mut W,
) -> Result<(), SimFault>
    requires reader { R.has_failed reader.old ≡ false }
    requires writer { W.has_failed writer.old ≡ false }
    ensures read { (result ≡ Err SimFault.Read) ↔ (R.has_failed reader.new ≡ true) }
    ensures write { (result ≡ Err SimFault.Write) ↔ (W.has_failed writer.new ≡ true) }
    ensures rest { LeavesRest result (R.remaining reader.old) (R.remaining reader.new) }
    ensures fault { (fault : ScriptFault) → result ≡ Err (SimFault.Script fault)
        → IsGiven (R.remaining reader.old) (λ script. IsFault script fault) }
    ensures written { WritesReport result (R.remaining reader.old) (W.contents writer.old) (W.contents writer.new) }
    ensures once { WritesOnce result (W.writes writer.old) (W.writes writer.new) }
{
    simulate_in(alloc, reader, writer)
}

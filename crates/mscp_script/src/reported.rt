// The report of a script in one pass: what a line asks for comes to a controller as soon as the line is read.

ghost use Rattle.std.specs.Prelude.{◌≡◌, [], Err, IfOk};
ghost use Rattle.mscp_script.specs.Common.{Settings, Begins, HasGone, IsFault, rest_outcome, Runs, RunsTo, TellsReport, IsReport};

use crate::running::Run;
use mscp_controller::runs_keep_the_promise;
use mscp_queue::Sweep;
use mscp_reader::{Lines, ReadFault, ScriptFault, lines_of, read_header};
use mscp_text::Out;

/// Writes the report of the script that these bytes are to what has nothing in it, or tells its first fault. It takes
/// memory for the report alone.
///
/// # Errors
///
/// The script's first fault, or `OutOfMemory` if what it writes to refuses a text.
#[tactic(auto, using(mscp_reader::proofs::Sound::is_fault))]
pub fn report_script<O: Out>(out: O, bytes: &[u8]) -> Result<O, ReadFault>
    requires { O.text out ≡ [] }
    ensures report { IfOk result (λ report. IsReport bytes.now (O.text report)) }
    ensures fault { (fault : ScriptFault) → result ≡ Err (ReadFault.Script fault) → IsFault bytes.now fault }
    ensures refused { result ≡ Err ReadFault.OutOfMemory → O.refuses }
{
    report_lines(out, &mut lines_of(bytes)?)
}

/// The report of what lines stand for, or the first fault.
fn report_lines<O: Out>(out: O, lines: &mut Lines<'_>) -> Result<O, ReadFault>
    requires { O.text out ≡ [] }
    ensures told { TellsReport O.text result (rest_outcome lines.old.number Begins lines.old.rest.now) }
    ensures refused { result ≡ Err ReadFault.OutOfMemory → O.refuses }
{
    runs_keep_the_promise(&Sweep);
    let mut run = Run::new(out, read_header(lines)?);
    run_events(lines, &mut run)?;
    // A controller isn't small, so the run isn't handed on.
    let Run { reporter, .. } = run;
    Ok(reporter.finish()?)
}

/// Has a run meet the events of all lines that are left. It isn't made part of its caller, where it has fewer
/// registers.
#[inline(never)]
fn run_events<O: Out>(lines: &mut Lines<'_>, run: &mut Run<O>) -> Result<(), ReadFault>
    requires { run.old.reporter.count ≡ 0 }
    ensures ran { (c : Settings) → Runs c [] run.old → RunsTo c result run.new
        (rest_outcome lines.old.number (HasGone c []) lines.old.rest.now) }
    ensures refused { result ≡ Err ReadFault.OutOfMemory → O.refuses }
{
    loop {
        match lines.next_request(run.count() as usize) {
            Ok(Some(request)) => run.meet(&request)?,
            Ok(None) => return Ok(()),
            Err(fault) => return Err(ReadFault::Script(fault)),
        }
    }
}

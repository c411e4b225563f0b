// What is said of what hosts would have heard in a log.

ghost use Rattle.std.specs.Prelude.{◌≡◌, ◌++◌, false, OnOk};
ghost use Rattle.mscpjudge.specs.Common.{TellsHeard, counts_text, heard_outcome, WritesOnce};

use crate::fault::Fault;
use crate::judging::Outcome;
use mscp_judge::hear_log;
use mscp_script::{Sink, Source, read_all};
use mscp_text::{put, put_field};
use std::alloc::{AllocError, Allocator, Global};

/// How a log comes out in which hosts would have reset so often.
fn heard_outcome(resets: u32) -> Outcome
    ensures { result ≡ heard_outcome resets }
{
    if resets == 0 {
        Outcome::Legal
    } else {
        Outcome::Wrong
    }
}

/// Appends the line of the counts.
fn put_counts<A: Allocator>(text: &mut Vec<u8, A>, ends: u32, resets: u32) -> Result<(), AllocError>
    ensures { OnOk result (text.new.items ≡ text.old.items ++ counts_text ends resets) }
{
    put_field(text, "ends ", ends)?;
    put_field(text, " resets ", resets)?;
    put(text, "\n")
}

/// Lets hosts hear the log that a reader gives, and writes what they would have heard in one write.
pub(crate) fn hear<R: Source, W: Sink>(
    alloc: Global,
    reader: &mut R,
    writer: &mut W,
) -> Result<Outcome, Fault>
    requires reader { R.has_failed reader.old ≡ false }
    requires writer { W.has_failed writer.old ≡ false }
    ensures told { TellsHeard result (R.remaining reader.old) (W.contents writer.old) (W.contents writer.new) }
    ensures once { WritesOnce result (W.writes writer.old) (W.writes writer.new) }
{
    let log = read_all(alloc, reader)?;
    let hearing = hear_log(alloc, &log)?;
    let outcome = heard_outcome(hearing.resets);
    let mut text = hearing.text;
    put_counts(&mut text, hearing.ends, hearing.resets)?;
    writer.write_all(&text)?;
    Ok(outcome)
}

// The lines of a report. But for the last, and for those that are always the same, each is written from its end to its
// start, and appended in one piece.

ghost use Rattle.std.specs.Prelude.{◌≡◌, ◌+◌, ◌≤◌, ◌++◌, length, codes, OnErr, OnOk};
ghost use Rattle.mscp_script.specs.Common.{flat_map, aborted_part, block_word, connection_word, ended_part, entry_lines, figure_line, last_line, refusal_word, sent_line, step_line};
ghost use Rattle.mscp_controller.specs.declared.entry.Entry.TheVariants as entries;

use crate::reporting::tail::Tail;
use crate::totals::Totals;
use arrayvec::ArrayVec;
use mscp_controller::{Connection, Report, SendFault, Sent};
use mscp_packet::End;
use mscp_text::{Out, put, put_field};
use std::alloc::AllocError;

/// Puts in front that a line is of the second connection, if it is.
fn put_connection(line: &mut Tail, connection: Connection)
    requires { 7 + length line.old ≤ 108 }
    ensures { line.new ≡ connection_word connection ++ line.old }
{
    if connection == Connection::Second {
        line.words("second ");
    }
}

/// The word of a refusal.
fn refused(fault: SendFault) -> &'static str
    ensures { result.now ≡ refusal_word fault }
{
    match fault {
        SendFault::Short => "short",
        SendFault::Long => "long",
        SendFault::NoCredit => "no-credit",
        SendFault::LastCredit => "last-credit",
        SendFault::Doubled => "doubled",
    }
}

/// Puts in front that an ABORT ended a command, if it did.
fn put_aborted(line: &mut Tail, aborted: Option<u32>)
    requires { 19 + length line.old ≤ 108 }
    ensures value { line.new ≡ aborted_part aborted ++ line.old }
    ensures short { length line.new ≤ 19 + length line.old }
{
    if let Some(other) = aborted {
        line.field(" aborted ", other);
    }
}

/// Puts the line of a message that was taken in before its line feed.
fn put_taken_in(line: &mut Tail, sent: Sent)
    requires { line.old ≡ codes "\n" }
    ensures value { line.new ≡ sent_line sent }
    ensures short { length line.new ≤ 101 }
{
    match sent {
        Sent::Queued(reference) => line.field("queued ", reference),
        Sent::Answered { reference, aborted } => {
            put_aborted(line, aborted);
            line.field("answered ", reference);
        }
    }
}

/// Appends the line of a message of the connection: what became of it, or why it is refused.
pub(crate) fn put_sent<O: Out>(
    out: &mut O,
    line: &mut Tail,
    connection: Connection,
    sent: &Result<Sent, SendFault>,
) -> Result<(), AllocError>
    ensures value { OnOk result (O.text out.new ≡ O.text out.old ++ entry_lines (entries.Sent connection sent.now)) }
    ensures refused { OnErr result O.refuses }
{
    line.begin();
    match sent {
        Ok(sent) => put_taken_in(line, *sent),
        Err(fault) => {
            line.words(refused(*fault));
            line.words("refused ");
        }
    }
    put_connection(line, connection);
    out.append(line.bytes())
}

/// Appends the line of an end of the connection that was taken, or of none.
pub(crate) fn put_taken<O: Out>(
    out: &mut O,
    line: &mut Tail,
    connection: Connection,
    end: &Option<ArrayVec<u8, 48>>,
) -> Result<(), AllocError>
    ensures value { OnOk result (O.text out.new ≡ O.text out.old ++ entry_lines (entries.Taken connection end.now)) }
    ensures refused { OnErr result O.refuses }
{
    line.begin();
    match end {
        Some(bytes) => {
            line.hex(bytes.as_slice());
            line.words("end ");
        }
        None => line.words("none"),
    }
    put_connection(line, connection);
    out.append(line.bytes())
}

/// Puts in front what a step did with a block.
fn put_block(line: &mut Tail, lbn: Option<u32>)
    requires { 10 + length line.old ≤ 108 }
    ensures value { line.new ≡ block_word lbn ++ line.old }
    ensures short { length line.new ≤ 10 + length line.old }
{
    match lbn {
        Some(block) => line.number(block),
        None => line.words("none"),
    }
}

/// Puts in front the status of the end that a step brought.
fn put_ended(line: &mut Tail, ended: &Option<End>)
    requires { 11 + length line.old ≤ 108 }
    ensures value { line.new ≡ ended_part ended.now ++ line.old }
    ensures short { length line.new ≤ 11 + length line.old }
{
    if let Some(end) = ended {
        line.hex(&end.status.to_be_bytes());
        line.words(" ended ");
    }
}

/// Appends the line of a step.
pub(crate) fn put_step<O: Out>(
    out: &mut O,
    line: &mut Tail,
    report: &Report,
) -> Result<(), AllocError>
    ensures value { OnOk result (O.text out.new ≡ O.text out.old ++ step_line report.now) }
    ensures short { OnOk result (length (step_line report.now) ≤ 108) }
    ensures refused { OnErr result O.refuses }
{
    match report {
        Report::Idle => put(out, "idle\n"),
        Report::Served {
            connection,
            reference,
            unit,
            lbn,
            started: _,
            seek,
            ended,
        } => {
            line.begin();
            put_ended(line, ended);
            line.field(" seek ", *seek);
            put_block(line, *lbn);
            line.words(" block ");
            line.field(" unit ", u32::from(*unit));
            line.field("serve ", *reference);
            put_connection(line, *connection);
            out.append(line.bytes())
        }
    }
}

/// Appends the line of a waiting command.
fn put_figure<O: Out>(
    out: &mut O,
    line: &mut Tail,
    shown: &(Connection, u32, u32),
) -> Result<(), AllocError>
    ensures value { OnOk result (O.text out.new ≡ O.text out.old ++ figure_line shown.now) }
    ensures refused { OnErr result O.refuses }
{
    line.begin();
    line.field(" ", shown.2);
    line.field("figure ", shown.1);
    put_connection(line, shown.0);
    out.append(line.bytes())
}

/// Appends the line of each waiting command.
pub(crate) fn put_figures<O: Out>(
    out: &mut O,
    line: &mut Tail,
    shown: &[(Connection, u32, u32)],
) -> Result<(), AllocError>
    ensures value { OnOk result (O.text out.new ≡ O.text out.old ++ flat_map figure_line shown.now) }
    ensures refused { OnErr result O.refuses }
{
    for command in shown {
        put_figure(out, line, command)?;
    }
    Ok(())
}

/// Appends the last line.
pub(crate) fn put_totals<O: Out>(out: &mut O, totals: &Totals) -> Result<(), AllocError>
    ensures value { OnOk result (O.text out.new ≡ O.text out.old
        ++ last_line totals.now.steps totals.now.seeks totals.now.queued totals.now.ended) }
    ensures refused { OnErr result O.refuses }
{
    put_field(out, "steps ", totals.steps)?;
    put_field(out, " seeks ", totals.seeks)?;
    put_field(out, " pending ", totals.pending())?;
    put(out, "\n")
}

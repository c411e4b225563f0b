// What is said of a log.

ghost use Rattle.std.specs.Prelude.{◌≡◌, ◌++◌, false, OnOk, IfOk};
ghost use Rattle.mscpjudge.specs.Common.{flat_map, Says, WritesOnce, has_starts, holder_text, legal_text, name_text, outcome_of, peaks_text, right_text, rule_text, served_text, spaced_name, starts_text, unanswered_text, verdict_text, wrong_text};

use crate::fault::Fault;
use mscp_controller::{Connection, Holder, Name};
use mscp_judge::{Right, Rule, Totals, Verdict, judge_log};
use mscp_script::{Sink, Source, read_all};
use mscp_text::{put, put_field};
use std::alloc::{AllocError, Allocator, Global};

/// How a log was judged.
#[derive(Clone, Copy)]
pub enum Outcome {
    /// It is legal, or no host would have reset the controller.
    Legal,
    /// It isn't, or one would have.
    Wrong,
}

/// How a log is judged by this verdict.
fn outcome_of(verdict: &Verdict) -> Outcome
    ensures { result ≡ outcome_of verdict.now }
{
    match verdict {
        Verdict::Legal(_) => Outcome::Legal,
        Verdict::Wrong(..) | Verdict::Unanswered(_) => Outcome::Wrong,
    }
}

/// Appends the rest of the line of the totals: the largest figure, the bound, and the most blocks by which a command
/// was passed.
fn put_peaks<A: Allocator>(text: &mut Vec<u8, A>, totals: &Totals) -> Result<(), AllocError>
    ensures { OnOk result (text.new.items ≡ text.old.items ++ peaks_text totals.now) }
{
    put_field(text, " figure ", totals.figure)?;
    put_field(text, " bound ", totals.bound)?;
    put_field(text, " passed ", totals.passed)?;
    put(text, "\n")
}

/// Appends the lines of a log that is legal, and has these totals.
fn put_legal<A: Allocator>(text: &mut Vec<u8, A>, totals: &Totals) -> Result<(), AllocError>
    ensures { OnOk result (text.new.items ≡ text.old.items ++ legal_text totals.now) }
{
    put_field(text, "legal\nmoments ", totals.moments)?;
    put_field(text, " steps ", totals.steps)?;
    put_peaks(text, totals)
}

/// Appends the line of what would have been right.
fn put_right<A: Allocator>(text: &mut Vec<u8, A>, right: &Right) -> Result<(), AllocError>
    ensures { OnOk result (text.new.items ≡ text.old.items ++ right_text right.now.items) }
{
    put(text, "right: ")?;
    text.extend_from_slice(right.as_slice())?;
    put(text, "\n")
}

/// Appends the name of a command. One of the first connection is its reference number alone.
fn put_name<A: Allocator>(
    text: &mut Vec<u8, A>,
    connection: Connection,
    reference: u32,
) -> Result<(), AllocError>
    ensures { OnOk result (text.new.items ≡ text.old.items ++ name_text connection reference) }
{
    match connection {
        Connection::First => put_field(text, "", reference),
        Connection::Second => put_field(text, "second ", reference),
    }
}

/// Appends how an earlier command keeps one back.
fn put_holder<A: Allocator>(text: &mut Vec<u8, A>, holder: &Holder) -> Result<(), AllocError>
    ensures { OnOk result (text.new.items ≡ text.old.items ++ holder_text holder.now) }
{
    put(
        text,
        if holder.fences {
            "fence of "
        } else {
            "passing limit of "
        },
    )?;
    put_name(text, holder.connection, holder.reference)
}

/// Appends which command is in service.
fn put_served<A: Allocator>(text: &mut Vec<u8, A>, named: &Name) -> Result<(), AllocError>
    ensures { OnOk result (text.new.items ≡ text.old.items ++ served_text named.now) }
{
    put(text, "in service is ")?;
    put_name(text, named.connection, named.reference)
}

/// Appends the words of a rule.
fn put_rule<A: Allocator>(text: &mut Vec<u8, A>, rule: &Rule) -> Result<(), AllocError>
    ensures { OnOk result (text.new.items ≡ text.old.items ++ rule_text rule.now) }
{
    match rule {
        Rule::Unasked => put(text, "no event"),
        Rule::Missing => put(text, "answer missing"),
        Rule::Message => put(text, "message"),
        Rule::Figure => put(text, "figure"),
        Rule::Order => put(text, "order of ends"),
        Rule::End => put(text, "end"),
        Rule::Idle => put(text, "step"),
        Rule::NotWaiting => put(text, "not waiting"),
        Rule::InService(named) => put_served(text, named),
        Rule::KeptBack(holder) => put_holder(text, holder),
        Rule::Service => put(text, "service"),
    }
}

/// Whether it is told which commands may start, where this rule is broken: where a step is to be answered, and the line
/// names one that may not be served.
fn has_starts(rule: &Rule) -> bool
    ensures { result ≡ has_starts rule.now }
{
    match rule {
        Rule::NotWaiting | Rule::KeptBack(_) => true,
        _ => false,
    }
}

/// Appends these names, each behind a space.
fn put_names<A: Allocator>(text: &mut Vec<u8, A>, names: &[Name]) -> Result<(), AllocError>
    ensures { OnOk result (text.new.items ≡ text.old.items ++ flat_map spaced_name names.now) }
{
    for named in names {
        put(text, " ")?;
        put_name(text, named.connection, named.reference)?;
    }
    Ok(())
}

/// Appends the line of the commands that may start.
fn put_starts<A: Allocator>(
    text: &mut Vec<u8, A>,
    rule: &Rule,
    starts: &[Name],
) -> Result<(), AllocError>
    ensures { OnOk result (text.new.items ≡ text.old.items ++ starts_text rule.now starts.now) }
{
    if !has_starts(rule) {
        return Ok(());
    }
    put(text, "may start:")?;
    put_names(text, starts)?;
    put(text, "\n")
}

/// Appends the lines of a log whose line of this number isn't legal, for this rule.
fn put_wrong<A: Allocator>(
    text: &mut Vec<u8, A>,
    line: u32,
    rule: &Rule,
    starts: &[Name],
    right: &Right,
) -> Result<(), AllocError>
    ensures { OnOk result (text.new.items
        ≡ text.old.items ++ wrong_text line rule.now ++ starts_text rule.now starts.now ++ right_text right.now.items) }
{
    put_field(text, "line ", line)?;
    put(text, ": not legal\nrule: ")?;
    put_rule(text, rule)?;
    put(text, "\n")?;
    put_starts(text, rule, starts)?;
    put_right(text, right)
}

/// Appends the lines of a log that isn't whole.
fn put_unanswered<A: Allocator>(text: &mut Vec<u8, A>, right: &Right) -> Result<(), AllocError>
    ensures { OnOk result (text.new.items ≡ text.old.items ++ unanswered_text ++ right_text right.now.items) }
{
    put(text, "end: not legal\n")?;
    put_right(text, right)
}

/// Appends the lines that say a verdict.
fn put_verdict<A: Allocator>(text: &mut Vec<u8, A>, verdict: &Verdict) -> Result<(), AllocError>
    ensures { OnOk result (text.new.items ≡ text.old.items ++ verdict_text verdict.now) }
{
    match verdict {
        Verdict::Legal(totals) => put_legal(text, totals),
        Verdict::Wrong(line, rule, starts, right) => {
            put_wrong(text, *line, rule, starts.as_slice(), right)
        }
        Verdict::Unanswered(right) => put_unanswered(text, right),
    }
}

/// The lines that say a verdict.
fn text_of<A: Allocator>(alloc: A, verdict: &Verdict) -> Result<Vec<u8, A>, AllocError>
    ensures { IfOk result (λ text. text.items ≡ verdict_text verdict.now) }
{
    let mut text = Vec::new(alloc);
    put_verdict(&mut text, verdict)?;
    Ok(text)
}

/// Judges the log that a reader gives, and writes what is said of it in one write.
pub(crate) fn judge<R: Source, W: Sink>(
    alloc: Global,
    reader: &mut R,
    writer: &mut W,
) -> Result<Outcome, Fault>
    requires reader { R.has_failed reader.old ≡ false }
    requires writer { W.has_failed writer.old ≡ false }
    ensures said { Says result (R.remaining reader.old) (W.contents writer.old) (W.contents writer.new) }
    ensures once { WritesOnce result (W.writes writer.old) (W.writes writer.new) }
{
    let log = read_all(alloc, reader)?;
    let verdict = judge_log(alloc, &log)?;
    let text = text_of(alloc, &verdict)?;
    writer.write_all(&text)?;
    Ok(outcome_of(&verdict))
}

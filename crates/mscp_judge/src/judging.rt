// A log, judged line by line.
//
// Which rule a line breaks is known only before the step that it answers, and a legal log doesn't need it. So a log is
// judged without it, and once more only if some line is wrong. Lines that are due are compared with the log in one
// piece; if a byte differs, they are judged one by one, so that rules and faults stay the same.

ghost use Rattle.std.specs.Prelude.{◌≡◌, ◌+◌, ◌<◌, ◌≤◌, ◌++◌, [], codes, true, false, IfOk, IfSome, IfNone, OnOk, Ok, Some, drop, length};
ghost use Rattle.mscp_judge.specs.Common.{IsValid, Settings, asked_next, events_of, MOST_EVENTS, Breaks, Finds, Judges, Passed, AreAnswers, Log, nothing, IsNamedAhead, Stands, due};
ghost use Rattle.mscp_reader.specs.Lexical as lexical;
ghost use Rattle.mscp_judge.specs.Judged.{Hears};

use crate::answers::is_answer;
use crate::judge::{Judge, Right};
use crate::naming::named_ahead;
use crate::rules::Rule;
use crate::starting::Starts;
use crate::totals::Totals;
use mscp_controller::{Config, Name, OutOfMemory};
use mscp_reader::{Line, Lines, MOST_LINES, ReadFault, Request, request_after, words_of};
use std::alloc::Allocator;

/// What is said of a log.
#[derive(Drop)]
pub enum Verdict {
    /// It is legal, and these are its totals.
    Legal(Totals),
    /// The line of this number is the first that no legal log has there, the rule that it breaks, and what would have
    /// been right: a line, or nothing where no answer is right. Where a step is to be answered, and the rule is
    /// neither `Service` nor `Idle`, these commands may start.
    Wrong(u32, Rule, Starts, Right),
    /// Each line is one that a legal log has there, but at the end an answer is missing: such a line.
    Unanswered(Right),
}

/// Judges the lines of a log that stand behind its header, whose configuration this is.
///
/// # Errors
///
/// The first line at fault, or `OutOfMemory`.
pub fn judge_lines<A: Allocator>(
    alloc: A,
    config: Config,
    lines: &mut Lines<'_>,
) -> Result<Verdict, ReadFault>
    ensures { Judges config lines.old.number (lexical.lines lines.old.rest.now) result }
{
    let (rest, number) = (lines.rest, lines.number);
    let mut judge = Judge::new(alloc, config);
    if let Some(verdict) = find(&mut judge, lines, false)? {
        return Ok(verdict);
    }
    // Some line is wrong, or isn't written as a report has it. The lines are judged once more, since its rule is known
    // only before a step.
    *lines = Lines { rest, number };
    judge.restart();
    match find(&mut judge, lines, true)? {
        Some(verdict) => Ok(verdict),
        None => unreachable!(),
    }
}

/// What is said of all lines that are left. It is nothing where one is wrong and its rule isn't wanted.
fn find<A: Allocator>(
    judge: &mut Judge<A>,
    lines: &mut Lines<'_>,
    is_rule_wanted: bool,
) -> Result<Option<Verdict>, ReadFault>
    requires { judge.old.reporter.count + judge.old.owed ≡ 0 }
    ensures { (c : Settings) → Stands c nothing judge.old
        → Finds c lines.old.number (lexical.lines lines.old.rest.now) is_rule_wanted result judge.new }
{
    if !pass_lines(judge, lines, is_rule_wanted)? {
        return Ok(None);
    }
    while let Some(bytes) = lines.cut() {
        if let Some(rule) = judge_line(judge, lines.number, bytes, is_rule_wanted)? {
            if !is_rule_wanted {
                return Ok(None);
            }
            let starts = judge.take_starts();
            let right = judge.right()?;
            return Ok(Some(Verdict::Wrong(lines.number, rule, starts, right)));
        }
        if !pass_lines(judge, lines, is_rule_wanted)? {
            return Ok(None);
        }
    }
    if judge.is_settled() {
        Ok(Some(Verdict::Legal(judge.totals())))
    } else {
        Ok(Some(Verdict::Unanswered(judge.right()?)))
    }
}

/// Passes over the next lines, as far as they are found to be right by their bytes alone. Told is false where one is
/// found not to be, which is done only if its rule isn't wanted: then nothing more is said.
fn pass_lines<A: Allocator>(
    judge: &mut Judge<A>,
    lines: &mut Lines<'_>,
    is_rule_wanted: bool,
) -> Result<bool, OutOfMemory>
    requires { judge.old.reporter.count + judge.old.owed ≤ MOST_EVENTS }
    ensures passed { result ≡ Ok true → (c : Settings) (log : Log) → Stands c log judge.old
        → Passed c lines.old.number log lines.old.rest.now lines.new.number lines.new.rest.now judge.new }
    ensures wrong { result ≡ Ok false → (c : Settings) (log : Log) → Stands c log judge.old
        → (is_rule_wanted ≡ false) × IsValid c × (judge.new.controller.settings ≡ c) }
    ensures count { OnOk result (judge.new.reporter.count + judge.new.owed ≤ MOST_EVENTS) }
    ensures left { OnOk result (length lines.new.rest.now ≤ length lines.old.rest.now) }
{
    while pass_request(judge, lines)? {
        if !pass_steps(judge, lines, is_rule_wanted)? {
            return Ok(false);
        }
        pass_idle(judge, lines)?;
    }
    Ok(true)
}

/// Passes over the lines of the steps that are to be answered, as far as each says in the words of a report which
/// command was served. Told is false where one isn't what that step answers: then nothing more is said. Where its rule
/// is wanted none is passed over.
fn pass_steps<A: Allocator>(
    judge: &mut Judge<A>,
    lines: &mut Lines<'_>,
    is_rule_wanted: bool,
) -> Result<bool, OutOfMemory>
    requires { judge.old.reporter.count + judge.old.owed ≤ MOST_EVENTS }
    ensures passed { result ≡ Ok true → (c : Settings) (log : Log) → Stands c log judge.old
        → Passed c lines.old.number log lines.old.rest.now lines.new.number lines.new.rest.now judge.new }
    ensures wrong { result ≡ Ok false → (c : Settings) (log : Log) → Stands c log judge.old
        → (is_rule_wanted ≡ false) × IsValid c × (judge.new.controller.settings ≡ c) }
    ensures count { OnOk result (judge.new.reporter.count + judge.new.owed ≤ MOST_EVENTS) }
    ensures left { OnOk result (length lines.new.rest.now ≤ length lines.old.rest.now) }
{
    if is_rule_wanted {
        return Ok(true);
    }
    while let Some(named) = served_next(judge, lines.rest) {
        judge.step(Some(named))?;
        if !cut_due(judge, lines, 1) {
            return Ok(false);
        }
    }
    Ok(true)
}

/// The command that the line ahead says was served, if the next answer is that of a step.
fn served_next<A: Allocator>(judge: &Judge<A>, bytes: &[u8]) -> Option<Name>
    ensures due { IfSome result (λ _. due judge.now ≡ []) }
    ensures owed { IfSome result (λ _. 0 < judge.now.owed) }
    ensures named { IfSome result (λ named. IsNamedAhead bytes.now named) }
{
    if !judge.owes() {
        return None;
    }
    named_ahead(bytes)
}

/// Passes over the lines of steps at which nothing waits, as far as they are the next lines.
fn pass_idle<A: Allocator>(judge: &mut Judge<A>, lines: &mut Lines<'_>) -> Result<(), OutOfMemory>
    requires { judge.old.reporter.count + judge.old.owed ≤ MOST_EVENTS }
    ensures passed { OnOk result ((c : Settings) (log : Log) → Stands c log judge.old
        → Passed c lines.old.number log lines.old.rest.now lines.new.number lines.new.rest.now judge.new) }
    ensures count { OnOk result (judge.new.reporter.count + judge.new.owed ≤ MOST_EVENTS) }
    ensures left { OnOk result (length lines.new.rest.now ≤ length lines.old.rest.now) }
{
    while judge.is_idle() && lines.number < MOST_LINES {
        let Some(rest) = behind_idle(lines.rest) else {
            return Ok(());
        };
        *lines = Lines {
            rest,
            number: lines.number + 1,
        };
        judge.idle()?;
    }
    Ok(())
}

/// What stands behind the line of an idle step, if bytes begin with it.
fn behind_idle(bytes: &[u8]) -> Option<&[u8]>
    ensures { IfSome result (λ behind. bytes.now ≡ codes "idle\n" ++ behind.now) }
{
    match bytes {
        [b'i', b'd', b'l', b'e', b'\n', behind @ ..] => Some(behind),
        _ => None,
    }
}

/// Where all is answered, passes over the next line, if that asks for events, and over its answers, as far as they are
/// known and stand there. Any other line stays. Told is whether a line was passed over.
fn pass_request<A: Allocator>(
    judge: &mut Judge<A>,
    lines: &mut Lines<'_>,
) -> Result<bool, OutOfMemory>
    requires { judge.old.reporter.count + judge.old.owed ≤ MOST_EVENTS }
    ensures passed { OnOk result ((c : Settings) (log : Log) → Stands c log judge.old
        → Passed c lines.old.number log lines.old.rest.now lines.new.number lines.new.rest.now judge.new) }
    ensures count { OnOk result (judge.new.reporter.count + judge.new.owed ≤ MOST_EVENTS) }
    ensures left { OnOk result (length lines.new.rest.now ≤ length lines.old.rest.now) }
    ensures shorter { result ≡ Ok true → length lines.new.rest.now < length lines.old.rest.now }
{
    if !judge.is_settled() {
        return Ok(false);
    }
    let Some(request) = cut_request(lines, judge.count() as usize) else {
        return Ok(false);
    };
    let count = judge.ask(&request)?;
    cut_due(judge, lines, count);
    Ok(true)
}

/// Cuts off the next line, if it asks for events, where so many came before. Any other line stays.
fn cut_request<'a>(lines: &mut Lines<'a>, count: usize) -> Option<Request<'a>>
    requires { count ≤ MOST_EVENTS }
    ensures asks { IfSome result (λ request. asked_next lines.old.number count (lexical.lines lines.old.rest.now)
        ≡ Ok (Some (events_of request))) }
    ensures some { IfSome result (λ request. 0 < length (events_of request)) }
    ensures few { IfSome result (λ request. count + length (events_of request) ≤ MOST_EVENTS) }
    ensures rest { IfSome result (λ _. lexical.lines lines.new.rest.now
        ≡ drop 1 (lexical.lines lines.old.rest.now)) }
    ensures number { IfSome result (λ _. lines.new.number ≡ lines.old.number + 1) }
    ensures shorter { IfSome result (λ _. length lines.new.rest.now < length lines.old.rest.now) }
    ensures none { IfNone result ((lines.new.number ≡ lines.old.number) × (lines.new.rest.now ≡ lines.old.rest.now)) }
{
    let (rest, number) = (lines.rest, lines.number);
    match lines.next_request(count) {
        Ok(Some(request)) if request.event_count() > 0 => Some(request),
        _ => {
            *lines = Lines { rest, number };
            None
        }
    }
}

/// Cuts off what is due, which is so many lines, and tells it, if the next lines are just that. Told is whether they
/// are.
fn cut_due<A: Allocator>(judge: &mut Judge<A>, lines: &mut Lines<'_>, count: u32) -> bool
    requires { AreAnswers (due judge.old) count }
    ensures cut { result ≡ true → lines.old.rest.now ≡ due judge.old ++ lines.new.rest.now }
    ensures number { result ≡ true → lines.new.number ≡ lines.old.number + count }
    ensures most { result ≡ true → lines.new.number ≤ MOST_LINES }
    ensures told { result ≡ true → due judge.new ≡ [] }
    ensures frame { judge.new ≡ record judge.old { told = judge.new.told } }
    ensures count { judge.new.reporter.count + judge.new.owed ≡ judge.old.reporter.count + judge.old.owed }
    ensures rest { result ≡ false → lines.new.rest.now ≡ lines.old.rest.now }
    ensures kept { result ≡ false → lines.new.number ≡ lines.old.number }
    ensures untold { result ≡ false → judge.new ≡ judge.old }
    ensures left { length lines.new.rest.now ≤ length lines.old.rest.now }
{
    let due = judge.due();
    if !lines.rest.starts_with(due) || lines.number + count > MOST_LINES {
        return false;
    }
    *lines = Lines {
        rest: &lines.rest[due.len()..],
        number: lines.number + count,
    };
    judge.tell_all();
    true
}

/// Judges the line of this number: the rule that it breaks, if it breaks one, or any if that isn't wanted.
fn judge_line<A: Allocator>(
    judge: &mut Judge<A>,
    number: u32,
    bytes: &[u8],
    is_rule_wanted: bool,
) -> Result<Option<Rule>, ReadFault>
    requires number { 1 ≤ number }
    requires count { judge.old.reporter.count + judge.old.owed ≤ MOST_EVENTS }
    ensures hears { (c : Settings) (log : Log) → Stands c log judge.old
        → Hears c number log bytes.now result judge.new }
    ensures breaks { is_rule_wanted ≡ true
        → IfOk result (λ broken. Breaks judge.old bytes.now broken judge.new.starts.items) }
    ensures count { IfOk result (λ _. judge.new.reporter.count + judge.new.owed ≤ MOST_EVENTS) }
{
    let words = words_of(number, bytes)?;
    if is_answer(words) {
        return Ok(judge.hear(bytes, words, is_rule_wanted)?);
    }
    if words.is_empty() {
        return Ok(None);
    }
    match request_after(Line { number, words }, judge.count() as usize) {
        Ok(_) if !judge.is_settled() => Ok(Some(Rule::Missing)),
        Ok(request) => {
            judge.ask(&request)?;
            Ok(None)
        }
        Err(fault) => Err(ReadFault::Script(fault)),
    }
}

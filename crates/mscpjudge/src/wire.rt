// What is said of a log of the wire.

ghost use Rattle.std.specs.Prelude.{◌≡◌, ◌++◌, OnOk, IfOk};
ghost use Rattle.mscpjudge.specs.Common.{flat_map, breach_text, breaker_name, broken_text, command_text, connection_name, meant_text, outstanding_text, wire_outcome, wire_text};
ghost use Rattle.mscp_wire.specs.Course.{places_in};
ghost use Rattle.mscpjudge.specs.Commands as commands;
ghost use Rattle.mscpjudge.specs.Credits.{credits_before, credits_text};
ghost use Rattle.mscpjudge.specs.Numbers.{number_by};
ghost use Rattle.mscpjudge.specs.Times.{log_time, time_of};
ghost use Rattle.mscpjudge.specs.Wired as wired;

use crate::credits::{Credits, credits_before};
use crate::doubts::put_doubts;
use crate::judging::Outcome;
use crate::numbers::number_of;
use crate::places::put_places;
use crate::time::put_at;
use crate::times::{Times, times_in};
use crate::timing::put_timing;
use crate::totals::put_totals;
use crate::values::{put_against, put_told};
use mscp_controller::{Connection, OutOfMemory};
use mscp_packet::{has_row, opcode_name};
use mscp_text::{put, put_field};
use mscp_wire::{Places, Rule, Sent, Totals, Verdict, Wrong, places_in};
use std::alloc::{AllocError, Allocator, Global};

/// Whose it is, if that isn't the first connection's host.
pub(crate) fn connection_name(connection: Connection) -> &'static str
    ensures { result.now ≡ connection_name connection }
{
    match connection {
        Connection::First => "",
        Connection::Second => "second ",
    }
}

/// What a rule is called.
pub(crate) fn rule_name(rule: Rule) -> &'static str
    ensures { result.now ≡ wired.rule_name rule }
{
    match rule {
        Rule::Message => "message",
        Rule::Number => "reference number",
        Rule::Credits => "credits",
        Rule::Length => "length",
        Rule::Outstanding => "outstanding",
        Rule::Unit => "unit",
        Rule::Endcode => "endcode",
        Rule::Status => "status",
        Rule::Aborted => "aborted",
        Rule::Order => "order",
        Rule::Success => "success",
        Rule::About => "about",
        Rule::Figure => "figure",
        Rule::Count => "byte count",
        Rule::Identity => "identity",
        Rule::State => "state",
        Rule::Controller => "controller",
    }
}

/// Whose rule it is.
fn breaker_name(rule: Rule) -> &'static str
    ensures { result.now ≡ breaker_name rule }
{
    match rule {
        Rule::Message | Rule::Number | Rule::Credits => "host",
        _ => "controller",
    }
}

/// What a rule says (manual).
fn rule_text(rule: Rule) -> &'static str
    ensures { result.now ≡ wired.rule_text rule }
{
    match rule {
        Rule::Message => "a command message has 12 bytes at least",
        Rule::Number => "no outstanding command of a host has the reference number of another",
        Rule::Credits => {
            "a host needs a credit for each command, and keeps the last one for immediate commands"
        }
        Rule::Length => "an end message is as long as its endcode asks",
        Rule::Outstanding => "an end message answers a command that is outstanding, and each once",
        Rule::Unit =>
            "an end message names the unit of its command, unless that asks for the next one",
        Rule::Endcode => "the endcode is the opcode of the command and 0x80",
        Rule::Status => "the status is one that such a command may have",
        Rule::Aborted => "a command is aborted by a later ABORT, and ends before that does",
        Rule::Order =>
            "a sequential command of a unit passes no earlier one, and is passed by none",
        Rule::Success => "an ABORT and a GET COMMAND STATUS succeed",
        Rule::About => {
            "the end of an ABORT or a GET COMMAND STATUS names the command that it is about"
        }
        Rule::Figure => {
            "the status of the oldest command falls from poll to poll, and is 0 of one that isn't outstanding"
        }
        Rule::Count => {
            "as many bytes are moved as were asked for, and fewer only if the status isn't Success"
        }
        Rule::Identity => {
            "the identifier, media type and size of a unit stay the same while it is online"
        }
        Rule::State => {
            "a transfer and a GET UNIT STATUS succeed, and an ONLINE has 0x0100, only if the unit is online"
        }
        Rule::Controller => "the identifier of the controller stays the same",
    }
}

/// Appends a command of an opcode that has a name, and ends the line.
fn put_named<A: Allocator>(text: &mut Vec<u8, A>, command: &Sent) -> Result<(), AllocError>
    ensures { OnOk result (text.new.items ≡ text.old.items ++ commands.named_text command.now) }
{
    put(text, opcode_name(command.opcode))?;
    put_field(text, " ", command.reference)?;
    put_field(text, " of unit ", command.unit)?;
    put(text, "\n")
}

/// Appends a command of any other opcode, and ends the line.
fn put_unnamed<A: Allocator>(text: &mut Vec<u8, A>, command: &Sent) -> Result<(), AllocError>
    ensures { OnOk result (text.new.items ≡ text.old.items ++ commands.unnamed_text command.now) }
{
    put_field(text, "command ", command.reference)?;
    put_field(text, " of unit ", command.unit)?;
    put_field(text, " (unknown opcode ", command.opcode)?;
    put(text, ")\n")
}

/// Appends what a command is, and ends the line.
#[tactic(auto, unfolding(crate::specs::Commands::command_text))]
pub(crate) fn put_command<A: Allocator>(
    text: &mut Vec<u8, A>,
    command: &Sent,
) -> Result<(), AllocError>
    ensures { OnOk result (text.new.items ≡ text.old.items ++ command_text command.now) }
{
    put(text, connection_name(command.connection))?;
    if has_row(command.opcode) {
        put_named(text, command)
    } else {
        put_unnamed(text, command)
    }
}

/// Appends the line of a command that is still outstanding.
#[tactic(auto, unfolding(crate::specs::Wired::outstanding_text))]
fn put_left<A: Allocator>(text: &mut Vec<u8, A>, command: &Sent) -> Result<(), AllocError>
    ensures { OnOk result (text.new.items ≡ text.old.items ++ outstanding_text command.now) }
{
    put(text, "outstanding: ")?;
    put_command(text, command)
}

/// Appends a line for each of the commands that are still outstanding.
fn put_outstanding<A: Allocator>(text: &mut Vec<u8, A>, commands: &[Sent]) -> Result<(), AllocError>
    ensures { OnOk result (text.new.items ≡ text.old.items ++ flat_map outstanding_text commands.now) }
{
    for command in commands {
        put_left(text, command)?;
    }
    Ok(())
}

/// Appends the line of the command that is meant, if there is one.
fn put_meant<A: Allocator>(text: &mut Vec<u8, A>, command: &Option<Sent>) -> Result<(), AllocError>
    ensures { OnOk result (text.new.items ≡ text.old.items ++ meant_text command.now) }
{
    match command {
        Some(command) => {
            put(text, "command: ")?;
            put_command(text, command)
        }
        None => Ok(()),
    }
}

/// Appends the line of a rule.
fn put_rule<A: Allocator>(text: &mut Vec<u8, A>, rule: Rule) -> Result<(), AllocError>
    ensures { OnOk result (text.new.items ≡ text.old.items ++ wired.rule_line rule) }
{
    put(text, "rule of the ")?;
    put(text, breaker_name(rule))?;
    put(text, ": ")?;
    put(text, rule_name(rule))?;
    put(text, "\n")
}

/// Appends the line of what a rule says.
fn put_manual<A: Allocator>(text: &mut Vec<u8, A>, rule: Rule) -> Result<(), AllocError>
    ensures { OnOk result (text.new.items ≡ text.old.items ++ wired.manual_line rule) }
{
    put(text, "manual: ")?;
    put(text, rule_text(rule))?;
    put(text, "\n")
}

/// Appends which line isn't right, and its time.
#[tactic(auto, unfolding(crate::specs::Wired::line_text))]
fn put_line<A: Allocator>(
    text: &mut Vec<u8, A>,
    line: u32,
    times: &Times<'_>,
) -> Result<(), AllocError>
    ensures { OnOk result (text.new.items ≡ text.old.items
        ++ wired.line_text (number_by times.now.numbers.now) (time_of times.now.lines) line) }
{
    put_field(text, "line ", number_of(times.numbers, line))?;
    put_at(text, times.at(line))?;
    put(text, ": not right\n")
}

/// Appends the line of how many credits there were, where all are known to be spent.
#[tactic(auto, unfolding(crate::specs::Credits::credits_text))]
fn put_credits<A: Allocator>(
    text: &mut Vec<u8, A>,
    credits: &Option<Credits>,
) -> Result<(), AllocError>
    ensures { OnOk result (text.new.items ≡ text.old.items ++ credits_text credits.now) }
{
    match credits {
        Some(credits) if credits.left == 0 => {
            put_field(text, "credits: ", credits.given)?;
            put(text, " since the reset, all spent\n")
        }
        _ => Ok(()),
    }
}

/// Appends the lines of a moment that isn't right, and of the credits of its host, if it breaks the rule on them.
pub(crate) fn put_wrong<A: Allocator>(
    text: &mut Vec<u8, A>,
    wrong: &Wrong,
    credits: &Option<Credits>,
    places: &Places,
    times: &Times<'_>,
) -> Result<(), AllocError>
    ensures { OnOk result (text.new.items ≡ text.old.items
        ++ breach_text (number_by times.now.numbers.now) (time_of times.now.lines) credits.now wrong.now places.now) }
{
    put_line(text, wrong.line, times)?;
    put_rule(text, wrong.rule)?;
    put_meant(text, &wrong.command)?;
    put_told(text, &wrong.moment)?;
    put_against(text, wrong)?;
    put_credits(text, credits)?;
    put_places(text, wrong.rule, places, times)
}

/// Appends the lines of a log of which this moment is the first that isn't right.
fn put_broken(
    alloc: Global,
    text: &mut Vec<u8>,
    log: &[u8],
    numbers: &[u32],
    wrong: &Wrong,
) -> Result<(), OutOfMemory>
    ensures { OnOk result (text.new.items ≡ text.old.items
        ++ broken_text (number_by numbers.now) (log_time log.now) (credits_before log.now wrong.now) wrong.now
        (places_in log.now)) }
{
    let places = places_in(alloc, log)?;
    let times = times_in(alloc, log, numbers)?;
    let credits = credits_before(log, wrong);
    put_wrong(text, wrong, &credits, &places, &times)?;
    put_manual(text, wrong.rule)?;
    Ok(())
}

/// Appends the lines of the totals of a log, and of its times.
#[tactic(auto, unfolding(crate::specs::Wired::counted_text))]
fn put_counted(
    alloc: Global,
    text: &mut Vec<u8>,
    log: &[u8],
    numbers: &[u32],
    totals: &Totals,
) -> Result<(), AllocError>
    ensures { OnOk result (text.new.items ≡ text.old.items
        ++ wired.counted_text (number_by numbers.now) log.now totals.now) }
{
    put_totals(text, totals)?;
    put_timing(alloc, text, log, numbers)
}

/// Appends the lines of a verdict on a log.
fn put_verdict(
    alloc: Global,
    text: &mut Vec<u8>,
    log: &[u8],
    numbers: &[u32],
    verdict: &Verdict<Global>,
) -> Result<(), OutOfMemory>
    ensures { OnOk result (text.new.items ≡ text.old.items ++ wire_text (number_by numbers.now) log.now verdict.now) }
{
    match verdict {
        Verdict::Right(totals, doubts, commands) => {
            put_counted(alloc, text, log, numbers, totals)?;
            put_doubts(text, doubts, numbers)?;
            put_outstanding(text, commands.as_slice())?;
            Ok(())
        }
        Verdict::Wrong(wrong) => put_broken(alloc, text, log, numbers, wrong),
    }
}

/// The lines of a verdict on a log.
pub(crate) fn text_of(
    alloc: Global,
    log: &[u8],
    numbers: &[u32],
    verdict: &Verdict<Global>,
) -> Result<Vec<u8>, OutOfMemory>
    ensures { IfOk result (λ text. text.items ≡ wire_text (number_by numbers.now) log.now verdict.now) }
{
    let mut text = Vec::new(alloc);
    put_verdict(alloc, &mut text, log, numbers, verdict)?;
    Ok(text)
}

/// How a log is judged by a verdict.
pub(crate) fn wire_outcome<A: Allocator>(verdict: &Verdict<A>) -> Outcome
    ensures { result ≡ wire_outcome verdict.now }
{
    match verdict {
        Verdict::Right(..) => Outcome::Legal,
        Verdict::Wrong(_) => Outcome::Wrong,
    }
}

// What is outstanding after the moments so far, and which rule the next one breaks.
//
// The rules of the wire have a crate of their own, without a definition of this project's controller. So they judge
// any. That ours keeps them is a law of another crate, with few premises: what a legal trace may do is a doubt.

ghost use Rattle.std.specs.Prelude.{◌≡◌, ℕ, ◌+◌, ◌++◌, ◌∷◌, [], drop, if◌then◌else◌, OnOk, IfOk, IfSome, IsSome, Some, None};
ghost use Rattle.mscp_packet.specs.Number.{num};
ghost use Rattle.mscp_drive.specs.declared.connection.Connection as connections;
ghost use Rattle.mscp_wire.specs.Doubts as doubt;
ghost use Rattle.mscp_wire.specs.Wire as wire;
ghost use Rattle.mscp_wire.specs.Kept.{cell, place, place_if, sents};
ghost use Rattle.mscp_wire.specs.Totals as total;

use crate::answer::{Answer, is_long};
use crate::commands::Commands;
use crate::doubtful::doubtful_found;
use crate::doubts::Doubtful;
use crate::falls::fall_found;
use crate::moment::Moment;
use crate::outstanding::has_abort;
use crate::polls::has_figure;
use crate::rule::Rule;
use crate::sent::Sent;
use crate::told::{Seen, later_of, later_time};
use crate::units::Units;
use mscp_drive::{Connection, OutOfMemory};
use mscp_packet::is_immediate;
use std::alloc::Allocator;

/// The most credits of a host: more than any controller gives, and few enough to be looked through.
pub(crate) const MOST_CREDITS: u32 = 1024;

/// How many credits each host has at most.
fn limit_of(credits: Option<u32>) -> u32
    ensures { result ≡ wire.limit_of credits }
{
    match credits {
        Some(credits) => credits.min(MOST_CREDITS),
        None => MOST_CREDITS,
    }
}

/// Whether a host has a credit for a command.
fn has_credit<A: Allocator + Copy>(
    credits: Option<u32>,
    commands: &Commands<A>,
    sent: &Sent,
) -> bool
    ensures { result ≡ wire.has_credit credits (sents commands.now) sent.now }
{
    let credits = u64::from(limit_of(credits));
    let needed = commands.count_on(sent.connection) as u64 + 1;
    needed < credits || (needed == credits && is_immediate(sent.opcode))
}

/// The first rule of a host that a command breaks.
fn broken_message<A: Allocator + Copy>(
    credits: Option<u32>,
    commands: &Commands<A>,
    sent: &Sent,
) -> Option<Rule>
    ensures { result ≡ wire.broken_message credits (sents commands.now) sent.now }
{
    if commands.has_named(sent.connection, sent.reference) {
        return Some(Rule::Number);
    }
    if !has_credit(credits, commands, sent) {
        return Some(Rule::Credits);
    }
    None
}

/// The first rule that the body of an end of this command, which stands in a cell, breaks.
fn broken_body<A: Allocator + Copy>(
    commands: &Commands<A>,
    at: usize,
    command: &Sent,
    seen: &Seen,
    answer: &Answer,
) -> Option<Rule>
    requires { IsSome (cell commands.now at) }
    ensures { result ≡ wire.broken_body (drop (place commands.now at + 1) (sents commands.now)) command.now seen.now
        answer.now }
{
    if !answer.succeeds(answer.other_of(command)) {
        return Some(Rule::Success);
    }
    if !answer.is_about(answer.other_of(command)) {
        return Some(Rule::About);
    }
    if !has_figure(commands, at, command, answer, answer.polled_by(command)) {
        return Some(Rule::Figure);
    }
    if !answer.has_count(answer.count_of(command)) {
        return Some(Rule::Count);
    }
    if !seen.unit.is_same_unit(answer) {
        return Some(Rule::Identity);
    }
    if !seen.unit.state.suits(answer) {
        return Some(Rule::State);
    }
    if !seen.is_same_controller(answer) {
        return Some(Rule::Controller);
    }
    None
}

/// The first rule that an end of the command in a cell breaks.
fn broken_end<A: Allocator + Copy>(
    commands: &Commands<A>,
    at: usize,
    seen: &Seen,
    answer: &Answer,
) -> Option<Rule>
    requires { IsSome (cell commands.now at) }
    ensures { result ≡ wire.broken_at (sents commands.now) seen.now answer.now (Some (place commands.now at)) }
{
    let command = commands.at(at);
    if !answer.names_unit(&command) {
        return Some(Rule::Unit);
    }
    if !answer.has_endcode(&command) {
        return Some(Rule::Endcode);
    }
    if !answer.has_status(&command) {
        return Some(Rule::Status);
    }
    if !has_abort(commands, at, &command, answer) {
        return Some(Rule::Aborted);
    }
    if !commands.passes_none(at, &command, answer) {
        return Some(Rule::Order);
    }
    broken_body(commands, at, &command, seen, answer)
}

/// The same, if there is one.
fn broken_answer<A: Allocator + Copy>(
    commands: &Commands<A>,
    seen: &Seen,
    answer: &Answer,
    at: Option<usize>,
) -> Option<Rule>
    requires { IfSome at (λ i. IsSome (cell commands.now i)) }
    ensures { result ≡ wire.broken_at (sents commands.now) seen.now answer.now (place_if commands.now at) }
{
    match at {
        Some(at) => broken_end(commands, at, seen, answer),
        None => Some(Rule::Outstanding),
    }
}

/// What comes of a moment.
#[derive(Clone, Copy)]
pub struct Stepped {
    /// The first rule that it breaks, if it breaks one.
    pub rule: Option<Rule>,
    /// The command that it sends, or the outstanding one that it answers, if there is one.
    pub command: Option<Sent>,
    /// How far it says that a figure fell.
    pub fall: u32,
    /// What is doubtful of it.
    pub doubtful: Doubtful,
}

impl Stepped {
    /// Of a moment that is about no command.
    fn right() -> Stepped
        ensures { result ≡ record { rule = None; command = None; fall = 0; doubtful = doubt.no_doubt } }
    {
        Stepped {
            rule: None,
            command: None,
            fall: 0,
            doubtful: Doubtful::nothing(),
        }
    }

    /// Of a moment that breaks this rule, and is about no command.
    fn broken(rule: Rule) -> Stepped
        ensures { result ≡ record { rule = Some rule; command = None; fall = 0; doubtful = doubt.no_doubt } }
    {
        Stepped {
            rule: Some(rule),
            command: None,
            fall: 0,
            doubtful: Doubtful::nothing(),
        }
    }
}

/// What is outstanding on the wire and known of units that are online, where each host has so many credits.
#[derive(Drop)]
pub struct Judge<A: Allocator> {
    pub credits: Option<u32>,
    /// The identifier of the controller, if that was told.
    pub controller: Option<u64>,
    /// The controller timeout in seconds, if that was told.
    pub timeout: Option<u16>,
    pub commands: Commands<A>,
    pub units: Units<A>,
}

impl<A: Allocator + Copy> Judge<A> {
    /// Of no moment.
    pub fn new(alloc: A, credits: Option<u32>) -> Judge<A>
        ensures credits { result.credits ≡ credits }
        ensures controller { result.controller ≡ None }
        ensures timeout { result.timeout ≡ None }
        ensures commands { sents result.commands ≡ [] }
        ensures units { (via : connections.Connection) (unit : ℕ)
            → wire.kept result.units via unit ≡ wire.told_nothing }
        ensures called { (identifier : ℕ) → wire.kept_called result.units identifier ≡ None }
    {
        Judge {
            credits,
            controller: None,
            timeout: None,
            commands: Commands::new(alloc),
            units: Units::new(alloc),
        }
    }

    /// What comes of a host's message. If it breaks no rule its command is outstanding. It isn't made part of the loop
    /// over all lines, nor is what is called for an end: of one large body each line would move all that any line
    /// makes.
    #[inline(never)]
    fn message(
        &mut self,
        connection: Connection,
        bytes: &[u8],
        time: Option<u64>,
    ) -> Result<Stepped, OutOfMemory>
        ensures rule { IfOk result (λ o. o.rule ≡ wire.unless (wire.is_message bytes.now) Rule.Message
            (wire.broken_message self.old.credits (sents self.old.commands) (wire.sent_by connection bytes.now))) }
        ensures command { IfOk result (λ o. o.command
            ≡ (if wire.is_message bytes.now then Some (wire.sent_by connection bytes.now) else None)) }
        ensures fall { IfOk result (λ o. o.fall ≡ 0) }
        ensures doubtful { IfOk result (λ o. o.doubtful ≡ doubt.no_doubt) }
        ensures after { IfOk result (λ o. o.rule ≡ None → sents self.new.commands
            ≡ sents self.old.commands
            ++ wire.asking self.old.timeout (sents self.old.commands)
            (wire.timed time (wire.sent_by connection bytes.now)) ∷ []) }
        ensures units { IfOk result (λ o. o.rule ≡ None → (via : connections.Connection) (unit : ℕ)
            → wire.kept self.new.units via unit ≡ wire.told_after_message via unit
            (wire.kept self.old.units via unit) (wire.sent_by connection bytes.now)) }
        ensures called { (identifier : ℕ)
            → wire.kept_called self.new.units identifier ≡ wire.kept_called self.old.units identifier }
        ensures controller { self.new.controller ≡ self.old.controller }
        ensures timeout { self.new.timeout ≡ self.old.timeout }
        ensures unchanged { IfOk result (λ o. IfSome o.rule (λ _. self.new ≡ self.old)) }
        ensures credits { self.new.credits ≡ self.old.credits }
    {
        if bytes.len() < 12 {
            return Ok(Stepped::broken(Rule::Message));
        }
        let sent = Sent::of(connection, bytes);
        let rule = broken_message(self.credits, &self.commands, &sent);
        if rule.is_none() {
            self.hear(&sent, time)?;
        }
        Ok(Stepped {
            rule,
            command: Some(sent),
            fall: 0,
            doubtful: Doubtful::nothing(),
        })
    }

    /// An end came, which is settled or not: the command at its place isn't outstanding any more, and what it tells is
    /// known.
    pub fn ended(
        &mut self,
        answer: &Answer,
        at: Option<usize>,
        settled: bool,
    ) -> Result<(), OutOfMemory>
        requires { IfSome at (λ i. IsSome (cell self.old.commands i)) }
        ensures after { OnOk result (sents self.new.commands
            ≡ wire.after_end (sents self.old.commands) answer.now (place_if self.old.commands at)) }
        ensures units { OnOk result ((via : connections.Connection) (unit : ℕ) → wire.kept self.new.units via unit
            ≡ wire.told_after_end via unit settled (wire.kept self.old.units via unit) answer.now) }
        ensures called { OnOk result ((identifier : ℕ) → wire.kept_called self.new.units identifier
            ≡ wire.called_after_end identifier (wire.kept_called self.old.units identifier) answer.now) }
        ensures controller { OnOk result (self.new.controller
            ≡ wire.later_of answer.now.controller self.old.controller) }
        ensures timeout { OnOk result (self.new.timeout ≡ wire.later_of answer.now.timeout self.old.timeout) }
        ensures credits { self.new.credits ≡ self.old.credits }
    {
        self.units.hear_end(answer, settled)?;
        self.controller = later_of(answer.controller, self.controller);
        self.timeout = later_time(answer.timeout, self.timeout);
        if let Some(at) = at {
            self.commands.take(at, answer);
        }
        Ok(())
    }

    /// What comes of an end. If it breaks no rule its command isn't outstanding any more.
    #[inline(never)]
    fn end(&mut self, connection: Connection, bytes: &[u8]) -> Result<Stepped, OutOfMemory>
        ensures rule { IfOk result (λ o. o.rule ≡ wire.unless (wire.is_long bytes.now) Rule.Length
            (wire.broken_at (sents self.old.commands) (record {
              unit = wire.unit_before (sents self.old.commands) (wire.kept self.old.units)
                  (wire.answer_by connection bytes.now);
              controller = self.old.controller;
            })
            (wire.answer_by connection bytes.now)
            (wire.place_of (sents self.old.commands) (wire.answer_by connection bytes.now)))) }
        ensures command { IfOk result (λ o. o.command ≡ (if wire.is_long bytes.now
            then wire.answered_by (sents self.old.commands) (wire.answer_by connection bytes.now) else None)) }
        ensures fall { IfOk result (λ o. o.fall ≡ (if wire.is_long bytes.now
            then total.fall_found (wire.answer_by connection bytes.now)
            (wire.answered_by (sents self.old.commands) (wire.answer_by connection bytes.now)) else 0)) }
        ensures doubtful { IfOk result (λ o. o.doubtful ≡ (if wire.is_long bytes.now
            then doubt.doubtful_found (wire.kept self.old.units) (wire.kept_called self.old.units)
            (wire.answer_by connection bytes.now)
            (wire.answered_by (sents self.old.commands) (wire.answer_by connection bytes.now)) else doubt.no_doubt)) }
        ensures after { IfOk result (λ o. o.rule ≡ None → sents self.new.commands
            ≡ wire.after_end (sents self.old.commands) (wire.answer_by connection bytes.now)
            (wire.place_of (sents self.old.commands) (wire.answer_by connection bytes.now))) }
        ensures units { IfOk result (λ o. o.rule ≡ None → (via : connections.Connection) (unit : ℕ)
            → wire.kept self.new.units via unit ≡ wire.told_after_end via unit
            (wire.settles (sents self.old.commands) (wire.answer_by connection bytes.now))
            (wire.kept self.old.units via unit) (wire.answer_by connection bytes.now)) }
        ensures called { IfOk result (λ o. o.rule ≡ None → (identifier : ℕ)
            → wire.kept_called self.new.units identifier
            ≡ wire.called_after_end identifier (wire.kept_called self.old.units identifier)
            (wire.answer_by connection bytes.now)) }
        ensures controller { IfOk result (λ o. o.rule ≡ None → self.new.controller
            ≡ wire.later_of (wire.controller_in bytes.now) self.old.controller) }
        ensures timeout { IfOk result (λ o. o.rule ≡ None → self.new.timeout
            ≡ wire.later_of (wire.timeout_in bytes.now) self.old.timeout) }
        ensures unchanged { IfOk result (λ o. IfSome o.rule (λ _. self.new ≡ self.old)) }
        ensures credits { self.new.credits ≡ self.old.credits }
    {
        if !is_long(bytes) {
            return Ok(Stepped::broken(Rule::Length));
        }
        let answer = Answer::of(connection, bytes);
        let at = self.commands.cell_of(&answer);
        let command = self.commands.command_if(at);
        let settled = self.commands.settles(at, &answer);
        let seen = self.seen_by(&answer, settled);
        let rule = broken_answer(&self.commands, &seen, &answer, at);
        let fall = fall_found(&answer, command);
        let doubtful = doubtful_found(&self.units, &answer, command);
        if rule.is_none() {
            self.ended(&answer, at, settled)?;
        }
        Ok(Stepped {
            rule,
            command,
            fall,
            doubtful,
        })
    }

    /// What comes of a moment. If it breaks no rule it is added to those before it.
    pub fn step(&mut self, moment: &Moment) -> Result<Stepped, OutOfMemory>
        ensures rule { IfOk result (λ o. o.rule ≡ wire.broken self.old.credits (sents self.old.commands)
            (wire.seen_of (sents self.old.commands) (wire.kept self.old.units) self.old.controller moment.now)
            moment.now) }
        ensures command { IfOk result (λ o. o.command ≡ wire.command_of (sents self.old.commands) moment.now) }
        ensures fall { IfOk result (λ o. o.fall ≡ total.fall_after (sents self.old.commands) moment.now) }
        ensures doubtful { IfOk result (λ o. o.doubtful
            ≡ doubt.doubtful (sents self.old.commands) (wire.kept self.old.units)
            (wire.kept_called self.old.units) moment.now) }
        ensures after { IfOk result (λ o. o.rule ≡ None → sents self.new.commands
            ≡ wire.after self.old.timeout (sents self.old.commands) moment.now) }
        ensures units { IfOk result (λ o. o.rule ≡ None → (via : connections.Connection) (unit : ℕ)
            → wire.kept self.new.units via unit
            ≡ wire.told_after (sents self.old.commands) via unit (wire.kept self.old.units via unit) moment.now) }
        ensures called { IfOk result (λ o. o.rule ≡ None → (identifier : ℕ)
            → wire.kept_called self.new.units identifier
            ≡ wire.called_after identifier (wire.kept_called self.old.units identifier) moment.now) }
        ensures controller { IfOk result (λ o. o.rule ≡ None → self.new.controller
            ≡ wire.controller_after self.old.controller moment.now) }
        ensures timeout { IfOk result (λ o. o.rule ≡ None → self.new.timeout
            ≡ wire.timeout_after self.old.timeout moment.now) }
        ensures unchanged { IfOk result (λ o. IfSome o.rule (λ _. self.new ≡ self.old)) }
        ensures credits { self.new.credits ≡ self.old.credits }
    {
        match moment {
            Moment::Message(connection, message, time) => {
                self.message(*connection, message.as_slice(), *time)
            }
            Moment::End(connection, message) => self.end(*connection, message.as_slice()),
            Moment::Reset => {
                self.reset();
                Ok(Stepped::right())
            }
            Moment::Closed(connection) => {
                self.close(*connection);
                Ok(Stepped::right())
            }
        }
    }
}

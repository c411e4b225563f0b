// The credits of hosts, where a log has whole packets: an account of what the controller gave and what a host spent,
// and the messages for which a host had none.

ghost use Rattle.std.specs.Prelude.{◌≡◌, ◌≤◌, ℕ, Result};
ghost use Rattle.std.specs.List.{list_any};
ghost use Rattle.mscp_reader.specs.Common.{in_line};
ghost use Rattle.mscp_reader.specs.Lexical as lexical;
ghost use Rattle.mscp_reader.specs.declared.fault.Cause.{Cause};
ghost use Rattle.mscp_wire.specs.declared.line.Said as saids;
ghost use Rattle.mscpjudge.specs.Credits as told;

use crate::envelopes::{Tells, line_tells};
use mscp_controller::Connection;
use mscp_reader::{Lines, ScriptFault, lines_of};
use mscp_wire::{Moment, Rule, Said, Seen, Sent, Wrong, line_says};

/// The credits of a host: how many are left, of so many that it had since the controller was initialised.
#[derive(Clone, Copy)]
pub struct Credits {
    pub left: u16,
    pub given: u32,
}

/// The credits of each host, if they are known.
#[derive(Clone, Copy)]
pub struct Account {
    pub first: Option<Credits>,
    pub second: Option<Credits>,
}

/// How many a host has to whom so many more are given.
fn given(known: Option<Credits>, more: u8) -> Option<Credits>
    ensures { result ≡ told.given known more }
{
    let Credits { left, given } = known?;
    Some(Credits {
        left: left.saturating_add(u16::from(more)),
        given: given.saturating_add(u32::from(more)),
    })
}

/// How many one has who spends one.
fn spent(known: Option<Credits>) -> Option<Credits>
    ensures { result ≡ told.spent known }
{
    let known = known?;
    Some(Credits {
        left: known.left.saturating_sub(1),
        ..known
    })
}

/// Whether a host is known to have none.
fn has_none(known: Option<Credits>) -> bool
    ensures { result ≡ told.has_none known }
{
    match known {
        Some(credits) => credits.left == 0,
        None => false,
    }
}

impl Account {
    /// Of which nothing is known.
    pub(crate) fn unknown() -> Account
        ensures { result ≡ told.unknown }
    {
        Account {
            first: None,
            second: None,
        }
    }

    /// Of hosts whose controller was initialised.
    fn initial() -> Account
        ensures { result ≡ told.initial }
    {
        let one = Credits { left: 1, given: 1 };
        Account {
            first: Some(one),
            second: Some(one),
        }
    }

    /// The credits of a connection's host.
    fn of(&self, connection: Connection) -> Option<Credits>
        ensures { result ≡ told.credits_of self.now connection }
    {
        match connection {
            Connection::First => self.first,
            Connection::Second => self.second,
        }
    }

    /// The same account where that host has so many.
    fn with(self, connection: Connection, credits: Option<Credits>) -> Account
        ensures { result ≡ told.with_credits self connection credits }
    {
        match connection {
            Connection::First => Account {
                first: credits,
                ..self
            },
            Connection::Second => Account {
                second: credits,
                ..self
            },
        }
    }

    /// The account once this happened.
    fn after_moment(self, moment: &Moment) -> Account
        ensures { result ≡ told.after_moment self moment.now }
    {
        match moment {
            Moment::Message(connection, message, _) if message.len() >= 12 => {
                self.with(*connection, spent(self.of(*connection)))
            }
            Moment::Reset => Account::initial(),
            Moment::Closed(connection) => self.with(*connection, None),
            Moment::Message(..) | Moment::End(..) => self,
        }
    }

    /// The account once a line said this.
    fn after_said(self, said: &Result<Said, ScriptFault>) -> Account
        ensures { (number : ℕ) (read : Result saids.Said Cause) → said.now ≡ in_line number read
            → result ≡ told.after_said self read }
    {
        match said {
            Ok(Said::Happens(moment)) => self.after_moment(moment),
            _ => self,
        }
    }

    /// The account once a line told this of credits, and said this.
    fn after(self, tells: Tells, said: &Result<Said, ScriptFault>) -> Account
        ensures { (number : ℕ) (read : Result saids.Said Cause) → said.now ≡ in_line number read
            → result ≡ told.account_after self tells read }
    {
        match tells {
            Tells::Gives(connection, more) => {
                self.with(connection, given(self.of(connection), more))
            }
            Tells::Hides(connection) => self.with(connection, None),
            Tells::Nothing => self.after_said(said),
        }
    }

    /// What is wrong of a moment: of a message for which its host lacks a credit.
    fn breach_by(&self, number: u32, moment: Moment) -> Option<Wrong>
        ensures { result ≡ told.breach_by number self.now moment }
    {
        let command = match &moment {
            Moment::Message(connection, message, _) if message.len() >= 12 => {
                Sent::of(*connection, message.as_slice())
            }
            _ => return None,
        };
        if !has_none(self.of(command.connection)) {
            return None;
        }
        Some(Wrong {
            line: number,
            rule: Rule::Credits,
            moment,
            command: Some(command),
            passed: None,
            seen: Seen::nothing(),
        })
    }

    /// The same of what a line says.
    fn breach_said(&self, number: u32, said: Result<Said, ScriptFault>) -> Option<Wrong>
        ensures { (read : Result saids.Said Cause) → said ≡ in_line number read
            → result ≡ told.breach_said number self.now read }
    {
        match said {
            Ok(Said::Happens(moment)) => self.breach_by(number, moment),
            _ => None,
        }
    }

    /// The same, where it tells this of credits.
    fn breach_in(&self, number: u32, tells: Tells, said: Result<Said, ScriptFault>) -> Option<Wrong>
        ensures { (read : Result saids.Said Cause) → said ≡ in_line number read
            → result ≡ told.breach_in number self.now tells read }
    {
        match tells {
            Tells::Nothing => self.breach_said(number, said),
            _ => None,
        }
    }

    /// The credits of the host whose command breaks the rule on them, if one does.
    pub(crate) fn told_in(&self, wrong: &Wrong) -> Option<Credits>
        ensures { result ≡ told.credits_by wrong.now.rule wrong.now.command self.now }
    {
        match (wrong.rule, wrong.command) {
            (Rule::Credits, Some(command)) => self.of(command.connection),
            _ => None,
        }
    }

    /// Reads the line of this number: what is wrong of it.
    pub(crate) fn line(&mut self, number: u32, line: &[u8]) -> Option<Wrong>
        requires { 1 ≤ number }
        ensures breach { result ≡ told.line_breach number self.old line.now }
        ensures after { self.new ≡ told.after_line number self.old line.now }
    {
        let tells = line_tells(number, line);
        let said = line_says(number, line);
        let next = self.after(tells, &said);
        let breach = self.breach_in(number, tells, said);
        *self = next;
        breach
    }
}

/// Whether a log has hosts' packets with envelopes: of all its words only `from` has the letter.
fn has_packets(log: &[u8]) -> bool
    ensures { result ≡ list_any told.is_of_from log.now }
{
    log.iter().any(|byte| *byte == b'm')
}

/// The first message without a credit in these lines.
fn breach_from(lines: &mut Lines<'_>) -> Option<Wrong>
    requires { lines.old.number ≡ 0 }
    ensures { result ≡ told.breach_from 0 told.unknown (lexical.lines lines.old.rest.now) }
{
    let mut account = Account::unknown();
    while let Some(line) = lines.cut() {
        if let Some(wrong) = account.line(lines.number, line) {
            return Some(wrong);
        }
    }
    None
}

/// The same in a log that isn't too large.
fn lines_breach(log: &[u8]) -> Option<Wrong>
    ensures { result ≡ told.lines_breach log.now }
{
    match lines_of(log) {
        Ok(mut lines) => breach_from(&mut lines),
        Err(_) => None,
    }
}

/// The first message without a credit in a log, where hosts' packets have envelopes.
#[tactic(auto, unfolding(crate::specs::Credits::log_breach))]
pub(crate) fn log_breach(log: &[u8]) -> Option<Wrong>
    ensures { result ≡ told.log_breach log.now }
{
    if has_packets(log) {
        lines_breach(log)
    } else {
        None
    }
}

/// The account before the line of this number, of these lines.
fn account_of(lines: &mut Lines<'_>, number: u32) -> Account
    requires { lines.old.number ≡ 0 }
    ensures { result ≡ told.account_in 0 number told.unknown (lexical.lines lines.old.rest.now) }
{
    let mut account = Account::unknown();
    while let Some(line) = lines.cut() {
        if number <= lines.number {
            return account;
        }
        let _ = account.line(lines.number, line);
    }
    account
}

/// The same of a log, unless that is too large.
fn account_before(log: &[u8], number: u32) -> Account
    ensures { result ≡ told.account_before log.now number }
{
    match lines_of(log) {
        Ok(mut lines) => account_of(&mut lines, number),
        Err(_) => Account::unknown(),
    }
}

/// The credits of the host whose command breaks the rule on them in a log.
pub(crate) fn credits_before(log: &[u8], wrong: &Wrong) -> Option<Credits>
    ensures { result ≡ told.credits_before log.now wrong.now }
{
    match wrong.rule {
        Rule::Credits => account_before(log, wrong.line).told_in(wrong),
        _ => None,
    }
}

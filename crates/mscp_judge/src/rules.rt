// The rule that a line breaks.

ghost use Rattle.std.specs.Prelude.{◌≡◌, ◌≢◌, ◌≤◌, true, false, Some};
ghost use Rattle.mscp_judge.specs.Common.{IsValid, Settings, Trace, fresh, IsStepRule, Led, Wanted};
ghost use Rattle.mscp_judge.specs.Rules as rules;

use crate::naming::Wanted;
use mscp_controller::{Controller, Holder, Name};

/// The rule that a line of a log breaks.
#[derive(Clone, Copy)]
pub enum Rule {
    /// No event is left that the line could answer.
    Unasked,
    /// An answer is missing: the line asks for events, or the log ends.
    Missing,
    /// A message is queued, answered or refused as its bytes and the credits say.
    Message,
    /// A figure, of a poll or a look, is another.
    Figure,
    /// Ends are taken in the order in which they were made.
    Order,
    /// The end of this command says something else.
    End,
    /// A step is idle only if nothing waits.
    Idle,
    /// No command of this name waits, or the line names none.
    NotWaiting,
    /// Another command is in service.
    InService(Name),
    /// An earlier command keeps the command back: it stays behind that one, or would pass it too often.
    KeptBack(Holder),
    /// The command may be served, but the line says something else of it.
    Service,
}

/// Whether bytes begin with a word.
fn begins(bytes: &[u8], word: &str) -> bool
    ensures { result ≡ rules.begins bytes.now word.now }
{
    if bytes.len() < word.len() {
        return false;
    }
    &bytes[..word.len()] == word.as_bytes()
}

/// A line without the word of the second connection.
fn unnamed(line: &[u8]) -> &[u8]
    ensures { result.now ≡ rules.unnamed line.now }
{
    if begins(line, "second ") {
        &line[7..]
    } else {
        line
    }
}

/// Whether two lines have the same bytes from one place up to another.
fn same_part(right: &[u8], told: &[u8], from: usize, to: usize) -> bool
    requires { from ≤ to }
    ensures { result ≡ rules.same_part right.now told.now from to }
{
    if right.len() < to || told.len() < to {
        return false;
    }
    right[from..to] == told[from..to]
}

/// Whether an end is that of a poll.
fn is_poll(line: &[u8]) -> bool
    ensures { result ≡ rules.is_poll line.now }
{
    line.len() >= 20 && begins(&line[20..], "82")
}

/// The rule that is broken where this end is due, and that is told.
fn end_rule(right: &[u8], told: &[u8]) -> Rule
    ensures { result ≡ rules.end_rule right.now told.now }
{
    if is_poll(right) && same_part(right, told, 4, 36) {
        Rule::Figure
    } else if same_part(right, told, 4, 12) {
        Rule::End
    } else {
        Rule::Order
    }
}

/// The rule that is broken where this is due, without the word of the second connection, and that is told.
fn answer_rule(right: &[u8], told: &[u8]) -> Rule
    ensures { result ≡ rules.answer_rule right.now told.now }
{
    if begins(right, "serve") || begins(right, "idle") {
        Rule::Service
    } else if begins(right, "figure") {
        Rule::Figure
    } else if begins(right, "end") || begins(right, "none") {
        end_rule(right, told)
    } else {
        Rule::Message
    }
}

/// The rule that is broken where these bytes are due, and a line tells those.
pub(crate) fn due_rule(right: &[u8], told: &[u8]) -> Rule
    ensures { result ≡ rules.due_rule right.now told.now }
{
    answer_rule(unnamed(right), unnamed(told))
}

/// Whether this command is the one that is named.
fn is_wanted(wanted: Option<Name>, command: Name) -> bool
    ensures wanted { result ≡ true → Some command ≡ wanted }
    ensures other { result ≡ false → wanted ≢ Some command }
{
    match wanted {
        Some(name) => {
            name.connection == command.connection && name.reference == command.reference
        }
        None => false,
    }
}

/// The rule that keeps a step from serving the command that is named: that of another service, if none does.
pub(crate) fn step_rule(controller: &Controller<Wanted>, wanted: Option<Name>) -> Rule
    ensures { (c : Settings) (t : Trace) (begun : Wanted) → IsValid c → Led (fresh c begun) t controller.now
        → IsStepRule c t wanted result }
{
    if let Some((connection, reference)) = controller.serving() {
        let served = Name {
            connection,
            reference,
        };
        return if is_wanted(wanted, served) {
            Rule::Service
        } else {
            Rule::InService(served)
        };
    }
    let Some(named) = wanted else {
        return Rule::NotWaiting;
    };
    if controller.figure(named.connection, named.reference) == 0 {
        return Rule::NotWaiting;
    }
    let holders = controller.holders(named.connection, named.reference);
    if holders.is_empty() {
        Rule::Service
    } else {
        Rule::KeptBack(holders[0])
    }
}

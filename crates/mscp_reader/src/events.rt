// The lines after the header: what each asks for.

ghost use Rattle.std.specs.Prelude.{◌≡◌, ◌+◌, ◌≤◌, length, IfOk, IfErr};
ghost use Rattle.mscp_reader.specs.Common.{Gives, events_of, asked_after, in_line};
ghost use Rattle.mscp_reader.specs.Lexical as lexical;
ghost use Rattle.mscp_reader.specs.Requests as requests;

use crate::fault::{Cause, ScriptFault};
use crate::lines::Line;
use crate::numbers::{message, narrow, status, wide};
use crate::request::{Request, ValidCommand};
use crate::words::Words;
use mscp_drive::{Block, Connection, FaultStatus};
use mscp_packet::{MoveKind, Order};

/// The most events of a script.
pub const MOST_EVENTS: usize = 1_000_000;

/// The most steps of one line.
pub(crate) const MOST_STEPS: u32 = 1000;

/// What the first word of a line says that its fields are.
#[derive(Clone, Copy)]
pub enum Form {
    /// REF UNIT BYTES LBN of a transfer.
    Transfer(MoveKind),
    /// REF UNIT of another command to a unit.
    Plain(Order),
    /// REF of a SET CONTROLLER CHARACTERISTICS.
    SetController,
    /// REF OTHER of an abort.
    Abort,
    /// REF OTHER of a poll.
    Status,
    /// HEX of a message.
    Packet,
    /// How many good blocks.
    Step,
    /// HEX4 of a bad block.
    Bad,
    /// No fields: an end is taken.
    Take,
    /// No fields: all figures are asked for.
    Look,
}

impl Form {
    /// Whether a line of this form is of a host: something is sent or taken.
    fn is_of_host(self) -> bool
        ensures { result ≡ requests.is_of_host self }
    {
        !matches!(self, Form::Step | Form::Bad | Form::Look)
    }
}

/// What a line asks for, where so many events came before.
///
/// # Errors
///
/// What is wrong with the line: the first cause in the order of `Cause`.
pub fn request_after(line: Line<'_>, count: usize) -> Result<Request<'_>, ScriptFault>
    requires { count ≤ MOST_EVENTS }
    ensures asks { Gives events_of result (in_line line.entry.number (asked_after count (lexical.words
        line.entry.words.rest.now))) }
    ensures few { IfOk result (λ request. count + length (events_of request) ≤ MOST_EVENTS) }
    ensures line { IfErr result (λ fault. 1 ≤ fault.line) }
{
    match read_request(line.words) {
        Ok(request) if request.event_count() <= MOST_EVENTS - count => Ok(request),
        Ok(_) => Err(ScriptFault {
            line: line.number,
            cause: Cause::Events,
        }),
        Err(cause) => Err(ScriptFault {
            line: line.number,
            cause,
        }),
    }
}

/// What the line of these words asks for. It isn't made part of its caller, where a request would be moved piece by
/// piece from each way in which a line is read.
#[inline(never)]
#[tactic(auto, using(crate::proofs::PlainLines::is_valid), unfolding(crate::specs::Requests::request))]
fn read_request(mut words: Words<'_>) -> Result<Request<'_>, Cause>
    ensures { Gives events_of result (requests.request (lexical.words words.entry.rest.now)) }
{
    let Some(word) = words.next_word() else {
        return Ok(Request::Steps(0, Block::Good));
    };
    match form_of(word) {
        Some(form) => read_fields(Connection::First, form, words),
        None if word == b"second".as_slice() => read_second(words),
        None => Err(Cause::Word),
    }
}

/// What the line asks for in which these words stand behind the word `second`.
#[tactic(auto, using(crate::proofs::PlainLines::is_valid), unfolding(crate::specs::Requests::second_request))]
fn read_second(mut words: Words<'_>) -> Result<Request<'_>, Cause>
    ensures { Gives events_of result (requests.second_request (lexical.words words.entry.rest.now)) }
{
    let word = words.next_field()?;
    match form_of(word) {
        Some(form) if form.is_of_host() => read_fields(Connection::Second, form, words),
        _ => Err(Cause::Word),
    }
}

/// The form of the line of this first word. It is made part of its callers, which look at the form next.
#[inline(always)]
#[tactic(auto, unfolding(crate::specs::Requests::form_of))]
pub(crate) fn form_of(word: &[u8]) -> Option<Form>
    ensures { result ≡ requests.form_of word.now }
{
    if word == b"read".as_slice() {
        Some(Form::Transfer(MoveKind::Read))
    } else if word == b"write".as_slice() {
        Some(Form::Transfer(MoveKind::Write))
    } else if word == b"access".as_slice() {
        Some(Form::Transfer(MoveKind::Access))
    } else if word == b"erase".as_slice() {
        Some(Form::Transfer(MoveKind::Erase))
    } else if word == b"compare".as_slice() {
        Some(Form::Transfer(MoveKind::Compare))
    } else {
        event_form(word)
    }
}

/// The form of the line of this first word, which is no transfer.
#[inline(always)]
#[tactic(auto, unfolding(crate::specs::Requests::event_form))]
fn event_form(word: &[u8]) -> Option<Form>
    ensures { result ≡ requests.event_form word.now }
{
    if word == b"step".as_slice() {
        Some(Form::Step)
    } else if word == b"take".as_slice() {
        Some(Form::Take)
    } else if word == b"look".as_slice() {
        Some(Form::Look)
    } else if word == b"bad".as_slice() {
        Some(Form::Bad)
    } else {
        message_form(word)
    }
}

/// The form of the line of this first word, which is neither a transfer, nor of the drive, nor `take`.
#[inline(always)]
#[tactic(auto, unfolding(crate::specs::Requests::message_form))]
fn message_form(word: &[u8]) -> Option<Form>
    ensures { result ≡ requests.message_form word.now }
{
    if word == b"status".as_slice() {
        Some(Form::Status)
    } else if word == b"abort".as_slice() {
        Some(Form::Abort)
    } else if word == b"packet".as_slice() {
        Some(Form::Packet)
    } else if word == b"setcontroller".as_slice() {
        Some(Form::SetController)
    } else {
        plain_form(word)
    }
}

/// The form of the line of this first word, if it is another command to a unit.
#[inline(always)]
#[tactic(auto, unfolding(crate::specs::Requests::plain_form))]
fn plain_form(word: &[u8]) -> Option<Form>
    ensures { result ≡ requests.plain_form word.now }
{
    if word == b"online".as_slice() {
        Some(Form::Plain(Order::Online))
    } else if word == b"available".as_slice() {
        Some(Form::Plain(Order::Available))
    } else if word == b"setunit".as_slice() {
        Some(Form::Plain(Order::SetUnit))
    } else if word == b"unitstatus".as_slice() {
        Some(Form::Plain(Order::UnitStatus))
    } else {
        None
    }
}

/// What a line of this form asks for by these fields. If it is of a host, it is the connection's.
#[tactic(auto, unfolding(crate::specs::Requests::asked))]
fn read_fields(connection: Connection, form: Form, words: Words<'_>) -> Result<Request<'_>, Cause>
    requires { requests.IsValidForm form }
    ensures { Gives events_of result (requests.asked connection form (lexical.words words.entry.rest.now)) }
{
    match form {
        Form::Transfer(kind) => read_transfer(connection, kind, words),
        Form::Plain(order) => read_plain(connection, order, words),
        Form::SetController => read_controller(connection, words),
        Form::Abort => read_abort(connection, words),
        Form::Status => read_status(connection, words),
        Form::Packet => read_packet(connection, words),
        Form::Step => read_steps(words),
        Form::Bad => read_bad(words),
        Form::Take => read_take(connection, words),
        Form::Look => read_look(words),
    }
}

/// A take, which has no fields.
#[tactic(auto, unfolding(crate::specs::Requests::asked))]
fn read_take(connection: Connection, words: Words<'_>) -> Result<Request<'_>, Cause>
    ensures { Gives events_of result (requests.asked connection Form.Take (lexical.words words.entry.rest.now)) }
{
    words.none()?;
    Ok(Request::Take(connection))
}

/// A look, which has no fields.
#[tactic(auto, unfolding(crate::specs::Requests::asked))]
fn read_look(words: Words<'_>) -> Result<Request<'_>, Cause>
    ensures { Gives events_of result (requests.asked Connection.First Form.Look (lexical.words words.entry.rest.now)) }
{
    words.none()?;
    Ok(Request::Look)
}

/// A transfer: its reference number, its unit, how many bytes, and the first block.
#[tactic(auto, unfolding(crate::specs::Requests::asked))]
fn read_transfer(
    connection: Connection,
    kind: MoveKind,
    words: Words<'_>,
) -> Result<Request<'_>, Cause>
    ensures { Gives events_of result (requests.asked connection (Form.Transfer kind)
        (lexical.words words.entry.rest.now)) }
{
    let (reference, unit, count, block) = words.four()?;
    let command = ValidCommand::new(
        wide(reference)?,
        narrow(unit)?,
        Order::Move(kind, wide(count)?, wide(block)?),
    );
    Ok(Request::Send(connection, command))
}

/// Another command to a unit: its reference number, and its unit.
#[tactic(auto, unfolding(crate::specs::Requests::asked))]
fn read_plain(connection: Connection, order: Order, words: Words<'_>) -> Result<Request<'_>, Cause>
    requires { requests.IsValidForm (Form.Plain order) }
    ensures { Gives events_of result (requests.asked connection (Form.Plain order)
        (lexical.words words.entry.rest.now)) }
{
    let (reference, unit) = words.two()?;
    let command = ValidCommand::new(wide(reference)?, narrow(unit)?, order);
    Ok(Request::Send(connection, command))
}

/// A SET CONTROLLER CHARACTERISTICS: its reference number.
#[tactic(auto, unfolding(crate::specs::Requests::asked))]
fn read_controller(connection: Connection, words: Words<'_>) -> Result<Request<'_>, Cause>
    ensures { Gives events_of result (requests.asked connection Form.SetController
        (lexical.words words.entry.rest.now)) }
{
    let reference = words.one()?;
    let command = ValidCommand::new(wide(reference)?, 0, Order::SetController(0));
    Ok(Request::Send(connection, command))
}

/// An abort: its reference number, and that of the command to be aborted.
#[tactic(auto, unfolding(crate::specs::Requests::asked))]
fn read_abort(connection: Connection, words: Words<'_>) -> Result<Request<'_>, Cause>
    ensures { Gives events_of result (requests.asked connection Form.Abort (lexical.words words.entry.rest.now)) }
{
    let (reference, other) = words.two()?;
    let command = ValidCommand::new(wide(reference)?, 0, Order::Abort(wide(other)?));
    Ok(Request::Send(connection, command))
}

/// A poll: its reference number, and that of the command that it is about.
#[tactic(auto, unfolding(crate::specs::Requests::asked))]
fn read_status(connection: Connection, words: Words<'_>) -> Result<Request<'_>, Cause>
    ensures { Gives events_of result (requests.asked connection Form.Status (lexical.words words.entry.rest.now)) }
{
    let (reference, other) = words.two()?;
    let command = ValidCommand::new(wide(reference)?, 0, Order::Status(wide(other)?));
    Ok(Request::Send(connection, command))
}

/// A message as it is, of these digits.
#[tactic(auto, unfolding(crate::specs::Requests::asked))]
fn read_packet(connection: Connection, words: Words<'_>) -> Result<Request<'_>, Cause>
    ensures { Gives events_of result (requests.asked connection Form.Packet (lexical.words words.entry.rest.now)) }
{
    let digits = words.one()?;
    message(digits)?;
    Ok(Request::Packet(connection, digits))
}

/// So many steps: at least one.
#[tactic(auto, unfolding(crate::specs::Requests::asked))]
fn read_steps(words: Words<'_>) -> Result<Request<'_>, Cause>
    ensures { Gives events_of result (requests.asked Connection.First Form.Step (lexical.words words.entry.rest.now)) }
{
    let count = wide(words.one()?)?;
    if !(1..=MOST_STEPS).contains(&count) {
        return Err(Cause::Number);
    }
    Ok(Request::Steps(count, Block::Good))
}

/// A bad block of this status.
#[tactic(auto, unfolding(crate::specs::Requests::asked))]
fn read_bad(words: Words<'_>) -> Result<Request<'_>, Cause>
    ensures { Gives events_of result (requests.asked Connection.First Form.Bad (lexical.words words.entry.rest.now)) }
{
    let code = status(words.one()?)?;
    match FaultStatus::new(code) {
        Some(code) => Ok(Request::Steps(1, Block::Bad(code))),
        None => Err(Cause::Status),
    }
}

// Plain lines: a word, and then numbers behind one space each, up to a line feed. Most lines are plain, and are read in
// one pass over their bytes. Any other line is left to the reader of all lines, which finds the faults, too.

ghost use Rattle.std.specs.Prelude.{◌≡◌, ◌≤◌, [], true, not, position, take, length, replicate, IfSome};
ghost use Rattle.mscp_reader.specs.Common.{list_all, Good, First, MOST_STEPS, Asks, CutsWord, Ends, IsNumeral, IsPlain, is_letter, IsValidForm, events_of, sent};
ghost use Rattle.mscp_drive.specs.declared.event.Event.TheVariants as events;
ghost use Rattle.mscp_reader.specs.Lexical as lexical;

use crate::events::{Form, MOST_STEPS, form_of};
use crate::numbers::MOST_DIGITS;
use crate::request::{Request, ValidCommand};
use mscp_drive::{Block, Connection};
use mscp_packet::{MoveKind, Order};

/// What the first line of these bytes asks for, and what stands behind it, if that line is found to be plain. Nothing
/// is said of any other: the reader of all lines reads those.
#[tactic(auto, using(crate::proofs::PlainLines::is_valid))]
pub(crate) fn read_plain(bytes: &[u8]) -> Option<(Request<'_>, &[u8])>
    ensures plain { IfSome result (λ read. IsPlain bytes.now (events_of read.0) read.1.now) }
    ensures few { IfSome result (λ read. length (events_of read.0) ≤ MOST_STEPS) }
{
    let (word, rest) = bytes.split_at(letter_count(bytes));
    let form = form_of(word)?;
    let mut fields = Fields { rest };
    match fields.request(form) {
        Some(request) => match fields.behind() {
            Some(behind) => Some((request, behind)),
            None => None,
        },
        None => None,
    }
}

/// How many lower case letters bytes begin with.
#[tactic(auto, using(crate::proofs::PlainLines::letters))]
fn letter_count(bytes: &[u8]) -> usize
    ensures within { result ≤ length bytes.now }
    ensures letters { list_all is_letter (take result bytes.now) ≡ true }
{
    first_other(bytes).unwrap_or(bytes.len())
}

/// The index of the first byte that is no lower case letter.
fn first_other(bytes: &[u8]) -> Option<usize>
    ensures { result ≡ position (λ b. not (is_letter b)) bytes.now }
{
    bytes
        .iter()
        .position(|byte| !(b'a' <= *byte && *byte <= b'z'))
}

/// The digits that bytes begin with, at most 10, and their value.
#[derive(Clone, Copy)]
struct Numeral {
    value: u64,
    digits: usize,
}

/// The digits that these bytes begin with.
fn numeral_of(bytes: &[u8]) -> Numeral
    ensures { IsNumeral result.value result.digits bytes.now }
{
    let most = bytes.len().min(MOST_DIGITS);
    let mut value = 0u64;
    let mut digits = 0;
    while digits < most && bytes[digits].is_ascii_digit() {
        value = value * 10 + u64::from(bytes[digits] - b'0');
        digits += 1;
    }
    Numeral { value, digits }
}

/// The fields of a plain line that are left, and what stands behind the line.
#[derive(Drop)]
struct Fields<'a> {
    rest: &'a [u8],
}

impl<'a> Fields<'a> {
    /// Cuts off what a line of this form asks for by its fields.
    fn request(&mut self, form: Form) -> Option<Request<'a>>
        requires { IsValidForm form }
        ensures asks { IfSome result (λ request. Asks form (events_of request) self.old.rest.now self.new.rest.now) }
        ensures few { IfSome result (λ request. length (events_of request) ≤ MOST_STEPS) }
    {
        match form {
            Form::Transfer(kind) => Some(Request::Send(Connection::First, self.transfer(kind)?)),
            Form::Plain(order) => Some(Request::Send(Connection::First, self.other(order)?)),
            Form::Status => Some(Request::Send(Connection::First, self.poll()?)),
            Form::Abort => Some(Request::Send(Connection::First, self.abort()?)),
            Form::Step => Some(Request::Steps(self.steps()?, Block::Good)),
            Form::Take => Some(Request::Take(Connection::First)),
            Form::Look => Some(Request::Look),
            _ => None,
        }
    }

    /// Cuts off the fields of a transfer.
    fn transfer(&mut self, kind: MoveKind) -> Option<ValidCommand>
        ensures { IfSome result (λ valid. Asks (Form.Transfer kind) (sent First valid.command) self.old.rest.now
            self.new.rest.now) }
    {
        let reference = self.wide()?;
        let unit = self.narrow()?;
        let count = self.wide()?;
        let block = self.wide()?;
        Some(ValidCommand::new(reference, unit, Order::Move(kind, count, block)))
    }

    /// Cuts off the fields of another command to a unit.
    fn other(&mut self, order: Order) -> Option<ValidCommand>
        requires { IsValidForm (Form.Plain order) }
        ensures { IfSome result (λ valid. Asks (Form.Plain order) (sent First valid.command) self.old.rest.now
            self.new.rest.now) }
    {
        let reference = self.wide()?;
        let unit = self.narrow()?;
        Some(ValidCommand::new(reference, unit, order))
    }

    /// Cuts off the fields of a poll.
    fn poll(&mut self) -> Option<ValidCommand>
        ensures { IfSome result (λ valid. Asks Form.Status (sent First valid.command) self.old.rest.now
            self.new.rest.now) }
    {
        let reference = self.wide()?;
        let other = self.wide()?;
        Some(ValidCommand::new(reference, 0, Order::Status(other)))
    }

    /// Cuts off the fields of an abort.
    fn abort(&mut self) -> Option<ValidCommand>
        ensures { IfSome result (λ valid. Asks Form.Abort (sent First valid.command) self.old.rest.now
            self.new.rest.now) }
    {
        let reference = self.wide()?;
        let other = self.wide()?;
        Some(ValidCommand::new(reference, 0, Order::Abort(other)))
    }

    /// Cuts off how many steps there are.
    fn steps(&mut self) -> Option<u32>
        ensures asks { IfSome result (λ count. Asks Form.Step (replicate count (events.Step Good)) self.old.rest.now
            self.new.rest.now) }
        ensures few { IfSome result (λ count. count ≤ MOST_STEPS) }
    {
        let count = self.wide()?;
        if !(1..=MOST_STEPS).contains(&count) {
            return None;
        }
        Some(count)
    }

    /// Cuts off a space and the number behind it.
    fn wide(&mut self) -> Option<u32>
        ensures { IfSome result (λ value. CutsWord lexical.wide value self.old.rest.now self.new.rest.now) }
    {
        let [b' ', bytes @ ..] = self.rest else {
            return None;
        };
        let numeral = numeral_of(bytes);
        if numeral.digits == 0 || numeral.value > u64::from(u32::MAX) {
            return None;
        }
        self.rest = &bytes[numeral.digits..];
        Some(numeral.value as u32)
    }

    /// Cuts off a space and the number behind it, which is at most 65535.
    fn narrow(&mut self) -> Option<u16>
        ensures { IfSome result (λ value. CutsWord lexical.narrow value self.old.rest.now self.new.rest.now) }
    {
        let value = self.wide()?;
        if value > u32::from(u16::MAX) {
            return None;
        }
        Some(value as u16)
    }

    /// What stands behind the line, if no field is left.
    fn behind(self) -> Option<&'a [u8]>
        ensures { IfSome result (λ behind. Ends self.entry.rest.now [] behind.now) }
    {
        match self.rest {
            [b'\n', behind @ ..] => Some(behind),
            _ => None,
        }
    }
}

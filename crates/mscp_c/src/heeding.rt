// How what a host of a port says is told.

ghost use Rattle.std.specs.Prelude.{◌≡◌, Ok};
ghost use Rattle.mscp_c.specs.Driven.{advice_code, asked_told, end_asked, end_told, heard_code, heard_told, nothing_heard, told_of};
ghost use Rattle.mscp_c.specs.Hosted.{moved_in};

use crate::outs::HeardOut;
use crate::status::{
    ATTENTION, CREDITS, ENDED, FIRST, LATE, LOGGED, LOST, MOVED_TOO_MUCH, NO_PROGRESS, NOTHING,
    NOW_AVAILABLE, POLL, PROGRESS, REFUSED, SILENT, hear_code,
};
use mscp_host::{Advice, Asked, HearFault, Heard};
use mscp_packet::{End, EndBody};

/// Nothing.
fn nothing() -> HeardOut
    ensures { result ≡ nothing_heard }
{
    HeardOut {
        figure: 0,
        reference: 0,
        moved: 0,
        asked: 0,
        unit: 0,
        status: 0,
        code: 0,
        opcode: 0,
        credits: 0,
    }
}

/// The bytes that a transfer moved, 0 in any other end.
fn moved_in(body: &EndBody) -> u32
    ensures { result ≡ moved_in body.now }
{
    match *body {
        EndBody::Moved(bytes) => bytes,
        _ => 0,
    }
}

/// What is told of an end.
fn of_end(end: &End) -> HeardOut
    ensures { result ≡ end_told end.now }
{
    HeardOut {
        reference: end.reference,
        moved: moved_in(&end.body),
        unit: end.unit,
        status: end.status,
        code: end.code,
        ..nothing()
    }
}

/// And of what was asked.
fn of_asked(end: &End, asked: &Asked) -> HeardOut
    ensures { result ≡ end_asked end.now asked.now }
{
    HeardOut {
        asked: asked.bytes,
        opcode: asked.opcode,
        ..of_end(end)
    }
}

/// What is told of what is heard.
fn of_heard(heard: &Heard) -> HeardOut
    ensures { result ≡ told_of heard.now }
{
    match heard {
        Heard::Ended(end, asked) | Heard::MovedTooMuch(end, asked) => of_asked(end, asked),
        Heard::First(figure) | Heard::Progress(figure) => HeardOut {
            figure: *figure,
            ..nothing()
        },
        Heard::Refused(end) => of_end(end),
        Heard::Available(unit) => HeardOut {
            unit: *unit,
            code: 0x40,
            ..nothing()
        },
        Heard::Attention(code, unit) => HeardOut {
            unit: *unit,
            code: *code,
            ..nothing()
        },
        Heard::Credits(credits) => HeardOut {
            credits: *credits,
            ..nothing()
        },
        Heard::Late | Heard::Reset | Heard::Lost | Heard::Logged => nothing(),
    }
}

/// The status of what is heard.
fn code_of(heard: &Heard) -> i32
    ensures { result ≡ heard_code (Ok heard.now) }
{
    match heard {
        Heard::Ended(..) => ENDED,
        Heard::MovedTooMuch(..) => MOVED_TOO_MUCH,
        Heard::First(_) => FIRST,
        Heard::Progress(_) => PROGRESS,
        Heard::Late => LATE,
        Heard::Reset => NO_PROGRESS,
        Heard::Lost => LOST,
        Heard::Refused(_) => REFUSED,
        Heard::Available(_) => NOW_AVAILABLE,
        Heard::Attention(..) => ATTENTION,
        Heard::Logged => LOGGED,
        Heard::Credits(_) => CREDITS,
    }
}

/// Tells what is heard.
pub(crate) fn tell_heard(out: &mut HeardOut, answer: &Result<Heard, HearFault>) -> i32
    ensures code { result ≡ heard_code answer.now }
    ensures told { out.new ≡ heard_told answer.now out.old }
{
    match answer {
        Ok(heard) => {
            *out = of_heard(heard);
            code_of(heard)
        }
        Err(fault) => hear_code(*fault),
    }
}

/// The status of what a watch says.
pub(crate) fn code_of_advice(advice: &Advice) -> i32
    ensures { result ≡ advice_code advice.now }
{
    match advice {
        Advice::Nothing => NOTHING,
        Advice::Poll => POLL,
        Advice::Reset => SILENT,
    }
}

/// Tells as many of what is outstanding as there is room for.
pub(crate) fn tell_asked(out: &mut [Asked], list: &[Asked])
    ensures { out.new ≡ asked_told list.now out.old }
{
    let count = list.len().min(out.len());
    out[..count].copy_from_slice(&list[..count]);
}

//! Judges a log: whether what another controller answered is legal, what hosts would have heard of it, and whether what
//! went over the wire keeps the manual's rules. Shows a log of the wire in words.
#![tactic(auto)]

mod choosing;
mod credited;
mod credits;
mod doubts;
mod ending;
mod envelopes;
mod explaining;
mod fault;
mod finding;
mod foreign;
mod hearing;
mod judging;
mod lengths;
mod numbers;
mod places;
mod ports;
mod showing;
mod spans;
mod telling;
mod time;
mod times;
mod timing;
mod totals;
mod values;
mod wire;

use crate::choosing::{Call, asking_of};
use crate::ending::Ending;
use crate::explaining::{limit_of, limit_on_wire, line_of};
use crate::fault::{Fault, words_fault};
use crate::hearing::hear;
use crate::judging::{Outcome, judge};
use crate::showing::show_captured;
use crate::telling::{Extent, judge_captured};
use mscp_reader::ScriptFault;
use mscp_script::{Stream, read_all};
use std::fs::File;
use std::io;
use std::io::Read;
use std::process::ExitCode;

/// The words of the command line, without the program's name. One that is no text is a wrong word.
fn words_of(rt: &HostRuntime) -> Result<Vec<String>, Fault> {
    let words = std::env::args(rt).map_err(|refusal| words_fault(refusal.kind()))?;
    Ok(words.skip(1).collect(rt.alloc())?)
}

/// Answers a call about the log that a reader gives, on standard output.
fn answer<R: Read + Drop>(rt: &HostRuntime, call: Call, reader: R) -> Result<Outcome, Fault> {
    let mut reader = Stream::new(reader);
    let mut writer = Stream::new(io::writer(rt));
    match call {
        Call::Legal => judge(rt.alloc(), &mut reader, &mut writer),
        Call::Host => hear(rt.alloc(), &mut reader, &mut writer),
        Call::Wire => judge_captured(rt.alloc(), Extent::First, &mut reader, &mut writer),
        Call::All => judge_captured(rt.alloc(), Extent::All, &mut reader, &mut writer),
        Call::Show => show_captured(rt.alloc(), &mut reader, &mut writer),
    }
}

/// Says what would be right in place of a fault, and which line was read, if that is in a file and is plain text.
fn explain(rt: &HostRuntime, words: &[String], fault: ScriptFault) {
    let Ok(asked) = asking_of(words) else {
        return;
    };
    let limit = match asked.call {
        Call::Legal | Call::Host => limit_of(fault.cause),
        Call::Wire | Call::All | Call::Show => limit_on_wire(fault.cause),
    };
    let _ = eprint!(rt; "limit: {}\n", limit);
    if asked.file == "-" {
        return;
    }
    let Ok(reader) = File::open(rt, asked.file) else {
        return;
    };
    let Ok(log) = read_all(rt.alloc(), &mut Stream::new(reader)) else {
        return;
    };
    if let Some(line) = line_of(&log, fault) {
        if let Ok(text) = std::str::from_utf8(line) {
            let _ = eprint!(rt; "read: {}\n", text);
        }
    }
}

/// Does what these words of the command line ask for.
fn act(rt: &HostRuntime, words: &[String]) -> Result<Outcome, Fault> {
    let asked = asking_of(words)?;
    match asked.file {
        "-" => answer(rt, asked.call, rt.reader()),
        file => match File::open(rt, file) {
            Ok(reader) => answer(rt, asked.call, reader),
            Err(_) => Err(Fault::Read),
        },
    }
}

fn main(rt: HostRuntime) -> ExitCode {
    let words = words_of(&rt);
    let outcome = match &words {
        Ok(words) => act(&rt, words.as_slice()),
        Err(fault) => Err(*fault),
    };
    let fault = match &outcome {
        Err(Fault::Log(fault)) => Some(*fault),
        _ => None,
    };
    let ending = Ending::of(outcome);
    // There is nobody to say it to if standard error can't be written.
    let _ = eprint!(rt; "{}", ending.line.as_str());
    if let (Ok(words), Some(fault)) = (&words, fault) {
        explain(&rt, words.as_slice(), fault);
    }
    ExitCode::from(ending.status)
}

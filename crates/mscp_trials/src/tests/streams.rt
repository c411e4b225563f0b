// Readers that give a few bytes a call, writers that take one, and streams that fail at each call.

ghost use Rattle.std.specs.Prelude.{◌≡◌, false};

use super::first::{REPORT, SCRIPT};
use super::texts::told;
use crate::tests::checks::{got, holds, same, same_of};
use mscp_sim::{SimFault, Stream, simulate};
use std::alloc::Global;
use std::io;
use std::io::{ErrorKind, Read, Write};
use std::process::Abort;

/// Gives a few bytes a call, and fails at its `fails_at`th.
#[derive(Drop)]
pub(super) struct Slow<'a> {
    bytes: &'a [u8],
    step: usize,
    calls: usize,
    fails_at: usize,
}

impl Read for Slow<'_> {
    fn read(&mut self, buf: &mut [u8]) -> io::Result<usize> {
        self.calls = self.calls.saturating_add(1);
        if self.calls == self.fails_at {
            return Err(io::Error::from(ErrorKind::Other));
        }
        let count = self.step.min(buf.len()).min(self.bytes.len());
        let (front, rest) = self.bytes.split_at(count);
        buf[..count].copy_from_slice(front);
        self.bytes = rest;
        Ok(count)
    }
}

/// Takes a few bytes a call, and fails at its `fails_at`th.
#[derive(Drop)]
pub(super) struct Paper<'a> {
    bytes: &'a mut Vec<u8>,
    step: usize,
    calls: usize,
    fails_at: usize,
}

impl Write for Paper<'_> {
    fn write(&mut self, buf: &[u8]) -> io::Result<usize> {
        self.calls = self.calls.saturating_add(1);
        if self.calls == self.fails_at {
            return Err(io::Error::from(ErrorKind::Other));
        }
        let count = self.step.min(buf.len());
        self.bytes.extend_from_slice(&buf[..count])?;
        Ok(count)
    }

    fn flush(&mut self) -> io::Result<()> {
        Ok(())
    }
}

/// A call that is never made.
pub(super) const NEVER: usize = 0;

/// A reader of these bytes, so many a call, that fails at this call.
pub(super) fn reading(bytes: &[u8], step: usize, fails_at: usize) -> Stream<Slow<'_>>
    ensures { result.failed ≡ false }
{
    Stream::new(Slow {
        bytes,
        step,
        calls: 0,
        fails_at,
    })
}

/// A writer to these bytes, so many a call, that fails at this call.
pub(super) fn writing(bytes: &mut Vec<u8>, step: usize, fails_at: usize) -> Stream<Paper<'_>>
    ensures { result.failed ≡ false }
{
    Stream::new(Paper {
        bytes,
        step,
        calls: 0,
        fails_at,
    })
}

/// How a script is simulated by a reader and a writer of so many bytes a call, which fail at these calls; and what was
/// written.
fn simulated_by(
    alloc: Global,
    script: &[u8],
    (step, fails_at): (usize, usize),
    (taken, stops_at): (usize, usize),
) -> (Result<(), SimFault>, Vec<u8>) {
    let mut bytes = Vec::new(alloc);
    let mut reader = reading(script, step, fails_at);
    let mut writer = writing(&mut bytes, taken, stops_at);
    let answer = simulate(alloc, &mut reader, &mut writer);
    drop(writer);
    (answer, bytes)
}

/// What is written of a script whose streams give and take all at once, or its fault, of which nothing is written.
pub(super) fn simulated(
    rt: &(impl Abort + AllocGlobal),
    script: &[u8],
) -> Result<Vec<u8>, SimFault> {
    let whole = (usize::MAX, NEVER);
    let (answer, bytes) = simulated_by(rt.alloc(), script, whole, whole);
    match answer {
        Ok(()) => Ok(bytes),
        Err(fault) => {
            same(rt, bytes.len(), 0);
            Err(fault)
        }
    }
}

/// This is what is written of a script.
pub(super) fn is_told(rt: &(impl Abort + AllocGlobal), script: &[u8], wanted: &[u8]) {
    let text = got(rt, simulated(rt, script));
    holds(rt, text.as_slice() == wanted);
}

/// By a reader and a writer of so many bytes a call, which fail at these calls, the first script has a fault of this
/// text, or none, and this is written.
fn comes_to(
    rt: &(impl Abort + AllocGlobal),
    read: (usize, usize),
    written: (usize, usize),
    wanted: &str,
    report: &[u8],
) {
    let (answer, bytes) = simulated_by(rt.alloc(), SCRIPT, read, written);
    let row = (read, written);
    match answer {
        Ok(()) => same_of(rt, row, "", wanted),
        Err(fault) => told(rt, &fault, wanted),
    }
    same_of(rt, row, bytes.as_slice(), report);
}

#[test]
fn a_script_may_come_and_go_by_any_steps(rt: HostRuntime) {
    for step in [1, 2, 7, 4096] {
        for taken in [1, 2, 7, 4096] {
            comes_to(&rt, (step, NEVER), (taken, NEVER), "", REPORT);
        }
    }
}

// The last call is the one that gives no byte.
#[test]
fn a_reader_that_fails_at_any_call_is_told(rt: HostRuntime) {
    let fault = "cannot read";
    for step in [1, 2, 7, 4096] {
        for call in 1..=SCRIPT.len().div_ceil(step) + 1 {
            comes_to(&rt, (step, call), (4096, NEVER), fault, b"");
        }
    }
}

/// A writer of so many bytes a call fails at this one.
fn fails_to_write(rt: &(impl Abort + AllocGlobal), taken: usize, call: usize) {
    let count = call.saturating_sub(1).saturating_mul(taken);
    let before = REPORT.get(..count).expect(rt, "so much of the report");
    comes_to(rt, (4096, NEVER), (taken, call), "cannot write", before);
}

#[test]
fn a_writer_that_fails_at_any_call_is_told(rt: HostRuntime) {
    for taken in [1, 2, 7, 4096] {
        for call in 1..=REPORT.len().div_ceil(taken) {
            fails_to_write(&rt, taken, call);
        }
    }
}

// Scripts at their limits, and scripts that mean no good: what is said of each is the same whether its events are
// listed or run as they are read.

use super::HEADER;
use super::first::{REPORT, SCRIPT};
use super::streams::{is_told, simulated};
use super::texts::told;
use crate::tests::checks::{got, holds, same};
use mscp_controller::{Sweep, run};
use mscp_sim::{read_script, report};
use std::process::Abort;

/// Some bytes, one byte so many times, and some bytes more.
fn filled(
    rt: &(impl Abort + AllocGlobal),
    before: &[u8],
    (byte, count): (u8, usize),
    after: &[u8],
) -> Vec<u8> {
    let mut all = got(rt, Vec::from_slice(rt.alloc(), before));
    let mut middle = got(rt, vec![in rt.alloc(); byte; count]);
    got(rt, all.append(&mut middle));
    got(rt, all.extend_from_slice(after));
    all
}

/// Some text, other text so many times, and some text more.
fn repeated(
    rt: &(impl Abort + AllocGlobal),
    before: &str,
    (middle, count): (&str, usize),
    after: &str,
) -> String {
    let many = got(rt, middle.repeat(rt.alloc(), count));
    let mut all = got(rt, String::from_str(rt.alloc(), before));
    got(rt, all.push_str(many.as_str()));
    got(rt, all.push_str(after));
    all
}

/// A script has this fault, and nothing is written of it.
fn refuses(rt: &(impl Abort + AllocGlobal), script: &[u8], wanted: &str) {
    let read = read_script(rt.alloc(), script).err();
    told(rt, &read.expect(rt, "a fault"), wanted);
    let ran = simulated(rt, script).err();
    told(rt, &ran.expect(rt, "a fault"), wanted);
}

/// Some text, one byte so many times, and some text more have this fault.
fn refuses_filled(
    rt: &(impl Abort + AllocGlobal),
    before: &str,
    middle: (u8, usize),
    after: &str,
    wanted: &str,
) {
    let script = filled(rt, before.as_bytes(), middle, after.as_bytes());
    refuses(rt, script.as_slice(), wanted);
}

#[test]
fn a_script_that_is_too_large_is_refused(rt: HostRuntime) {
    refuses_filled(&rt, "", (b' ', 16_777_217), "", "line 0: size");
    refuses_filled(&rt, "", (b' ', 16_777_216), "", "line 1: long");
}

#[test]
fn empty_lines_are_refused_at_their_limits(rt: HostRuntime) {
    let rt = &rt;
    refuses_filled(rt, "", (b'\n', 1_000_000), "", "line 1000001: header");
    refuses_filled(rt, "", (b'\n', 1_000_001), "", "line 1000001: lines");
    refuses_filled(rt, "", (b'\n', 1_000_000), "#", "line 1000001: lines");
    let number = "line 70000: number";
    refuses_filled(rt, "", (b'\n', 69_999), "credits x", number);
}

#[test]
fn long_lines_are_refused_at_their_limits(rt: HostRuntime) {
    let rt = &rt;
    refuses_filled(rt, "#", (b' ', 200), "", "line 1: long");
    refuses_filled(rt, "", (b' ', 201), "", "line 1: long");
    refuses_filled(rt, HEADER, (0xFF, 1_000_000), "", "line 7: long");
    refuses_filled(rt, HEADER, (b'9', 150), "", "line 7: word");
    refuses_filled(rt, HEADER, (b' ', 150), "bad 0004", "line 7: status");
    refuses_filled(rt, HEADER, (b' ', 150), "packet 012", "line 7: hex");
}

#[test]
fn bytes_that_are_not_printed_are_refused(rt: HostRuntime) {
    refuses_filled(&rt, HEADER, (0x7F, 1), "", "line 7: byte");
    refuses_filled(&rt, HEADER, (0x00, 1), "", "line 7: byte");
}

// A line may have 200 bytes, and the carriage return at its end isn't one of them.
#[test]
fn a_long_comment_changes_nothing(rt: HostRuntime) {
    let rt = &rt;
    let mut script = filled(rt, b"#", (b' ', 199), b"\r\n");
    got(rt, script.extend_from_slice(SCRIPT));
    is_told(rt, script.as_slice(), REPORT);
}

#[test]
fn empty_lines_change_nothing(rt: HostRuntime) {
    let lines = filled(&rt, SCRIPT, (b'\n', 999_000), b"");
    is_told(&rt, lines.as_slice(), REPORT);
}

/// The report of a script of so many events that are listed, and then run.
fn listed(rt: &(impl Abort + AllocGlobal), script: &[u8], events: usize) -> Vec<u8> {
    let read = got(rt, read_script(rt.alloc(), script));
    same(rt, read.events.len(), events);
    let entries = got(rt, run(rt.alloc(), read.config, Sweep, &read.events));
    same(rt, entries.len(), events);
    got(rt, report(rt.alloc(), entries.as_slice()))
}

/// The script has so many events. What is written of it is this, whether they are listed or run as they are read.
pub(super) fn is_told_by_both(
    rt: &(impl Abort + AllocGlobal),
    script: &[u8],
    events: usize,
    wanted: &[u8],
) {
    let text = listed(rt, script, events);
    holds(rt, text.as_slice() == wanted);
    is_told(rt, script, wanted);
}

/// The header, a million steps, and this line.
fn steps(rt: &(impl Abort + AllocGlobal), last: &str) -> String {
    repeated(rt, HEADER, ("step 1000\n", 1000), last)
}

#[test]
fn a_million_events_are_run(rt: HostRuntime) {
    let rt = &rt;
    let totals = "steps 1000000 seeks 0 pending 0\n";
    let idle = repeated(rt, "", ("idle\n", 1_000_000), totals);
    let script = steps(rt, "");
    is_told_by_both(rt, script.as_bytes(), 1_000_000, idle.as_bytes());
}

#[test]
fn an_event_more_is_refused(rt: HostRuntime) {
    let rt = &rt;
    refuses(rt, steps(rt, "take").as_bytes(), "line 1007: events");
    refuses(rt, steps(rt, "step 0").as_bytes(), "line 1007: number");
}

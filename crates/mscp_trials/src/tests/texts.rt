// The text of each fault, for who uses the library: the program has lines of its own.

use crate::tests::checks::same;
use mscp_host::HostFault;
use mscp_sim::{Cause, LineFault, ReadFault, ScriptFault, ShowFault, SimFault};
use std::fmt::Display;
use std::process::Abort;

/// A fault is told so.
pub(super) fn told(rt: &(impl Abort + AllocGlobal), fault: &impl Display, wanted: &str) {
    let text = fault.to_string(rt.alloc()).expect(rt, "memory");
    same(rt, text.as_str(), wanted);
}

#[test]
fn each_fault_of_a_call_has_its_text(rt: HostRuntime) {
    let rt = &rt;
    told(rt, &ShowFault::Hex, "packet: hex");
    told(rt, &ShowFault::Short, "packet: short");
    told(rt, &ShowFault::Long, "packet: long");
    told(rt, &ShowFault::Code, "packet: code");
    told(rt, &ShowFault::Length, "packet: length");
    told(rt, &ShowFault::OutOfMemory, "out of memory");
    let usage = "usage: mscpq [run FILE | packet HEX]";
    told(rt, &LineFault::Usage, usage);
    told(rt, &SimFault::Read, "cannot read");
    told(rt, &SimFault::Write, "cannot write");
    told(rt, &SimFault::OutOfMemory, "out of memory");
    told(rt, &ReadFault::OutOfMemory, "out of memory");
}

/// A fault in line 7 is told so, also as one of reading and as one of a run.
fn line(rt: &(impl Abort + AllocGlobal), cause: Cause, wanted: &str) {
    let fault = ScriptFault { line: 7, cause };
    told(rt, &fault, wanted);
    told(rt, &ReadFault::Script(fault), wanted);
    told(rt, &SimFault::Script(fault), wanted);
}

#[test]
fn each_fault_of_a_script_has_its_text(rt: HostRuntime) {
    let rt = &rt;
    line(rt, Cause::Size, "line 7: size");
    line(rt, Cause::Lines, "line 7: lines");
    line(rt, Cause::Long, "line 7: long");
    line(rt, Cause::Byte, "line 7: byte");
    line(rt, Cause::Word, "line 7: word");
    line(rt, Cause::Count, "line 7: count");
    line(rt, Cause::Number, "line 7: number");
    line(rt, Cause::Hex, "line 7: hex");
    line(rt, Cause::Status, "line 7: status");
    line(rt, Cause::Unit, "line 7: unit");
    line(rt, Cause::Config, "line 7: config");
    line(rt, Cause::Header, "line 7: header");
    line(rt, Cause::Events, "line 7: events");
}

#[test]
fn each_fault_of_a_host_has_its_text(rt: HostRuntime) {
    let rt = &rt;
    told(rt, &HostFault::Credits, "credits");
    told(rt, &HostFault::NoCredit, "no-credit");
    told(rt, &HostFault::LastCredit, "last-credit");
    told(rt, &HostFault::Doubled, "doubled");
    told(rt, &HostFault::Unreadable, "unreadable");
    told(rt, &HostFault::Unknown, "unknown");
}

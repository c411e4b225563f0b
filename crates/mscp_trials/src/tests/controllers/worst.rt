// The traces in which a command waits longest.

use crate::tests::checks::same;
use crate::tests::memory::heap_of;
use crate::tests::moments::Moments;
use crate::tests::values::{FIRST, ended, padded, read_ended, read_message};
use linked_list_allocator::LocalHeap;
use mscp_control::{worst, worst_in};
use mscp_controller::{Block, Config, Connection, Entry, Event, OutOfMemory, Picker, Report, View};
use mscp_drive::{Unit, Units};
use mscp_packet::{End, EndBody};
use std::mem::size_of;
use std::process::Abort;

/// A unit whose cylinders have one block each.
fn unit(rt: &impl Abort, number: u16, size: u32) -> Unit {
    Unit::new(number, 1, 1, 1, size, 1, 0, 1)
        .ok()
        .expect(rt, "no size is zero")
}

/// Credits of both connections, budget and longest transfer.
type Limits = (u32, u32, u64, u32);

/// Units 3 and 5, of which unit 3 has just the blocks of the longest transfer, and unit 5 one less, or one.
fn config(rt: &impl Abort, (credits, second, budget, longest): Limits) -> Config {
    let few = if longest > 1 { longest - 1 } else { 1 };
    let units = Units::new(&[unit(rt, 3, longest), unit(rt, 5, few)])
        .ok()
        .expect(rt, "numbers that rise");
    Config::new(credits, second, budget, longest, 60, 1, units)
        .ok()
        .expect(rt, "limits")
}

// ---- a whole trace

/// A step of a command of unit 3.
fn served(
    reference: u32,
    lbn: Option<u32>,
    started: bool,
    seek: u32,
    ended: Option<End>,
) -> Report {
    Report::Served {
        connection: FIRST,
        reference,
        unit: 3,
        lbn,
        started,
        seek,
        ended,
    }
}

/// The same end, of unit 3.
fn of_unit_3(end: End) -> End {
    End { unit: 3, ..end }
}

/// ONLINE 2 of unit 3 comes, is served, and its end is taken.
fn comes_online(rt: &impl Abort, moments: &mut Moments) {
    moments.queues(rt, 2, &[2, 0, 0, 0, 3, 0, 0, 0, 9, 0, 0, 0]);
    let body = EndBody::Online {
        id: 1,
        media: 0,
        size: 2,
        serial: 1,
    };
    let end = of_unit_3(ended(2, 0x89, 0, body));
    let report = served(2, None, true, 0, Some(end));
    moments.steps(rt, Block::Good, report);
    let mut end = padded::<44>(&[2, 0, 0, 0, 3, 0, 0, 0, 0x89]);
    end[20] = 1;
    end[36] = 2;
    end[40] = 1;
    moments.takes(rt, &end);
}

/// A READ comes.
fn reads(rt: &impl Abort, moments: &mut Moments, reference: u8, bytes: u16, block: u8) {
    let message = read_message(reference, 3, bytes, block);
    moments.queues(rt, u32::from(reference), &message);
}

/// The first of its two steps.
fn starts(rt: &impl Abort, moments: &mut Moments, reference: u32, block: u32, seek: u32) {
    let report = served(reference, Some(block), true, seek, None);
    moments.steps(rt, Block::Good, report);
}

/// Its last step, which is its first too, or not. Its end is taken.
fn ends(
    rt: &impl Abort,
    moments: &mut Moments,
    (reference, bytes): (u8, u16),
    block: u32,
    started: bool,
    seek: u32,
) {
    let number = u32::from(reference);
    let end = of_unit_3(read_ended(number, 0, u32::from(bytes)));
    let report = served(number, Some(block), started, seek, Some(end));
    moments.steps(rt, Block::Good, report);
    let mut bytes = read_message(reference, 3, bytes, 0);
    bytes[8] = 0xA1;
    moments.takes(rt, &bytes);
}

/// READ 2 of one block comes, is served at once, and its end is taken.
fn passes(rt: &impl Abort, moments: &mut Moments) {
    reads(rt, moments, 2, 512, 1);
    ends(rt, moments, (2, 512), 1, true, 0);
}

/// READ 0 comes, and READ 1, and the first is served.
fn comes_behind(rt: &impl Abort, moments: &mut Moments) {
    reads(rt, moments, 0, 1023, 0);
    reads(rt, moments, 1, 1023, 0);
    starts(rt, moments, 0, 0, 0);
    ends(rt, moments, (0, 1023), 1, false, 1);
}

// Three credits, transfers of at most 2 blocks, and a budget of one such pass, 2 blocks: command 1, which is sent last
// of the two that may wait, ends at the sixth step after it.
#[test]
fn worst_finds_memory(rt: HostRuntime) {
    let rt = &rt;
    let mut wanted = Moments::new(rt);
    comes_online(rt, &mut wanted);
    comes_behind(rt, &mut wanted);
    passes(rt, &mut wanted);
    passes(rt, &mut wanted);
    starts(rt, &mut wanted, 1, 0, 1);
    let end = of_unit_3(read_ended(1, 0, 1023));
    let last = served(1, Some(1), false, 1, Some(end));
    wanted.steps(rt, Block::Good, last);
    let config = config(rt, (3, 0, 2, 2));
    wanted.are(rt, trace_of(rt, &config).as_slice());
}

/// The trace of unit 3.
fn trace_of(rt: &(impl Abort + AllocGlobal), config: &Config) -> Vec<(Event, Entry)> {
    worst(rt.alloc(), config, 3)
        .ok()
        .expect(rt, "memory")
        .expect(rt, "another command can pass")
}

// ---- many limits

/// Picks the command of one name, and where it can't start the oldest that can.
#[derive(Drop)]
struct ByName {
    connection: Connection,
    reference: u32,
}

impl Picker for ByName {
    ghost use Rattle.std.specs.Prelude.{◌<◌, length};

    ghost picks = { λ _ view place. place < length view };

    fn pick(&self, view: &View) -> usize {
        view.choices()
            .iter()
            .position(|choice| {
                choice.connection == self.connection && choice.reference == self.reference
            })
            .unwrap_or(0)
    }
}

/// How many steps there are behind so many moments.
fn steps_behind(trace: &[(Event, Entry)], moments: usize) -> usize {
    let mut steps: usize = 0;
    for (event, _) in trace.iter().skip(moments) {
        if let Event::Step(_) = event {
            steps = steps.saturating_add(1);
        }
    }
    steps
}

/// The reference number of the command that the last moment ends by a step, if it does.
fn ended_last(trace: &[(Event, Entry)]) -> Option<u32> {
    match trace.last() {
        Some(
            (
                _,
                Entry::Stepped(
                    Report::Served {
                        reference,
                        ended: Some(_),
                        ..
                    },
                ),
            ),
        ) => Some(*reference),
        _ => None,
    }
}

/// The trace of these limits, over the first connection, in which so many may wait, has so many steps behind the last
/// arrival, and `run` gives the same.
fn is_run(rt: &(impl Abort + AllocGlobal), limits: Limits, room: u32, bound: usize) {
    let trace = trace_of(rt, &config(rt, limits));
    same(
        rt,
        ended_last(trace.as_slice()),
        Some(room.saturating_sub(1)),
    );
    let came = (room as usize).saturating_add(3);
    same(rt, steps_behind(trace.as_slice(), came), bound);
    let picker = ByName {
        connection: FIRST,
        reference: room,
    };
    Moments::of(trace).are_run(rt, config(rt, limits), picker);
}

// With no budget and with one that isn't a whole number of passes, over one connection and over both.
#[test]
fn a_picker_by_name_runs_it(rt: HostRuntime) {
    let rt = &rt;
    is_run(rt, (3, 0, 0, 1), 2, 2);
    is_run(rt, (3, 0, 2, 2), 2, 6);
    is_run(rt, (3, 0, 7, 2), 2, 11);
    is_run(rt, (2, 2, 0, 1), 2, 2);
    is_run(rt, (2, 2, 5, 3), 2, 11);
    is_run(rt, (4, 0, 9, 8), 3, 33);
    is_run(rt, (3, 4, 10, 4), 5, 30);
    is_run(rt, (2, 62, 3, 1), 62, 65);
    is_run(rt, (62, 2, 3, 2), 62, 127);
    is_run(rt, (64, 0, 3, 2), 63, 129);
}

/// Whether a trace of this unit is given.
fn is_given(rt: &(impl Abort + AllocGlobal), limits: Limits, unit: u16) -> bool {
    worst(rt.alloc(), &config(rt, limits), unit)
        .ok()
        .expect(rt, "memory")
        .is_some()
}

#[test]
fn a_bound_over_100000_is_too_long(rt: HostRuntime) {
    for (limits, given) in [
        ((3, 0, 99_998, 1), true),
        ((3, 0, 99_999, 1), false),
        ((2, 2, 99_998, 1), true),
        ((2, 2, 99_999, 1), false),
        ((3, 0, 0, 50_000), true),
        ((3, 0, 0, 50_001), false),
        ((64, 0, 3_766_484_991, 8_388_608), false),
    ] {
        same(&rt, is_given(&rt, limits, 3), given);
    }
}

#[test]
fn there_is_none_where_nothing_can_pass_or_no_unit_has_the_blocks(rt: HostRuntime) {
    for (limits, unit, given) in [
        ((2, 0, 0, 8), 3, false),
        ((2, 0, 16, 8), 3, false),
        ((2, 2, 16, 8), 3, true),
        ((3, 0, 16, 8), 3, true),
        ((3, 0, 16, 8), 5, false),
        ((3, 0, 16, 1), 5, true),
        ((3, 0, 16, 8), 0, false),
        ((3, 0, 16, 8), 4, false),
        ((3, 0, 16, 8), 6, false),
    ] {
        same(&rt, is_given(&rt, limits, unit), given);
    }
}

/// A heap of the bytes of so many moments.
fn room_for(rt: &(impl Abort + AllocGlobal), moments: u16) -> LocalHeap {
    heap_of(rt, usize::from(moments) * size_of::<(Event, Entry)>())
}

/// How many moments a trace has on a heap that has just the bytes of so many, all of which it uses; or none, and then
/// it uses nothing.
fn trace_within(rt: &(impl Abort + AllocGlobal), limits: Limits, moments: u16) -> usize {
    let heap = room_for(rt, moments);
    match worst_in(&heap, &config(rt, limits), 3) {
        Ok(trace) => {
            same(rt, heap.used(), heap.size());
            trace.expect(rt, "another command can pass").len()
        }
        Err(OutOfMemory) => {
            same(rt, heap.used(), 0);
            0
        }
    }
}

/// A heap that has just the bytes of so many moments is enough, and no less serves.
fn asks_for(rt: &(impl Abort + AllocGlobal), limits: Limits, moments: u16) {
    same(rt, trace_within(rt, limits, moments), usize::from(moments));
    same(rt, trace_within(rt, limits, moments.saturating_sub(1)), 0);
}

#[test]
fn worst_asks_for_the_trace_alone(rt: HostRuntime) {
    let rt = &rt;
    asks_for(rt, (3, 0, 2, 2), 16);
    asks_for(rt, (2, 2, 1000, 3), 3012);
    asks_for(rt, (64, 0, 10, 5), 473);
}

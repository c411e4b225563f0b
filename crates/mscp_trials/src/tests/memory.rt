// Memory that is refused: at the first request of a call, at the second, and so on, until a run asks less often than
// that. Each refusal is told, and nothing is kept of what was handed out before it. The last run gives what the call
// promises.

use super::first::{REPORT, SCRIPT};
use super::moments::event_of;
use super::streams::{NEVER, reading, writing};
use super::texts::told;
use super::told::{event, heard};
use super::values::{FIRST, command, config};
use crate::Scarce;
use crate::tests::checks::{holds, same, same_of};
use linked_list_allocator::LocalHeap;
use mscp_controller::{Block, Config, Entry, Event, OutOfMemory, Sweep, run, run_in};
use mscp_host::News;
use mscp_packet::{MoveKind, Order, write_command};
use mscp_sim::{
    Heard, ReadFault, ShowFault, Turn, converse_in, read_script, read_script_in, report, report_in,
    show_packet_to, simulate_in,
};
use std::alloc::Global;
use std::mem::size_of;
use std::process::Abort;

/// More requests than any call below makes.
const MANY: u64 = 40;

fn sent(rt: &impl Abort, reference: u32, order: Order) -> Event {
    let message = write_command(&command(reference, order));
    event_of(rt, FIRST, message.as_slice())
}

/// Unit 0 is online. READ 1 is far away, and READ 2, of four blocks, passes it; then READ 2 is aborted.
fn passed_and_aborted(rt: &impl Abort) -> [Event; 10] {
    [
        sent(rt, 900, Order::Online),
        Event::Step(Block::Good),
        Event::Take(FIRST),
        sent(rt, 1, Order::Move(MoveKind::Read, 512, 800)),
        sent(rt, 2, Order::Move(MoveKind::Read, 2048, 0)),
        Event::Look,
        Event::Step(Block::Good),
        Event::Look,
        sent(rt, 3, Order::Abort(2)),
        Event::Look,
    ]
}

const PASSED_AND_ABORTED: &[u8] = b"queued 900
serve 900 unit 0 block none seek 0 ended 0000
end 840300000000000089000000000000000000000001000000000000000000000000000000e803000001000000
queued 1
queued 2
figure 1 9
figure 2 13
serve 2 unit 0 block 0 seek 0
figure 1 8
figure 2 3
answered 3 aborted 2
figure 1 5
steps 2 seeks 0 pending 1
";

fn submit(reference: u32, order: Order) -> Turn {
    Turn::Submit(FIRST, command(reference, order))
}

const TAKE: Turn = Turn::Take(FIRST);

/// Unit 0 comes online. A READ is polled twice, and no step lies between.
fn polled_twice() -> [Turn; 8] {
    [
        submit(9, Order::Online),
        Turn::Step(Block::Good),
        TAKE,
        submit(1, Order::Move(MoveKind::Read, 1024, 40)),
        Turn::Poll(FIRST, 10),
        TAKE,
        Turn::Poll(FIRST, 11),
        TAKE,
    ]
}

/// What is heard in the last four turns.
const ANSWERS: [Heard; 4] = [
    Heard::Asked,
    Heard::News(News::First(18)),
    Heard::Asked,
    Heard::News(News::Reset),
];

/// The text of these entries is that of the run above.
fn is_reported(rt: &(impl Abort + AllocGlobal), entries: &[Entry]) {
    let text = report(rt.alloc(), entries).ok().expect(rt, "memory");
    same(rt, text.as_slice(), PASSED_AND_ABORTED);
}

fn runs(rt: &(impl Abort + AllocGlobal), heap: &Scarce<Global>) -> bool {
    match run_in(heap, config(rt, 5, 8), Sweep, &passed_and_aborted(rt)) {
        Err(OutOfMemory) => false,
        Ok(entries) => {
            is_reported(rt, entries.as_slice());
            true
        }
    }
}

fn reports(rt: &(impl Abort + AllocGlobal), heap: &Scarce<Global>) -> bool {
    let events = passed_and_aborted(rt);
    let entries = run(rt.alloc(), config(rt, 5, 8), Sweep, &events);
    match report_in(heap, entries.ok().expect(rt, "memory").as_slice()) {
        Err(OutOfMemory) => false,
        Ok(text) => {
            same(rt, text.as_slice(), PASSED_AND_ABORTED);
            true
        }
    }
}

/// These are the settings and the events of the first script.
fn are_read(rt: &(impl Abort + AllocGlobal), settings: &Config, events: &[Event]) {
    let whole = read_script(rt.alloc(), SCRIPT).ok().expect(rt, "a script");
    same(rt, (settings.credits(), settings.budget()), (4, 16));
    same(rt, (events.len(), whole.events.len()), (10, 10));
    for (made, wanted) in events.iter().zip(&whole.events) {
        same(rt, event(made), event(wanted));
    }
}

fn reads(rt: &(impl Abort + AllocGlobal), heap: &Scarce<Global>) -> bool {
    match read_script_in(heap, SCRIPT) {
        Err(ReadFault::OutOfMemory) => false,
        Err(ReadFault::Script(_)) => panic!(rt; "it has no fault"),
        Ok(script) => {
            are_read(rt, &script.config, script.events.as_slice());
            true
        }
    }
}

// The script comes by seven bytes, so its room grows often, and then the report's does.
fn simulates(rt: &(impl Abort + AllocGlobal), heap: &Scarce<Global>) -> bool {
    let mut bytes = Vec::new(rt.alloc());
    let mut reader = reading(SCRIPT, 7, NEVER);
    let mut writer = writing(&mut bytes, 4096, NEVER);
    let answer = simulate_in(heap, &mut reader, &mut writer);
    drop(writer);
    let written = match answer {
        Ok(()) => REPORT,
        Err(fault) => {
            told(rt, &fault, "out of memory");
            b"".as_slice()
        }
    };
    same(rt, bytes.as_slice(), written);
    answer.is_ok()
}

fn talks(rt: &(impl Abort + AllocGlobal), heap: &Scarce<Global>) -> bool {
    match converse_in(heap, config(rt, 4, 16), Sweep, &polled_twice()) {
        Err(OutOfMemory) => false,
        Ok(talk) => {
            same(rt, (talk.heard.len(), talk.trace.len()), (8, 8));
            for (made, wanted) in talk.heard.iter().skip(4).zip(&ANSWERS) {
                same(rt, heard(made), heard(wanted));
            }
            true
        }
    }
}

/// A word is shown as this line, or has a fault with this text.
fn shows(
    rt: &(impl Abort + AllocGlobal),
    heap: &Scarce<Global>,
    word: &str,
    wanted: Result<&[u8], &str>,
) -> bool {
    match (show_packet_to(Vec::new(heap), word.as_bytes()), wanted) {
        (Err(ShowFault::OutOfMemory), _) => return false,
        (Err(fault), Err(text)) => told(rt, &fault, text),
        (Ok(line), Ok(text)) => same_of(rt, word, line.as_slice(), text),
        (_, _) => panic!(rt; "{word} is shown, or it isn't"),
    }
    true
}

/// The calls that ask for memory, but for that which shows a packet.
#[derive(Clone, Copy)]
enum Call {
    Run,
    Report,
    ReadScript,
    Simulate,
    Converse,
}

/// The call gives what it promises, or tells that memory was refused.
fn gives(rt: &(impl Abort + AllocGlobal), heap: &Scarce<Global>, call: Call) -> bool {
    match call {
        Call::Run => runs(rt, heap),
        Call::Report => reports(rt, heap),
        Call::ReadScript => reads(rt, heap),
        Call::Simulate => simulates(rt, heap),
        Call::Converse => talks(rt, heap),
    }
}

/// The call was given all memory, if this says so, and whatever was handed out came back.
fn nothing_is_kept(rt: &impl Abort, heap: &Scarce<Global>, is_given: bool) {
    same(rt, (heap.has_refused(), heap.held()), (!is_given, 0));
}

/// The first request that isn't made.
fn least(rt: &(impl Abort + AllocGlobal), call: Call) -> u64 {
    for number in 1..MANY {
        let heap = Scarce::new(rt.alloc(), number);
        let is_given = gives(rt, &heap, call);
        nothing_is_kept(rt, &heap, is_given);
        if is_given {
            return number;
        }
    }
    panic!(rt; "it never found memory");
}

#[test]
fn each_call_is_refused_memory(rt: HostRuntime) {
    let rt = &rt;
    same(rt, least(rt, Call::Run), 2);
    holds(rt, least(rt, Call::Report) > 2);
    holds(rt, least(rt, Call::ReadScript) > 1);
    holds(rt, least(rt, Call::Simulate) > 10);
    same(rt, least(rt, Call::Converse), 3);
}

/// A word is shown as this line, for which memory is wanted, or has a fault with this text.
fn is_shown(rt: &(impl Abort + AllocGlobal), word: &str, wanted: Result<&[u8], &str>) {
    for number in 1..MANY {
        let heap = Scarce::new(rt.alloc(), number);
        let is_given = shows(rt, &heap, word, wanted);
        nothing_is_kept(rt, &heap, is_given);
        if is_given {
            same_of(rt, word, number > 1, wanted.is_ok());
            return;
        }
    }
    panic!(rt; "{word} never found memory");
}

// The line of each kind of packet, or its fault, which is told without memory.
#[test]
fn show_packet_is_refused_memory(rt: HostRuntime) {
    let rt = &rt;
    is_shown(
        rt,
        "0100000000000000210000000004000000000000000000000000000028000000",
        Ok(b"command 1 unit 0 READ bytes 1024 block 40\n"),
    );
    is_shown(
        rt,
        "0200000000000000820000000100000012000000",
        Ok(b"end 2 unit 0 code 82 status 0000 of 1 figure 18\n"),
    );
    let unknown = b"command 5 unit 0 unknown opcode 5\n";
    is_shown(rt, "050000000000000005000000", Ok(unknown));
    let end = b"end 5 unit 0 code 80 status 0801\n";
    is_shown(rt, "050000000000000080000108", Ok(end));
    is_shown(rt, "0500", Err("packet: short"));
    is_shown(rt, "0", Err("packet: hex"));
}

/// A thousand takes of nothing.
fn takes(rt: &(impl Abort + AllocGlobal)) -> Vec<Event> {
    let mut events = Vec::new(rt.alloc());
    for _take in 0..1000 {
        events.push(Event::Take(FIRST)).ok().expect(rt, "memory");
    }
    events
}

/// A heap of so many bytes.
pub(super) fn heap_of(rt: &(impl Abort + AllocGlobal), bytes: usize) -> LocalHeap {
    LocalHeap::new(rt.alloc(), bytes).ok().expect(rt, "memory")
}

/// What a run of a thousand takes answers on a heap with just the room of so many entries, all of which it uses, or
/// nothing.
fn entries_within(rt: &(impl Abort + AllocGlobal), room: u16) -> usize {
    let heap = heap_of(rt, usize::from(room) * size_of::<Entry>());
    match run_in(&heap, config(rt, 4, 16), Sweep, &takes(rt)) {
        Ok(entries) => {
            same(rt, heap.used(), heap.size());
            entries.len()
        }
        Err(OutOfMemory) => {
            same(rt, heap.used(), 0);
            0
        }
    }
}

#[test]
fn the_bytes_of_the_entries_are_enough_for_a_run(rt: HostRuntime) {
    let rt = &rt;
    same(rt, entries_within(rt, 1000), 1000);
    same(rt, entries_within(rt, 999), 0);
}

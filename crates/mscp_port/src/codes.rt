// What has no number of its own, as numbers, and what numbers stand for.

ghost use Rattle.std.specs.Prelude.{◌≡◌};
ghost use Rattle.mscp_port.specs.Codes.{IsTask, bad_byte, bad_status, block_task_in, bus_byte, bus_in, clear_task, coded_task, early_task_in, has_size, nothing, ring_task_in, side_byte, side_in, stage_in, task_in, text_task, verdict_byte, verdict_in, verdict_status};
ghost use Rattle.mscp_port.specs.Common.{kind_byte, kind_in};
ghost use Rattle.mscp_port.specs.declared.task.Task.TheVariants as tasks;

use crate::hardware::Bus;
use crate::port::OutgoingKind;
use crate::rings::Side;
use crate::sizes::{ClearSize, TextSize};
use crate::slot::Descriptor;
use crate::stage::Stage;
use crate::task::Task;
use crate::verdict::Verdict;
use mscp_queue::{Block, FaultStatus};

/// A task as numbers: which it is, and what is known for it. What it lacks is 0.
#[derive(Clone, Copy)]
pub(crate) struct Coded {
    pub task: u8,
    /// The ring, or whether a text is for another connection than the disk's.
    pub whom: u8,
    /// How many bytes are clear, or the descriptor of a slot.
    pub first: u32,
    /// The length of a text.
    pub second: u32,
    /// The status of a bad block.
    pub two: u16,
    /// How a step went.
    pub how: u8,
}

/// A task that lacks everything.
const NOTHING: Coded = Coded {
    task: 0,
    whom: 0,
    first: 0,
    second: 0,
    two: 0,
    how: 0,
};

/// The number of a bus.
pub(crate) fn bus_byte(bus: Bus) -> u8
    ensures { result ≡ bus_byte bus }
{
    match bus {
        Bus::Q => 1,
        Bus::Uni => 2,
    }
}

/// The bus of a number.
pub(crate) fn bus_in(byte: u8) -> Bus
    ensures { result ≡ bus_in byte }
{
    if byte == 1 { Bus::Q } else { Bus::Uni }
}

/// The number of what a message is.
pub(crate) fn kind_byte(kind: OutgoingKind) -> u8
    ensures { result ≡ kind_byte kind }
{
    match kind {
        OutgoingKind::Attention => 1,
        OutgoingKind::End => 2,
        OutgoingKind::UtilitiesEnd => 3,
    }
}

/// What a message is that goes out, by its number.
pub(crate) fn kind_in(byte: u8) -> OutgoingKind
    ensures { result ≡ kind_in byte }
{
    match byte {
        1 => OutgoingKind::Attention,
        2 => OutgoingKind::End,
        _ => OutgoingKind::UtilitiesEnd,
    }
}

/// The number of a ring.
fn side_byte(side: Side) -> u8
    ensures { result ≡ side_byte side }
{
    match side {
        Side::Responses => 1,
        Side::Commands => 2,
    }
}

/// The ring of a number.
fn side_in(byte: u8) -> Side
    ensures { result ≡ side_in byte }
{
    if byte == 1 {
        Side::Responses
    } else {
        Side::Commands
    }
}

/// The stage of a number, with this word.
pub(crate) fn stage_in(byte: u8, word: u16) -> Stage
    ensures { result ≡ stage_in byte word }
{
    match byte {
        1 => Stage::Wrapped(word),
        2 => Stage::Second,
        3 => Stage::Third,
        4 => Stage::Purging,
        5 => Stage::Probing,
        6 => Stage::Clearing,
        7 => Stage::Last,
        8 => Stage::Up,
        9 => Stage::Dead(word),
        _ => Stage::First,
    }
}

/// Whether a block was bad, and its status.
fn coded_block(block: Block) -> (u8, u16)
    ensures bad { result.0 ≡ bad_byte block }
    ensures status { result.1 ≡ bad_status block }
{
    match block {
        Block::Good => (0, 0),
        Block::Bad(status) => (1, status.get()),
    }
}

/// How a step went, and the status of a bad block.
fn coded_verdict(verdict: Verdict) -> (u8, u16)
    ensures how { result.0 ≡ verdict_byte verdict }
    ensures status { result.1 ≡ verdict_status verdict }
{
    match verdict {
        Verdict::Served(block) => coded_block(block),
        Verdict::NoVolume => (2, 0),
        Verdict::NotOnline => (3, 0),
    }
}

/// How a step went, by its number and the status of a block that was bad.
fn verdict_in(byte: u8, status: u16) -> Verdict
    ensures { result ≡ verdict_in byte status }
{
    match (byte, FaultStatus::new(status)) {
        (1, Some(status)) => Verdict::Served(Block::Bad(status)),
        (2, _) => Verdict::NoVolume,
        (3, _) => Verdict::NotOnline,
        _ => Verdict::Served(Block::Good),
    }
}

/// A task of which nothing is known but which it is.
fn bare(task: u8) -> Coded
    ensures { result ≡ record nothing { task = task } }
{
    Coded { task, ..NOTHING }
}

/// A task that has to do with a ring.
fn of_ring(task: u8, side: Side) -> Coded
    ensures { result ≡ record nothing { task = task; whom = side_byte side } }
{
    Coded {
        task,
        whom: side_byte(side),
        ..NOTHING
    }
}

/// A task that has to do with a packet.
fn of_packet(task: u8, slot: Descriptor) -> Coded
    ensures { result ≡ record nothing { task = task; first = slot.word } }
{
    Coded {
        task,
        first: slot.word,
        ..NOTHING
    }
}

/// The taking of a step that went so.
fn coded_step(verdict: Verdict) -> Coded
    ensures value { result ≡ coded_task (tasks.Step verdict) }
    ensures status { IsTask (tasks.Step verdict) }
{
    let (how, two) = coded_verdict(verdict);
    Coded {
        two,
        how,
        ..bare(11)
    }
}

/// A task as numbers.
pub(crate) fn coded_task(task: Task) -> Coded
    ensures value { result ≡ coded_task task }
    ensures task { IsTask task }
{
    match task {
        Task::Free => NOTHING,
        Task::Settle => bare(1),
        Task::Clear(done) => Coded {
            task: 2,
            first: done.get(),
            ..NOTHING
        },
        Task::Slot(side) => of_ring(3, side),
        Task::Header(slot) => of_packet(4, slot),
        Task::Text {
            slot,
            length,
            is_foreign,
        } => Coded {
            whom: if is_foreign { 1 } else { 0 },
            second: length.get(),
            ..of_packet(5, slot)
        },
        Task::Packet(slot) => of_packet(6, slot),
        Task::Return(side, slot) => Coded {
            first: slot.word,
            ..of_ring(7, side)
        },
        Task::Neighbour(side) => of_ring(8, side),
        Task::Word(side) => of_ring(9, side),
        Task::Interrupt => bare(10),
        Task::Step(verdict) => coded_step(verdict),
        Task::Transfer => bare(12),
    }
}

/// Whether the size that a task has by its numbers, if it has one, is such as a task of its kind has.
pub(crate) fn has_size(coded: Coded) -> bool
    ensures { result ≡ has_size coded }
{
    match coded.task {
        2 => ClearSize::of(coded.first).is_some(),
        5 => TextSize::of(coded.second).is_some(),
        _ => true,
    }
}

/// The clearing of the area behind so many bytes, if they are parts of one.
fn clear_task(done: Option<ClearSize>) -> Task
    ensures { result ≡ clear_task done }
{
    match done {
        Some(done) => Task::Clear(done),
        None => Task::Free,
    }
}

/// The reading of a text of this size, if it is one.
fn text_task(slot: Descriptor, is_foreign: bool, length: Option<TextSize>) -> Task
    ensures { result ≡ text_task slot is_foreign length }
{
    match length {
        Some(length) => Task::Text {
            slot,
            length,
            is_foreign,
        },
        None => Task::Free,
    }
}

/// The task that numbers say, of those before the rings are in use.
fn early_task_in(coded: Coded) -> Task
    ensures { result ≡ early_task_in coded }
{
    match coded.task {
        1 => Task::Settle,
        2 => clear_task(ClearSize::of(coded.first)),
        _ => Task::Free,
    }
}

/// The task that numbers say, of those with the rings.
fn ring_task_in(coded: Coded) -> Task
    ensures { result ≡ ring_task_in coded }
{
    let side = side_in(coded.whom);
    let slot = Descriptor { word: coded.first };
    match coded.task {
        3 => Task::Slot(side),
        4 => Task::Header(slot),
        5 => text_task(slot, coded.whom == 1, TextSize::of(coded.second)),
        6 => Task::Packet(slot),
        7 => Task::Return(side, slot),
        8 => Task::Neighbour(side),
        _ => Task::Word(side),
    }
}

/// The task that numbers say, of those for a command.
fn block_task_in(coded: Coded) -> Task
    ensures { result ≡ block_task_in coded }
{
    match coded.task {
        11 => Task::Step(verdict_in(coded.how, coded.two)),
        12 => Task::Transfer,
        _ => Task::Interrupt,
    }
}

/// The task that numbers say.
pub(crate) fn task_in(coded: Coded) -> Task
    ensures { result ≡ task_in coded }
{
    if coded.task < 3 {
        early_task_in(coded)
    } else if coded.task < 10 {
        ring_task_in(coded)
    } else {
        block_task_in(coded)
    }
}

// The loop of an emulator, of which docs/USING.md has parts, and what it does.

mod moving;

use super::*;
use crate::tests::checks::{got, holds, same};
use mscp_packet::{Command, End, EndBody, read_end, write_command, write_end};

/// Where the host wants the data of a transfer: a place in its memory.
#[derive(Clone, Copy, Default)]
struct Buffer {
    reference: u32,
    place: u32,
}

/// A machine: its controller, the buffer of each command that waits, its memory, and its disk, which stands for a file.
#[derive(Drop)]
struct Machine<K> {
    controller: Controller<K>,
    buffers: ArrayVec<Buffer, 64>,
    memory: [u8; 4096],
    disk: [[u8; 512]; 64],
}

/// The place that the buffer descriptor of a transfer names: here it is in bytes 16 to 19.
fn place_in(message: &[u8]) -> u32 {
    if message.len() < 20 {
        return 0;
    }
    u32::from_le_bytes([message[16], message[17], message[18], message[19]])
}

impl<K: Picker> Machine<K> {
    /// The port got a message from the host.
    fn on_message(&mut self, message: &[u8]) -> Result<(), SendFault> {
        let sent = self.controller.send(Connection::First, message)?;
        self.note(sent, message);
        Ok(())
    }

    /// Keeps the buffer of a command that waits, and forgets that of one that was aborted.
    fn note(&mut self, sent: Sent, message: &[u8]) {
        match sent {
            Sent::Queued(reference) => {
                let place = place_in(message);
                // There is room, since at most 63 commands wait.
                let _ = self.buffers.try_push(Buffer { reference, place });
            }
            Sent::Answered {
                aborted: Some(other),
                ..
            } => self.forget(other),
            Sent::Answered { aborted: None, .. } => {}
        }
    }

    /// Forgets the buffer of a command that has ended.
    fn forget(&mut self, reference: u32) {
        self.buffers.retain(|buffer| buffer.reference != reference);
    }

    /// Where the host wants the data of a command that waits.
    fn place_of(&self, reference: u32) -> u32 {
        let buffers = self.buffers.as_slice();
        match buffers.iter().find(|buffer| buffer.reference == reference) {
            Some(buffer) => buffer.place,
            None => 0,
        }
    }
}

/// What the drive is to do: one step of a command, with room for the bytes of its block.
#[derive(Clone, Copy)]
struct Job {
    upcoming: Upcoming,
    bytes: [u8; 512],
}

/// The part of the host's memory that a step of a transfer reads or fills: a block, or less of it at the end of the
/// transfer or of the memory.
fn part<'a>(memory: &'a mut [u8], place: u32, upcoming: &Upcoming) -> &'a mut [u8] {
    let wanted = match upcoming.command.order {
        Order::Move(_, bytes, _) => bytes as usize,
        _ => 0,
    };
    let before = upcoming.done as usize * 512;
    let count = wanted.saturating_sub(before).min(512);
    let start = (place as usize + before).min(memory.len());
    let end = (start + count).min(memory.len());
    &mut memory[start..end]
}

/// Copies as many bytes as both have.
fn copy(from: &[u8], into: &mut [u8]) {
    for (to, byte) in into.iter_mut().zip(from.iter()) {
        *to = *byte;
    }
}

/// Data Error: the file hasn't the block, or can't give it.
fn data_error() -> Block {
    let Some(status) = FaultStatus::new(8) else {
        unreachable!();
    };
    Block::Bad(status)
}

impl<K: Picker> Machine<K> {
    /// The drive is free: what it is to do next, if a command waits. A WRITE brings its bytes along.
    fn begin(&mut self) -> Option<Job> {
        let upcoming = self.controller.begin()?;
        let mut bytes = [0; 512];
        if let Order::Move(MoveKind::Write, ..) = upcoming.command.order {
            let place = self.place_of(upcoming.command.reference);
            copy(part(&mut self.memory, place, &upcoming), &mut bytes);
        }
        Some(Job { upcoming, bytes })
    }

    /// The drive does its work on the file, and reports how it went.
    fn work(&mut self, job: &mut Job) -> Block {
        let upcoming = job.upcoming;
        let (Order::Move(kind, bytes, _), Some(lbn)) = (upcoming.command.order, upcoming.lbn) else {
            return Block::Good;
        };
        // A transfer of no bytes names a block, and moves nothing.
        if bytes == 0 {
            return Block::Good;
        }
        let Some(block) = self.disk.get_mut(lbn as usize) else {
            return data_error();
        };
        match kind {
            MoveKind::Read | MoveKind::Access => job.bytes = *block,
            MoveKind::Write | MoveKind::Erase => *block = job.bytes,
            // Here the block is to be compared with the host's memory.
            MoveKind::Compare => {}
        }
        Block::Good
    }

    /// The bytes of a READ go to the host's memory.
    fn fill(&mut self, job: &Job) {
        let place = self.place_of(job.upcoming.command.reference);
        copy(&job.bytes, part(&mut self.memory, place, &job.upcoming));
    }

    /// The drive is through with the work, and the block had this outcome. A READ fills the host's memory, unless the
    /// command was aborted in the meantime.
    fn finish(&mut self, job: &Job, block: Block) -> Result<Report, NotBegun> {
        let command = job.upcoming.command;
        let is_good = matches!(block, Block::Good);
        let report = self
            .controller
            .finish(Connection::First, command.reference, block)?;
        let read = matches!(command.order, Order::Move(MoveKind::Read, ..));
        if read && is_good && job.upcoming.lbn.is_some() {
            self.fill(job);
        }
        if let Report::Served { ended: Some(_), .. } = report {
            self.forget(command.reference);
        }
        Ok(report)
    }
}

impl<K: Picker> Machine<K> {
    /// The drive has time for a block, and moves it at once.
    fn on_turn(&mut self) -> Option<Report> {
        let mut job = self.begin()?;
        let block = self.work(&mut job);
        self.finish(&job, block).ok()
    }

    /// The host has reset the port.
    fn on_reset(&mut self) {
        self.controller.reset();
        self.buffers.clear();
    }
}

/// What a step served: reference number, unit and block.
fn served(report: &Report) -> Option<(u32, u16, Option<u32>)> {
    match report {
        Report::Served {
            reference,
            unit,
            lbn,
            ..
        } => Some((*reference, *unit, *lbn)),
        Report::Idle => None,
    }
}

/// A command to unit 0, as the host sends it.
fn message(reference: u32, order: Order) -> ArrayVec<u8, 48> {
    write_command(&Command {
        reference,
        unit: 0,
        order,
    })
}

impl<K: Picker> Machine<K> {
    /// A message comes that is not refused.
    fn gets(&mut self, rt: &impl Abort, message: &[u8]) {
        holds(rt, self.on_message(message).is_ok());
    }

    /// The oldest end that wasn't taken is this one.
    fn ends(&mut self, rt: &impl Abort, reference: u32, status: u16, body: EndBody) {
        let bytes = self.controller.take(Connection::First);
        let bytes = bytes.expect(rt, "an end");
        let end = got(rt, read_end(bytes.as_slice()));
        let wanted = End {
            reference,
            status,
            body,
            ..end
        };
        same(rt, bytes.as_slice(), write_end(&wanted).as_slice());
    }

    /// No end is left, and no buffer.
    fn has_nothing(&mut self, rt: &impl Abort) {
        holds(rt, self.controller.take(Connection::First).is_none());
        holds(rt, self.buffers.is_empty());
    }
}

/// A machine whose unit is online. Its memory is full of sevens.
fn online_machine<K: Picker>(rt: &impl Abort, picker: K) -> Machine<K> {
    let mut machine = Machine {
        controller: controller(rt, picker),
        buffers: ArrayVec::new(),
        memory: [7; 4096],
        disk: [[0; 512]; 64],
    };
    let online = message(900, Order::Online);
    machine.gets(rt, online.as_slice());
    holds(rt, machine.on_turn().is_some());
    holds(rt, machine.controller.take(Connection::First).is_some());
    holds(rt, machine.on_turn().is_none());
    machine
}

/// A READ (opcode 33) or WRITE (34) of so many bytes from a block on, whose buffer begins at the place.
fn transfer(opcode: u8, reference: u8, bytes: u16, block: u8, place: u16) -> [u8; 32] {
    let [low, high] = bytes.to_le_bytes();
    let [place_low, place_high] = place.to_le_bytes();
    let mut message = [0; 32];
    message[0] = reference;
    message[8] = opcode;
    message[12] = low;
    message[13] = high;
    message[16] = place_low;
    message[17] = place_high;
    message[28] = block;
    message
}

/// The bytes are all this one.
fn are_all(bytes: &[u8], byte: u8) -> bool {
    for other in bytes {
        if *other != byte {
            return false;
        }
    }
    true
}

#[test]
fn what_was_aborted_meanwhile_leaves_the_memory_alone(rt: HostRuntime) {
    let mut machine = online_machine(&rt, Oldest);
    machine.gets(&rt, &transfer(33, 1, 512, 40, 0));
    let mut job = machine.begin().expect(&rt, "the READ");
    machine.gets(&rt, message(2, Order::Abort(1)).as_slice());
    let block = machine.work(&mut job);
    holds(&rt, machine.finish(&job, block).is_err());
    holds(&rt, are_all(&machine.memory, 7));
    machine.ends(&rt, 1, 0x0002, EndBody::Moved(0));
    machine.ends(&rt, 2, 0, EndBody::Abort(1));
    machine.has_nothing(&rt);
}

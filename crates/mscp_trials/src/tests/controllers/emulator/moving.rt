// What that machine moves, and when.

use super::*;
use crate::tests::checks::{holds, same};

impl<K: Picker> Machine<K> {
    /// The next turn serves this block of a command.
    fn serves(&mut self, rt: &impl Abort, reference: u32, block: u32) {
        let report = self.on_turn().expect(rt, "a command waits");
        same(rt, served(&report), Some((reference, 0, Some(block))));
    }

    /// The next command to be served moves blocks 10 and 11, and this many bytes.
    fn moves_both(&mut self, rt: &impl Abort, reference: u32, bytes: u32) {
        self.serves(rt, reference, 10);
        self.serves(rt, reference, 11);
        self.ends(rt, reference, 0, EndBody::Moved(bytes));
    }
}

/// The bytes of the memory, or of a block, from a place to another are all this one.
fn part_has(rt: &impl Abort, bytes: &[u8], (from, to): (usize, usize), byte: u8) {
    let part = bytes.get(from..to).expect(rt, "a part of them");
    holds(rt, are_all(part, byte));
}

/// A machine to which a WRITE of 700 bytes came, and a READ of the two blocks that it writes.
fn with_both(rt: &impl Abort) -> Machine<Oldest> {
    let mut machine = online_machine(rt, Oldest);
    let write = transfer(34, 1, 700, 10, 100);
    machine.gets(rt, &write);
    let again = machine.on_message(&write);
    holds(rt, matches!(again, Err(SendFault::Doubled)));
    machine.gets(rt, &transfer(33, 2, 1024, 10, 2048));
    same(rt, machine.controller.figure(Connection::First, 1), 18);
    machine
}

// 700 bytes are a block of 512 and 188 of the next: 188 + 324 = 512.
#[test]
fn data_go_to_the_disk_and_come_back(rt: HostRuntime) {
    let rt = &rt;
    let mut machine = with_both(rt);
    machine.moves_both(rt, 1, 700);
    holds(rt, are_all(&machine.disk[10], 7));
    part_has(rt, &machine.disk[11], (0, 188), 7);
    part_has(rt, &machine.disk[11], (188, 512), 0);
    machine.moves_both(rt, 2, 1024);
    part_has(rt, &machine.memory, (0, 2748), 7);
    part_has(rt, &machine.memory, (2748, 3072), 0);
    part_has(rt, &machine.memory, (3072, 4096), 7);
    machine.has_nothing(rt);
}

/// A transfer of no bytes names block 10.
fn moves_nothing(rt: &impl Abort, machine: &mut Machine<Oldest>, opcode: u8, reference: u8) {
    let number = u32::from(reference);
    machine.gets(rt, &transfer(opcode, reference, 0, 10, 0));
    machine.serves(rt, number, 10);
    machine.ends(rt, number, 0, EndBody::Moved(0));
    holds(rt, are_all(&machine.disk[10], 60));
    holds(rt, are_all(&machine.memory, 7));
}

// Block 10 keeps what it has, and the memory too.
#[test]
fn a_transfer_of_no_bytes_moves_nothing(rt: HostRuntime) {
    let rt = &rt;
    let mut machine = online_machine(rt, Oldest);
    machine.disk[10] = [60; 512];
    moves_nothing(rt, &mut machine, 34, 1);
    moves_nothing(rt, &mut machine, 33, 2);
}

// The unit has 1000 blocks, and the file only 64: block 63 is its last.
#[test]
fn a_block_that_the_file_has_not_is_bad(rt: HostRuntime) {
    let rt = &rt;
    let mut machine = online_machine(rt, Oldest);
    machine.gets(rt, &transfer(33, 1, 1024, 63, 0));
    machine.serves(rt, 1, 63);
    machine.serves(rt, 1, 64);
    machine.ends(rt, 1, 0x0008, EndBody::Moved(512));
    holds(rt, machine.on_turn().is_none());
    part_has(rt, &machine.memory, (0, 512), 0);
    part_has(rt, &machine.memory, (512, 4096), 7);
}

#[test]
fn a_reset_forgets_what_the_machine_had(rt: HostRuntime) {
    let rt = &rt;
    let mut machine = online_machine(rt, Oldest);
    machine.gets(rt, &transfer(33, 1, 1024, 40, 0));
    machine.serves(rt, 1, 40);
    let mut job = machine.begin().expect(rt, "the second block");
    machine.on_reset();
    let block = machine.work(&mut job);
    holds(rt, machine.finish(&job, block).is_err());
    holds(rt, machine.on_turn().is_none());
    machine.has_nothing(rt);
}

// Of two READs the newest starts, and then the other.
#[test]
fn a_picker_of_ones_own_picks(rt: HostRuntime) {
    let rt = &rt;
    let mut machine = online_machine(rt, Newest);
    machine.gets(rt, &transfer(33, 2, 512, 20, 0));
    machine.gets(rt, &transfer(33, 3, 512, 30, 0));
    machine.serves(rt, 3, 30);
    machine.serves(rt, 2, 20);
}

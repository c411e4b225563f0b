// Units of 1000 blocks, 20 of them a cylinder, and units of the largest sizes.

use crate::tests::checks::{got, holds, same, same_of};
use mscp_drive::{Head, Unit, Units};
use std::process::Abort;

fn made(number: u16, sizes: (u16, u16, u16), size: u32) -> Option<Unit> {
    Unit::new(number, sizes.0, sizes.1, sizes.2, size, 1, 2, 3).ok()
}

fn usual(number: u16) -> Unit {
    made(number, (10, 2, 1), 1000).unwrap_or_default()
}

#[test]
fn the_numbers_of_a_unit_are_kept(rt: HostRuntime) {
    let rt = &rt;
    let unit = usual(7);
    same(rt, (unit.number(), unit.size()), (7, 1000));
    let sizes = (unit.track(), unit.group(), unit.cylinder_size());
    same(rt, sizes, (10, 2, 1));
    same(rt, (unit.id(), unit.media(), unit.serial()), (1, 2, 3));
}

#[test]
fn a_block_has_a_cylinder(rt: HostRuntime) {
    let unit = usual(0);
    same(&rt, unit.last_cylinder(), 49);
    for (block, cylinder) in [(0, 0), (19, 0), (20, 1), (40, 2), (800, 40), (999, 49)] {
        same_of(&rt, block, unit.cylinder(block), cylinder);
    }
}

#[test]
fn the_largest_units_have_cylinders(rt: HostRuntime) {
    let rt = &rt;
    let largest = made(0, (65535, 65535, 65535), 4294967295).unwrap_or_default();
    same(rt, largest.track(), 65535);
    same(rt, largest.cylinder(4294967295), 0);
    same(rt, largest.last_cylinder(), 0);
    let least = made(0, (1, 1, 1), 4294967295).unwrap_or_default();
    same(rt, least.last_cylinder(), 4294967294);
}

// Where 8 blocks are the longest, a transfer of so many bytes from a block on has this weight, or status.
#[test]
fn a_transfer_is_weighed(rt: HostRuntime) {
    let rt = &rt;
    for (block, bytes, weight) in [
        (999, 512, Ok(1)),
        (999, 513, Err(0x0C01)),
        (1000, 0, Err(0x1C01)),
        (0, 0, Ok(1)),
        (999, 0, Ok(1)),
        (0, 513, Ok(2)),
        (0, 4096, Ok(8)),
        (0, 4097, Err(0x0C01)),
        (1, 4294967295, Err(0x0C01)),
        (4294967295, 0, Err(0x1C01)),
        (4294967295, 4294967295, Err(0x1C01)),
    ] {
        same_of(rt, (block, bytes), usual(0).check(block, bytes, 8), weight);
    }
    let largest = made(0, (1, 1, 1), 4294967295).unwrap_or_default();
    let past = largest.check(4294967294, 4294967295, 8388608);
    same(rt, past, Err(0x0C01));
    let longest = largest.check(0, 4294967295, 8388608);
    same(rt, longest, Ok(8388608));
}

// A READ on the cylinder to which the head goes costs so much.
#[test]
fn a_sweep_goes_on_to_the_end_before_it_turns(rt: HostRuntime) {
    let rt = &rt;
    let unit = usual(0);
    for (cylinder, up, to, cost) in [
        (10, true, 5, 83),
        (10, true, 30, 20),
        (10, true, 8, 80),
        (30, true, 5, 63),
        (30, true, 8, 60),
        (8, false, 5, 3),
        (8, false, 9, 17),
    ] {
        let head = Head { cylinder, up };
        holds(rt, cylinder <= unit.last_cylinder());
        holds(rt, to <= unit.last_cylinder());
        same_of(rt, (cylinder, to), head.cost(&unit, to), cost);
    }
}

// A head goes so far to a cylinder, and a start there leaves it on this way.
#[test]
fn a_start_turns_the_head_and_a_later_block_does_not(rt: HostRuntime) {
    let rt = &rt;
    let new = Head::default();
    same(rt, (new.cylinder, new.up), (0, true));
    for (cylinder, up, to, turned, far) in [
        (10, true, 30, true, 20),
        (10, true, 5, false, 5),
        (10, false, 30, true, 20),
        (10, false, 5, false, 5),
        (10, true, 10, true, 0),
        (10, false, 10, false, 0),
    ] {
        let head = Head { cylinder, up };
        let moved = head.moved(to);
        same_of(rt, (to, up), (moved.cylinder, moved.up), (to, turned));
        let carried = head.carried(to);
        same_of(rt, (to, up), (carried.cylinder, carried.up), (to, up));
        same_of(rt, (to, up), head.distance(to), far);
    }
}

/// In a list of these units each is found by its number, and no other.
fn are_found(rt: &impl Abort, units: &Units, list: &[Unit]) {
    for unit in list {
        same(
            rt,
            units.find(unit.number()).map(Unit::number),
            Some(unit.number()),
        );
    }
    for absent in [0, 3, 6, 65534] {
        same_of(rt, absent, units.find(absent).is_none(), true);
    }
}

/// The numbers of three units.
fn numbers(rt: &impl Abort, units: &Units) -> [u16; 3] {
    let [a, b, c] = units.list() else {
        panic!(rt; "three units");
    };
    [a.number(), b.number(), c.number()]
}

#[test]
fn units_are_found_and_made_again(rt: HostRuntime) {
    let list = [usual(2), usual(5), usual(65535)];
    let units = got(&rt, Units::new(&list));
    same(&rt, numbers(&rt, &units), [2, 5, 65535]);
    are_found(&rt, &units, &list);
    let again = got(&rt, Units::new(units.list()));
    same(&rt, numbers(&rt, &again), [2, 5, 65535]);
}

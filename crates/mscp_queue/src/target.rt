// The target of a waiting command.

ghost use Rattle.std.specs.Prelude.{◌≡◌, ◌<◌, ◌≤◌, true, length};
ghost use Rattle.mscp_queue.specs.Common.{position, target_of, unit_place, IsUnitList, has_number, is_known, units_of, first_block};

use crate::drive::Drive;
use crate::ranges::range_of;
use mscp_packet::{Command, Order};

/// The place of the drive of a command's unit, and the cylinder of its first block, 0 where it has none, with its
/// range. They stay while the command waits, and each start asks for them.
#[derive(Clone, Copy, Default)]
pub(crate) struct Target {
    pub drive: u8,
    pub cylinder: u32,
    pub range: u8,
}

/// The place of the drive of the unit with this number, if there is one.
fn find_place(drives: &[Drive], number: u16) -> Option<usize>
    ensures { result ≡ position (has_number number) drives.now }
{
    drives
        .iter()
        .position(|drive| drive.unit.number() == number)
}

/// The place of the drive of a unit that is known. Most stand at the place of their number, so that is looked at first.
#[tactic(auto, using(crate::proofs::Targets::place_found, crate::proofs::Targets::place_inside))]
fn place_of_drive(drives: &[Drive], number: u16) -> usize
    requires known { is_known (units_of drives.now) number ≡ true }
    requires units { IsUnitList (units_of drives.now) }
    ensures value { result ≡ unit_place (units_of drives.now) number }
    ensures inside { result < length drives.now }
{
    let likely = usize::from(number);
    if likely < drives.len() && drives[likely].unit.number() == number {
        return likely;
    }
    find_place(drives, number).unwrap_or(drives.len())
}

/// The first block of an order, 0 where it has none.
fn first_block(order: &Order) -> u32
    ensures { result ≡ first_block order.now }
{
    match order {
        Order::Move(_, _, block) => *block,
        _ => 0,
    }
}

impl Target {
    /// The target of a command whose unit is known.
    pub fn of(command: &Command, drives: &[Drive]) -> Target
        requires known { is_known (units_of drives.now) command.now.unit ≡ true }
        requires units { IsUnitList (units_of drives.now) }
        requires few { length drives.now ≤ 16 }
        ensures { result ≡ target_of (units_of drives.now) command.now }
    {
        let place = place_of_drive(drives, command.unit);
        let unit = &drives[place].unit;
        let cylinder = unit.cylinder(first_block(&command.order));
        Target {
            drive: place as u8,
            cylinder,
            range: range_of(unit, cylinder),
        }
    }
}

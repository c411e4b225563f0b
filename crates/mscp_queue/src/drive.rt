// A unit with its state and its head.

ghost use Rattle.std.specs.Prelude.{◌≡◌, ◌<◌, ◌≤◌, ◌^◌, find, length, map};
ghost use Rattle.mscp_queue.specs.Common.{option_copied, one_block, drive_of, fresh_drive, has_number, state_after, state_left};

use crate::outcome::is_success;
use crate::plan::Plan;
use arrayvec::ArrayVec;
use mscp_drive::{Head, Unit};
use mscp_packet::Order;

/// A unit, whether it is online, and where its head is.
#[derive(Clone, Copy)]
pub struct Drive {
    pub unit: Unit,
    pub online: bool,
    pub head: Head,
}

impl Drive {
    ghost use Rattle.std.specs.Prelude.{false};
    ghost use Rattle.mscp_queue.specs.Common.{IsOnUnit, cost_on, last_cylinder};
    ghost use Rattle.mscp_queue.specs.Drives.{fresh_drive};

    /// The drive of a unit to which nothing came so far: the unit is available, and its head is on cylinder 0
    /// and goes up.
    pub fn new(unit: Unit) -> Drive
        ensures { result ≡ fresh_drive unit }
    {
        Drive {
            unit,
            online: false,
            head: Head::default(),
        }
    }

    /// What a start here costs whose first block is on this cylinder: nothing, if the command is sequential.
    #[inline(always)]
    pub(crate) fn cost(&self, sequential: bool, cylinder: u32) -> u64
        requires head { IsOnUnit self.now }
        requires target { sequential ≡ false → cylinder ≤ last_cylinder self.now.unit }
        ensures value { result ≡ cost_on self.now sequential cylinder }
        ensures small { result < 2 ^ 33 }
    {
        if sequential {
            0
        } else {
            self.head.cost(&self.unit, cylinder)
        }
    }

    /// Has the step of a command of this order, as it is planned: the head goes over, and an end may change the state.
    /// The unit isn't written anew.
    #[inline(always)]
    pub(crate) fn follow(&mut self, order: &Order, plan: &Plan)
        ensures { self.new ≡ record {
          unit = self.old.unit;
          online = state_left self.old.online order.now plan.now.ended;
          head = plan.now.head;
        } }
    {
        if let Some(end) = &plan.ended {
            self.online = state_after(self.online, order, end.status);
        }
        self.head = plan.head;
    }
}

/// The state that an end of the order with this status leaves its unit in.
fn state_after(online: bool, order: &Order, status: u16) -> bool
    ensures { result ≡ state_after online order.now status }
{
    match order {
        Order::Online if is_success(status) => true,
        Order::Available if is_success(status) => false,
        _ => online,
    }
}

/// The drive of the smallest unit, which fills the places of a list that isn't full.
impl Default for Drive {
    fn default() -> Drive
        ensures { result ≡ fresh_drive one_block }
    {
        Drive::new(Unit::default())
    }
}

/// A drive for each unit.
pub(crate) fn drives_of(units: &[Unit]) -> ArrayVec<Drive, 16>
    requires { length units.now ≤ 16 }
    ensures { result.items ≡ map fresh_drive units.now }
{
    let mut drives = ArrayVec::new();
    for unit in units {
        drives.push(Drive::new(*unit));
    }
    drives
}

/// Each drive is as new.
pub(crate) fn renew_drives(drives: &mut [Drive])
    ensures { drives.new ≡ map (λ d. fresh_drive d.unit) drives.old }
{
    for drive in drives.iter_mut() {
        *drive = Drive::new(drive.unit);
    }
}

/// The drive of the unit with this number, if the unit is configured.
pub(crate) fn find_drive(drives: &[Drive], number: u16) -> Option<&Drive>
    ensures { option_copied result ≡ find (has_number number) drives.now }
{
    drives.iter().find(|drive| drive.unit.number() == number)
}

/// The drive of the unit with this number. There is one for each unit that is configured.
pub(crate) fn drive_of(drives: &[Drive], number: u16) -> Drive
    ensures { result ≡ drive_of drives.now number }
{
    match find_drive(drives, number) {
        Some(drive) => *drive,
        None => Drive::default(),
    }
}

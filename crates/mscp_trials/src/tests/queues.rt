// Queues whose picker picks the newest command that may start.

ghost use Rattle.std.specs.Prelude.{◌≡◌, ◌<◌, [], ◌∷◌};
ghost use Rattle.mscp_drive.specs.Shape.{shape};
ghost use Rattle.mscp_queue.specs.Kept.{IsWaitable, units_of};
ghost use Rattle.mscp_queue.specs.Orders.{order_weight};

use super::controllers::Newest;
use crate::tests::checks::{same, same_of};
use mscp_drive::{Unit, Units};
use mscp_packet::{MoveKind, Order};
use mscp_queue::{Block, Connection, Queue, Report, Waiting};
use std::process::Abort;

/// A queue of unit 0, which has 1000 blocks, 20 blocks a cylinder. Each command may be passed by so many blocks.
fn queue(rt: &impl Abort, budget: u32) -> Queue<Newest>
    requires { budget < 4 }
    ensures room { result.room ≡ 4 }
    ensures longest { result.longest ≡ 8 }
    ensures waiting { result.waiting ≡ [] }
    ensures units { units_of result.drives ≡ shape 0 10 2 1 1000 1 0 1 ∷ [] }
{
    let unit = Unit::new(0, 10, 2, 1, 1000, 1, 0, 1)
        .ok()
        .expect(rt, "no size is zero");
    let units = Units::new(&[unit]).ok().expect(rt, "a list of units");
    Queue::new(&units, 4, budget, 8, Newest)
}

/// A transfer of block 0.
fn read(reference: u32) -> Waiting
    ensures reference { result.reference ≡ reference }
    ensures weight { result.weight ≡ order_weight result.order }
    ensures waitable { IsWaitable 8 (shape 0 10 2 1 1000 1 0 1 ∷ [])
        (record { reference = result.reference; unit = result.unit; order = result.order }) }
{
    Waiting {
        connection: Connection::First,
        reference,
        unit: 0,
        order: Order::Move(MoveKind::Read, 512, 0),
        weight: 1,
    }
}

/// The reference number of the command that the next step serves.
fn served(queue: &mut Queue<Newest>) -> Option<u32> {
    match queue.serve(Block::Good) {
        Report::Served { reference, .. } => Some(reference),
        Report::Idle => None,
    }
}

/// Where each may be passed by so many blocks, the commands 1 to 4 are served in this order.
fn serves(rt: &impl Abort, budget: u32, order: [u32; 4])
    requires { budget < 4 }
{
    let mut queue = queue(rt, budget);
    queue.push(read(1));
    queue.push(read(2));
    queue.push(read(3));
    queue.push(read(4));
    for wanted in order {
        same_of(rt, budget, served(&mut queue), Some(wanted));
    }
    same(rt, served(&mut queue), None);
}

// Where each may be passed by one block, the start of 4 passes 1, 2 and 3, and then none of them may be passed any
// more. So from then on the oldest alone may start: 1, and then 2, since 3 would pass it by a second block. The unit is
// available, and each transfer ends in its first step.
#[test]
fn a_start_passes_every_earlier_command(rt: HostRuntime) {
    let rt = &rt;
    serves(rt, 0, [1, 2, 3, 4]);
    serves(rt, 1, [4, 1, 2, 3]);
    serves(rt, 2, [4, 3, 1, 2]);
    serves(rt, 3, [4, 3, 2, 1]);
}

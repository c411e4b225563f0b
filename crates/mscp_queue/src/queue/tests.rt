// Figures as a queue tells them while its clock is set back.

ghost use Rattle.std.specs.Prelude.{◌≡◌, ◌<◌, ◌≤◌, [], ◌∷◌};
ghost use Rattle.mscp_drive.specs.Shape.{shape};
ghost use Rattle.mscp_queue.specs.Common.{IsWaitable, clock_end, order_weight, units_of};

use super::*;
use crate::picker::Sweep;
use mscp_drive::{Block, Unit};
use mscp_packet::MoveKind;
use std::process::Abort;

/// A queue by the sweep, of unit 0, which is online and has 1000 blocks, 20 blocks a cylinder, whose clock stands so.
/// Each command may be passed by one block.
fn queue(rt: &impl Abort, clock: u64) -> Queue<Sweep>
    requires { clock < clock_end }
    ensures room { result.room ≡ 4 }
    ensures longest { result.longest ≡ 8 }
    ensures waiting { result.waiting ≡ [] }
    ensures units { units_of result.drives ≡ shape 0 10 2 1 1000 1 0 1 ∷ [] }
{
    let unit = Unit::new(0, 10, 2, 1, 1000, 1, 0, 1)
        .ok()
        .expect(rt, "no size is zero");
    let units = Units::new(&[unit]).ok().expect(rt, "a list of units");
    let mut drives = drives_of(units.list());
    drives[0].online = true;
    Queue {
        room: 4,
        longest: 8,
        backlog: Backlog::at_clock(1, clock),
        drives,
        begun: None,
        serving: None,
        picker: Sweep,
        favorites: Favorites::new(),
        view: View::empty(),
    }
}

/// A READ of this block.
fn read(reference: u32, block: u32) -> Waiting
    requires { block < 900 }
    ensures reference { result.reference ≡ reference }
    ensures weight { result.weight ≡ order_weight result.order }
    ensures waitable { IsWaitable 8 (shape 0 10 2 1 1000 1 0 1 ∷ [])
        (record { reference = result.reference; unit = result.unit; order = result.order }) }
{
    Waiting {
        connection: Connection::First,
        reference,
        unit: 0,
        order: Order::Move(MoveKind::Read, 512, block),
        weight: 1,
    }
}

/// The figures of the commands 1, 2 and 3: 0 if there is no such command.
fn figures(queue: &Queue<Sweep>) -> [u32; 3] {
    [
        queue.figure(Connection::First, 1),
        queue.figure(Connection::First, 2),
        queue.figure(Connection::First, 3),
    ]
}

/// The clocks that a test begins at: the second is set back two steps later.
const CLOCKS: [u64; 2] = [0, 1_099_511_627_774];

// The second READ passes the first by its block, and then the oldest alone may start.
#[test]
fn figures_fall_at_each_step(rt: HostRuntime) {
    for clock in CLOCKS {
        let mut queue = queue(&rt, clock);
        queue.push(read(1, 800));
        queue.push(read(2, 40));
        queue.push(read(3, 60));
        for expected in [[2, 3, 4], [1, 0, 3], [0, 0, 2]] {
            assert_eq!(rt; figures(&queue), expected, "from {clock}");
            queue.serve(Block::Good);
        }
        assert_eq!(rt; figures(&queue), [0, 0, 0], "from {clock}");
    }
}

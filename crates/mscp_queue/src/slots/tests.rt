// What stands in which slot.

ghost use Rattle.std.specs.Prelude.{◌<◌};

use super::*;
use mscp_drive::Connection;
use mscp_packet::{Command, MoveKind, Order};

/// A READ of a block with this reference number.
fn content(reference: u32) -> Content
    ensures drive { result.target.drive < 16 }
    ensures range { result.target.range < 64 }
{
    let command = Command {
        reference,
        unit: 0,
        order: Order::Move(MoveKind::Read, 512, 0),
    };
    Content {
        item: Record::new(Connection::First, command, 1),
        target: Target {
            drive: 0,
            cylinder: 0,
            range: 0,
        },
        due: 0,
    }
}

// Slots count from 0. The command that comes last takes slot 1, which the second left; that of the third stays where it
// is.
#[test]
fn a_command_takes_the_lowest_free_slot(rt: HostRuntime) {
    let mut slots = Slots::new();
    slots.push(content(1));
    slots.push(content(2));
    slots.push(content(3));
    slots.remove(1);
    slots.push(content(4));
    assert_eq!(rt; slots.order.as_slice(), [0, 2, 1].as_slice());
    let references = [1, 4, 3];
    for (number, wanted) in references.iter().enumerate() {
        assert_eq!(rt;
            slots.records[number].command().reference,
            *wanted,
            "in slot {number}"
        );
    }
}

// What a step of a waiting command does on its drive.
//
// A step is planned in one place, before anything is written: the block that it touches, the way of the head, and
// whether its command ends, and how. So the report, the drive and the record can't disagree, and what a step is to
// serve can be told before it is served.

ghost use Rattle.std.specs.Prelude.{◌≡◌, ◌+◌, ◌<◌, ◌^◌, Some};
ghost use Rattle.mscp_queue.specs.Common.{distance, Served, first_block, goes_on, head_after, is_unstarted, left_of, end_given, plan_of, touched};

use crate::drive::Drive;
use crate::outcome::{outcome, touches};
use crate::record::Record;
use crate::report::Report;
use mscp_drive::{Block, Head};
use mscp_packet::{End, Order};

/// The block that the next step of the command touches, if it touches one.
pub(crate) fn touched(drive: &Drive, served: &Record) -> Option<u32>
    requires { first_block served.now.command.order + served.now.done < 2 ^ 32 }
    ensures { result ≡ touched drive.now served.now }
{
    match served.command().order {
        Order::Move(_, _, block) if drive.online => Some(block + served.done()),
        _ => None,
    }
}

/// Whether the command waits on after a step with this block: the block is good, and not the last of a transfer.
#[inline(always)]
fn goes_on(drive: &Drive, served: &Record, block: &Block) -> bool
    ensures value { result ≡ goes_on drive.now.online served.now.command.order block.now (left_of served.now) }
    ensures small { served.now.weight < 2 ^ 32 }
{
    let more = served.left() > 1;
    touches(drive.online, &served.command().order) && matches!(block, Block::Good) && more
}

/// The end that a step with this block gives to the command, if that ends with it.
#[inline(always)]
fn end_given(drive: &Drive, served: &Record, block: &Block) -> Option<End>
    requires unfinished { served.now.done < served.now.weight }
    requires short { served.now.weight < 2 ^ 32 }
    ensures { result ≡ end_given block.now drive.now served.now }
{
    if goes_on(drive, served, block) {
        return None;
    }
    let command = served.command();
    Some(outcome(&drive.unit, drive.online, &command, served.done(), block))
}

/// How many cylinders the head goes to this one, and the head then: a start may turn it.
fn head_on(head: &Head, to: u32, starts: bool) -> (u32, Head)
    ensures seek { result.0 ≡ distance head.now.cylinder to }
    ensures head { result.1 ≡ head_after starts (Some to) head.now }
{
    let then = if starts {
        head.moved(to)
    } else {
        head.carried(to)
    };
    (head.distance(to), then)
}

/// What a step does: the block that it touches, how many cylinders its unit's head goes, the head then, and the end of
/// its command, if that ends with it.
#[derive(Clone, Copy)]
pub(crate) struct Plan {
    pub lbn: Option<u32>,
    pub seek: u32,
    pub head: Head,
    pub ended: Option<End>,
}

impl Plan {
    /// What the next step of the command does, whose block has this outcome.
    #[inline(always)]
    pub fn of(drive: &Drive, served: &Record, block: &Block) -> Plan
        requires unfinished { served.now.done < served.now.weight }
        requires short { served.now.weight < 2 ^ 32 }
        requires small { first_block served.now.command.order + served.now.done < 2 ^ 32 }
        ensures { result ≡ plan_of block.now drive.now served.now }
    {
        let lbn = touched(drive, served);
        let (seek, head) = match lbn {
            Some(lbn) => head_on(&drive.head, drive.unit.cylinder(lbn), served.is_unstarted()),
            None => (0, drive.head),
        };
        let ended = end_given(drive, served, block);
        Plan {
            lbn,
            seek,
            head,
            ended,
        }
    }

    /// What is reported of the step of this command.
    #[inline(always)]
    pub fn report(&self, served: &Record) -> Report
        ensures { result ≡ Served served.now.connection served.now.command.reference served.now.command.unit
            self.now.lbn (is_unstarted served.now) self.now.seek self.now.ended }
    {
        let command = served.command();
        Report::Served {
            connection: served.connection(),
            reference: command.reference,
            unit: command.unit,
            lbn: self.lbn,
            started: served.is_unstarted(),
            seek: self.seek,
            ended: self.ended,
        }
    }
}

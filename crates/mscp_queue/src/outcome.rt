// The ends that commands get.

ghost use Rattle.std.specs.Prelude.{◌≡◌, ◌+◌, ◌<◌, ◌^◌};
ghost use Rattle.mscp_queue.specs.Common.{endcode, aborted_end, bad_status, end_with, good_status, is_success, moved_body, online_body, outcome_at, outcome_body, outcome_status, touches};

use mscp_drive::{Block, Unit};
use mscp_packet::status::{
    ABORTED, ALREADY_ONLINE, INVALID_OPCODE, SUCCESS, UNIT_AVAILABLE, code_of,
};
use mscp_packet::{Command, End, EndBody, Order, codes, endcodes};

/// The bytes of a block.
const BLOCK_BYTES: u64 = 512;

/// The endcode of a command's end: its opcode with the top bit set. An opcode that is unknown has that bit alone.
pub fn endcode_of(command: &Command) -> u8
    ensures { result ≡ endcode command.now.order }
{
    match command.order {
        Order::Invalid {
            status: INVALID_OPCODE,
            ..
        } => endcodes::UNKNOWN,
        _ => command.opcode() | endcodes::UNKNOWN,
    }
}

/// The end of a command with this status and body (manual, "End Messages").
pub fn end_with(command: &Command, status: u16, body: EndBody) -> End
    ensures { result ≡ end_with command.now status body }
{
    End {
        reference: command.reference,
        unit: command.unit,
        code: endcode_of(command),
        status,
        body,
    }
}

/// The status of a command that a good step ends, on a unit that may be online.
pub(crate) fn good_status(online: bool, order: &Order) -> u16
    ensures { result ≡ good_status online order.now }
{
    match order {
        Order::Move(..) if !online => UNIT_AVAILABLE,
        Order::Online if online => ALREADY_ONLINE,
        _ => SUCCESS,
    }
}

/// The same where the block is bad: a transfer on an available unit never gets to it.
pub(crate) fn bad_status(online: bool, status: u16, order: &Order) -> u16
    ensures { result ≡ bad_status online status order.now }
{
    match order {
        Order::Move(..) if !online => UNIT_AVAILABLE,
        _ => status,
    }
}

/// The body of a command that ends when so many of its blocks were good: a transfer's byte count.
fn moved_body(command: &Command, good: u32) -> EndBody
    ensures { result ≡ moved_body command.now.order good }
{
    match command.order {
        Order::Move(_, count, _) => {
            // 2^32 blocks of 512 bytes want a wider type than the count's.
            let whole = BLOCK_BYTES * u64::from(good);
            EndBody::Moved(u64::from(count).min(whole) as u32)
        }
        _ => EndBody::refused(endcode_of(command)),
    }
}

/// Whether the status's code, its low five bits, is Success.
pub(crate) fn is_success(status: u16) -> bool
    ensures { result ≡ is_success status }
{
    code_of(status) == codes::SUCCESS
}

/// What ONLINE and SET UNIT CHARACTERISTICS tell of a unit, with Success alone.
fn online_body(unit: &Unit, status: u16) -> EndBody
    ensures { result ≡ online_body unit.now status }
{
    if !is_success(status) {
        return EndBody::Online {
            id: 0,
            media: 0,
            size: 0,
            serial: 0,
        };
    }
    EndBody::Online {
        id: unit.id(),
        media: unit.media(),
        size: unit.size(),
        serial: unit.serial(),
    }
}

/// The body of a command that a step ends with this status, when so many of its blocks were good.
pub(crate) fn outcome_body(unit: &Unit, status: u16, command: &Command, good: u32) -> EndBody
    ensures { result ≡ outcome_body unit.now status command.now.order good }
{
    match command.order {
        Order::Online | Order::SetUnit => online_body(unit, status),
        _ => moved_body(command, good),
    }
}

/// Whether a step of the order touches a block: it is a transfer, and its unit is online.
pub(crate) fn touches(online: bool, order: &Order) -> bool
    ensures { result ≡ touches online order.now }
{
    matches!(order, Order::Move(..)) && online
}

/// The status of a command that a step with this block ends, on a unit that may be online.
fn outcome_status(online: bool, order: &Order, block: &Block) -> u16
    ensures { result ≡ outcome_status online order.now block.now }
{
    match block {
        Block::Good => good_status(online, order),
        Block::Bad(status) => bad_status(online, status.get(), order),
    }
}

/// The end of a command to this unit that a step with this block ends, when so many of its blocks were good before. It
/// is built into the step, which makes no room for an end where there is none.
#[inline(always)]
pub(crate) fn outcome(unit: &Unit, online: bool, command: &Command, good: u32, block: &Block) -> End
    requires { good + 1 < 2 ^ 32 }
    ensures { result ≡ outcome_at unit.now online command.now good block.now }
{
    let status = outcome_status(online, &command.order, block);
    let touched = touches(online, &command.order) && matches!(block, Block::Good);
    let body = outcome_body(unit, status, command, good + u32::from(touched));
    end_with(command, status, body)
}

/// The end of a waiting command that is aborted when so many of its blocks were good.
pub(crate) fn aborted_end(command: &Command, good: u32) -> End
    ensures { result ≡ aborted_end command.now good }
{
    end_with(command, ABORTED, moved_body(command, good))
}

// How what a call answers is told.

ghost use Rattle.std.specs.Prelude.{◌≡◌};
ghost use Rattle.mscp_c.specs.PortSeen.{seen_code, volume_told};
ghost use Rattle.mscp_c.specs.Told.{PacketTold, begin_code, block_told, bytes_of, connection_told, flag, figures_told, holders_told, report_code, report_told, send_code, sent_told, upcoming_told};

use crate::outs::{FigureOut, HolderOut, PacketOut, ReportOut, SentOut, UpcomingOut, VolumeOut};
use crate::status::{ANSWERED, DONE, NOTHING, QUEUED, UNKNOWN_UNIT, send_fault_code};
use arrayvec::ArrayVec;
use mscp_controller::{Block, Connection, FaultStatus, Holder, Report, SendFault, Sent, Upcoming};
use mscp_packet::Order;
use mscp_packet::status::SUCCESS;
use mscp_port::Volume;

/// A flag as a number.
pub(crate) fn flag(holds: bool) -> u8
    ensures { result ≡ flag holds }
{
    if holds { 1 } else { 0 }
}

/// A connection as a number.
fn number_of(connection: Connection) -> u8
    ensures { result ≡ connection_told connection }
{
    match connection {
        Connection::First => 0,
        Connection::Second => 1,
    }
}

/// Tells what became of a message.
pub(crate) fn tell_sent(out: &mut SentOut, answer: &Result<Sent, SendFault>) -> i32
    ensures code { result ≡ send_code answer.now }
    ensures told { out.new ≡ sent_told answer.now out.old }
{
    match *answer {
        Ok(Sent::Queued(reference)) => {
            *out = SentOut {
                reference,
                aborted: 0,
                has_aborted: 0,
            };
            QUEUED
        }
        Ok(Sent::Answered { reference, aborted }) => {
            *out = SentOut {
                reference,
                aborted: aborted.unwrap_or(0),
                has_aborted: flag(aborted.is_some()),
            };
            ANSWERED
        }
        Err(fault) => send_fault_code(fault),
    }
}

/// Tells the bytes of a packet, and leaves what stands behind them.
pub(crate) fn tell_packet(out: &mut PacketOut, packet: &ArrayVec<u8, 48>)
    ensures { PacketTold packet.now.items out.old out.new }
{
    let length = packet.len();
    out.length = length as u32;
    out.bytes[..length].copy_from_slice(packet.as_slice());
}

/// The bytes of a transfer, 0 of any other order.
fn bytes_of(order: &Order) -> u32
    ensures { result ≡ bytes_of order.now }
{
    match *order {
        Order::Move(_, bytes, _) => bytes,
        _ => 0,
    }
}

/// Tells what the next step serves, and its serial.
pub(crate) fn tell_upcoming(out: &mut UpcomingOut, upcoming: &Option<Upcoming>, serial: u64) -> i32
    ensures code { result ≡ begin_code upcoming.now }
    ensures told { out.new ≡ upcoming_told upcoming.now serial out.old }
{
    let Some(upcoming) = upcoming else {
        return NOTHING;
    };
    *out = UpcomingOut {
        serial,
        reference: upcoming.command.reference,
        bytes: bytes_of(&upcoming.command.order),
        lbn: upcoming.lbn.unwrap_or(0),
        done: upcoming.done,
        weight: upcoming.weight,
        unit: upcoming.command.unit,
        opcode: upcoming.command.opcode(),
        touches: flag(upcoming.lbn.is_some()),
        connection: number_of(upcoming.connection),
    };
    DONE
}

/// Tells what a step did.
pub(crate) fn tell_report(out: &mut ReportOut, report: &Report) -> i32
    ensures code { result ≡ report_code report.now }
    ensures told { out.new ≡ report_told report.now out.old }
{
    match *report {
        Report::Idle => NOTHING,
        Report::Served {
            connection,
            reference,
            unit,
            lbn,
            started,
            seek,
            ended,
        } => {
            *out = ReportOut {
                reference,
                lbn: lbn.unwrap_or(0),
                seek,
                unit,
                status: ended.map_or(0, |end| end.status),
                touched: flag(lbn.is_some()),
                started: flag(started),
                ended: flag(ended.is_some()),
                connection: number_of(connection),
            };
            DONE
        }
    }
}

/// Tells as many of the figures as there is room for.
pub(crate) fn tell_figures(out: &mut [FigureOut], list: &[(Connection, u32, u32)])
    ensures { out.new ≡ figures_told list.now out.old }
{
    let count = list.len().min(out.len());
    for i in 0..count {
        out[i] = FigureOut {
            reference: list[i].1,
            figure: list[i].2,
            connection: number_of(list[i].0),
        };
    }
}

/// Tells as many of those that keep a command back as there is room for.
pub(crate) fn tell_holders(out: &mut [HolderOut], list: &[Holder])
    ensures { out.new ≡ holders_told list.now out.old }
{
    let room = out.len();
    for i in 0..list.len().min(room) {
        out[i] = HolderOut {
            reference: list[i].reference,
            connection: number_of(list[i].connection),
            fences: flag(list[i].fences),
            overdrawn: flag(list[i].overdrawn),
        };
    }
}

/// Tells a unit's volume.
pub(crate) fn tell_volume(out: &mut VolumeOut, volume: &Option<Volume>) -> i32
    ensures code { result ≡ seen_code volume.now }
    ensures told { out.new ≡ volume_told volume.now out.old }
{
    let Some(volume) = volume else {
        return UNKNOWN_UNIT;
    };
    *out = VolumeOut {
        size: volume.size,
        media: volume.media,
        is_there: flag(volume.is_there),
        is_protected: flag(volume.is_protected),
        is_protected_by_host: flag(volume.is_protected_by_host),
        is_online: flag(volume.is_mounted),
        is_removable: flag(volume.is_removable),
    };
    DONE
}

/// The outcome of a block with this status: good where it is 0.
pub(crate) fn block_of(status: u16) -> Option<Block>
    ensures { result ≡ block_told status }
{
    if status == SUCCESS {
        return Some(Block::Good);
    }
    FaultStatus::new(status).map(Block::Bad)
}

// What leaves for the host: ends, each with what was decided of it, and attention messages. Each is written whole,
// once.

ghost use Rattle.std.specs.Prelude.{◌≡◌, ◌+◌, ◌≤◌, ◌++◌};
ghost use Rattle.mscp_port.specs.Common.{array_vec_len, option_copied};
ghost use Rattle.mscp_port.specs.Leaving.{attention as attention_of, controller_end, end_told, head, online_end, shadow_part, tells_unit as has_unit, unit_part, unit_status_end};

use crate::decided::{Decided, unit_flags};
use crate::formality::ends_formality;
use crate::hardware::Hardware;
use crate::volumes::Volume;
use arrayvec::ArrayVec;
use mscp_drive::Unit;
use mscp_packet::fields::{put, put_eight, put_four, put_two};
use mscp_packet::status::{SUCCESS, code_of};
use mscp_packet::{End, EndBody, codes, endcodes, write_end};

/// The first 12 bytes of a message: reference number, unit, code and status.
fn head(reference: u32, unit: u16, code: u8, status: u16) -> ArrayVec<u8, 48>
    ensures items { result.items ≡ head reference unit code status }
    ensures len { array_vec_len result ≡ 12 }
{
    let mut bytes = ArrayVec::new();
    put_four(&mut bytes, reference);
    put_two(&mut bytes, unit);
    put(&mut bytes, &[0, 0, code, 0]);
    put_two(&mut bytes, status);
    bytes
}

/// Appends what a message tells of a unit: its number as that of its multi-unit, its flags, its identifier, and the
/// type of its media.
fn put_unit(out: &mut ArrayVec<u8, 48>, unit: &Unit, flags: u16, media: u32)
    requires { array_vec_len out.old ≤ 12 }
    ensures items { out.new.items ≡ out.old.items ++ unit_part unit.now flags media }
    ensures len { array_vec_len out.new ≡ array_vec_len out.old + 20 }
{
    put_two(out, unit.number());
    put_two(out, flags);
    put_four(out, 0);
    put_eight(out, unit.id());
    put_four(out, media);
}

/// The head of an end, what it tells of its unit, and the number of its shadow unit.
fn unit_end(end: &End, told: &Decided, unit: &Unit) -> ArrayVec<u8, 48>
    ensures items { result.items ≡ head end.now.reference end.now.unit end.now.code told.now.status
        ++ unit_part unit.now told.now.flags told.now.media ++ shadow_part unit.now }
    ensures len { array_vec_len result ≡ 36 }
{
    let mut bytes = head(end.reference, end.unit, end.code, told.status);
    put_unit(&mut bytes, unit, told.flags, told.media);
    put_two(&mut bytes, unit.number());
    put_two(&mut bytes, 0);
    bytes
}

/// The end of an ONLINE or a SET UNIT CHARACTERISTICS.
fn online_end(end: &End, told: &Decided, unit: &Unit) -> ArrayVec<u8, 48>
    ensures { result.items ≡ online_end end.now told.now unit.now }
{
    let mut bytes = unit_end(end, told, unit);
    put_four(&mut bytes, told.size);
    put_four(&mut bytes, unit.serial());
    bytes
}

/// The end of a GET UNIT STATUS.
fn unit_status_end(end: &End, told: &Decided, unit: &Unit) -> ArrayVec<u8, 48>
    ensures { result.items ≡ unit_status_end end.now told.now unit.now }
{
    let mut bytes = unit_end(end, told, unit);
    put_two(&mut bytes, unit.track());
    put_two(&mut bytes, unit.group());
    put_two(&mut bytes, unit.cylinder_size());
    put(&mut bytes, &[0; 6]);
    bytes
}

/// The end of a SET CONTROLLER CHARACTERISTICS, with the host's flags and the versions of software and hardware. It has
/// 32 bytes.
fn controller_end(
    end: &End,
    told: &Decided,
    hardware: &Hardware,
    timeout: u16,
    id: u64,
) -> ArrayVec<u8, 48>
    ensures { result.items ≡ controller_end end.now told.now hardware.now timeout id }
{
    let mut bytes = head(end.reference, end.unit, end.code, told.status);
    put_two(&mut bytes, 0);
    put_two(&mut bytes, told.flags);
    put_two(&mut bytes, timeout);
    put(&mut bytes, &[hardware.software, hardware.version]);
    put_eight(&mut bytes, id);
    put_four(&mut bytes, 0);
    bytes
}

/// Whether an end with this status tells its unit: Success, Unit-Offline, Unit-Available.
fn tells_unit(status: u16) -> bool
    ensures { result ≡ has_unit status }
{
    matches!(
        code_of(status),
        codes::SUCCESS | codes::UNIT_OFFLINE | codes::UNIT_AVAILABLE
    )
}

/// The bytes with which an end leaves to whose unit, if there is such a unit, and of which this was decided.
pub(crate) fn end_told(
    end: &End,
    told: &Decided,
    unit: Option<&Unit>,
    hardware: &Hardware,
) -> ArrayVec<u8, 48>
    ensures { result.items ≡ end_told end.now told.now (option_copied unit.entry) hardware.now }
{
    if ends_formality(told.code) {
        return head(end.reference, end.unit, told.code, told.status);
    }
    match (end.body, unit) {
        (EndBody::Online { .. }, Some(unit)) if tells_unit(told.status) => {
            online_end(end, told, unit)
        }
        (EndBody::UnitStatus { .. }, Some(unit)) if tells_unit(told.status) => {
            unit_status_end(end, told, unit)
        }
        (EndBody::Controller { timeout, id }, _) if told.status == SUCCESS => {
            controller_end(end, told, hardware, timeout, id)
        }
        _ => write_end(&End {
            status: told.status,
            ..*end
        }),
    }
}

/// An attention message: a volume came into this unit.
pub(crate) fn attention(unit: &Unit, volume: &Volume) -> ArrayVec<u8, 48>
    ensures { result.items ≡ attention_of unit.now volume.now }
{
    let mut bytes = head(0, unit.number(), endcodes::AVAILABLE_ATTENTION, 0);
    put_unit(&mut bytes, unit, unit_flags(volume), volume.media);
    bytes
}

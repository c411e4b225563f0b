// What an end says that only its port knows. That is decided as its command ends: the end may leave much later, when
// another volume is in the unit.

ghost use Rattle.std.specs.Prelude.{◌≡◌, length};
ghost use Rattle.mscp_port.specs.Decided.{controller_decided, decided_in, end_decided, status_told as told, unit_decided, unit_flags as flags_of};

use crate::formality::{ends_formality, formal_status};
use crate::verdict::Verdict;
use crate::volumes::Volume;
use mscp_drive::{Unit, Units};
use mscp_packet::End;
use mscp_packet::endcodes::{GET_UNIT_STATUS, ONLINE, SET_CONTROLLER_CHARACTERISTICS};
use mscp_packet::fields::{four_at, two_at};
use mscp_packet::status::{ALREADY_ONLINE, NO_VOLUME, SUCCESS, UNIT_AVAILABLE};

/// The controller replaces bad blocks itself.
const REPLACES: u16 = 0x8000;

/// Nothing may be written, by the hardware and by the host's word.
const PROTECTED: u16 = 0x2000;

pub(crate) const PROTECTED_BY_HOST: u16 = 0x1000;

/// The volume can be taken out.
const REMOVABLE: u16 = 0x0080;

/// What an end says beside what the controller says.
#[derive(Clone, Copy, Default)]
pub(crate) struct Decided {
    pub code: u8,
    pub status: u16,
    /// The flags of its unit, or of the controller.
    pub flags: u16,
    /// The type and the blocks of the volume in its unit, or of the unit if there is none.
    pub media: u32,
    pub size: u32,
}

/// The status of an end that is told with this endcode, which the controller gave this status, whose step went so, if
/// it had one, and whose unit had this volume then.
pub(crate) fn status_told(verdict: Verdict, code: u8, status: u16, volume: &Volume) -> u16
    ensures { result ≡ told verdict code status volume.now }
{
    if ends_formality(code) {
        return formal_status(status);
    }
    match (verdict, code, status) {
        (Verdict::NoVolume, ..) => NO_VOLUME,
        (Verdict::NotOnline, ..) => UNIT_AVAILABLE,
        (_, GET_UNIT_STATUS, SUCCESS | UNIT_AVAILABLE) if !volume.is_there => NO_VOLUME,
        (_, GET_UNIT_STATUS, SUCCESS | UNIT_AVAILABLE) if !volume.is_mounted => UNIT_AVAILABLE,
        (_, GET_UNIT_STATUS, SUCCESS | UNIT_AVAILABLE) => SUCCESS,
        (_, ONLINE, SUCCESS | ALREADY_ONLINE) if !volume.is_mounted => SUCCESS,
        (_, ONLINE, SUCCESS | ALREADY_ONLINE) => ALREADY_ONLINE,
        _ => status,
    }
}

/// The flags of a unit with this volume.
pub(crate) fn unit_flags(volume: &Volume) -> u16
    ensures { result ≡ flags_of volume.now }
{
    let hardware = if volume.is_protected { PROTECTED } else { 0 };
    let host = if volume.is_protected_by_host {
        PROTECTED_BY_HOST
    } else {
        0
    };
    let removable = if volume.is_removable { REMOVABLE } else { 0 };
    REPLACES + hardware + host + removable
}

impl Decided {
    /// Of the end of a command to this unit, whose volume is this.
    fn of_unit(code: u8, status: u16, unit: &Unit, volume: &Volume) -> Decided
        ensures { result ≡ unit_decided code status unit.now volume.now }
    {
        let (media, size) = if volume.is_there {
            (volume.media, volume.size)
        } else {
            (unit.media(), unit.size())
        };
        Decided {
            code,
            status,
            flags: unit_flags(volume),
            media,
            size,
        }
    }

    /// Of the end of a SET CONTROLLER CHARACTERISTICS: the host's flags beside the controller's own.
    fn of_controller(code: u8, status: u16, flags: u16) -> Decided
        ensures { result ≡ controller_decided code status flags }
    {
        Decided {
            code,
            status,
            flags: REPLACES + flags % REPLACES,
            media: 0,
            size: 0,
        }
    }

    /// Of an end which is told with this endcode and status, where the host has set these flags of its controller, and
    /// the end's unit has this volume.
    pub fn of_end(
        code: u8,
        status: u16,
        end: &End,
        units: &Units,
        flags: u16,
        volume: &Volume,
    ) -> Decided
        ensures { result ≡ end_decided code status end.now units.now flags volume.now }
    {
        match (end.code, units.find(end.unit)) {
            (SET_CONTROLLER_CHARACTERISTICS, _) => Decided::of_controller(code, status, flags),
            (_, Some(unit)) => Decided::of_unit(code, status, unit, volume),
            (_, None) => Decided {
                code,
                status,
                ..Decided::default()
            },
        }
    }

    /// What such an end says, in the bytes of that.
    pub fn read(b: &[u8]) -> Decided
        requires { length b.now ≡ 13 }
        ensures { result ≡ decided_in b.now }
    {
        Decided {
            status: two_at(b, 0),
            flags: two_at(b, 2),
            media: four_at(b, 4),
            size: four_at(b, 8),
            code: b[12],
        }
    }
}

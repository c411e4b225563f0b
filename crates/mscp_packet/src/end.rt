// Ends as values.

ghost use Rattle.std.specs.Prelude.{◌≡◌};
ghost use Rattle.mscp_packet.specs.Ends.{kind_of_code};

use crate::class::opcode_of;
use crate::endcodes;

/// What an end tells beside its status: one shape for each kind of end message.
#[derive(Clone, Copy, Default)]
pub enum EndBody {
    /// Nothing: an unknown opcode, AVAILABLE.
    #[default]
    Bare,
    /// ABORT: the outstanding reference number.
    Abort(u32),
    /// GET COMMAND STATUS: the outstanding reference number, and the figure of its command in steps.
    Status {
        other: u32,
        figure: u32,
    },
    /// GET UNIT STATUS: unit identifier, media type, and the sizes of a track in blocks, of a group
    /// in tracks and of a cylinder in groups.
    UnitStatus {
        id: u64,
        media: u32,
        track: u16,
        group: u16,
        cylinder: u16,
    },
    /// SET CONTROLLER CHARACTERISTICS: the controller timeout in seconds, and the controller
    /// identifier.
    Controller {
        timeout: u16,
        id: u64,
    },
    /// ONLINE, SET UNIT CHARACTERISTICS: unit identifier, media type, unit size in blocks, and volume
    /// serial number.
    Online {
        id: u64,
        media: u32,
        size: u32,
        serial: u32,
    },
    /// A transfer: how many bytes were transferred.
    Moved(u32),
}

/// An end: the reference number and the unit of its command, its endcode, status and body (manual,
/// "End Messages").
#[derive(Clone, Copy, Default)]
pub struct End {
    pub reference: u32,
    pub unit: u16,
    pub code: u8,
    pub status: u16,
    pub body: EndBody,
}

/// The shapes of bodies.
#[derive(Clone, Copy)]
pub enum BodyKind {
    Bare,
    Abort,
    Status,
    UnitStatus,
    Controller,
    Online,
    Moved,
}

/// The shape of the body that follows an endcode, if the byte is one: an opcode with the end bit (manual, "End
/// Messages"), or that bit alone, for an unknown opcode (profile).
pub(crate) fn kind_of(code: u8) -> Option<BodyKind>
    ensures { result ≡ kind_of_code code }
{
    match code.checked_sub(endcodes::UNKNOWN)? {
        0 => Some(BodyKind::Bare),
        opcode => opcode_of(opcode).map(|opcode| opcode.row().body),
    }
}

impl EndBody {
    ghost use Rattle.mscp_packet.specs.Ends.{refused_body};

    /// The body of the end of a refused command with this endcode: of the endcode's shape, every field
    /// 0 (profile). `Bare` where the byte is no endcode.
    pub fn refused(code: u8) -> EndBody
        ensures { result ≡ refused_body code }
    {
        match kind_of(code) {
            None | Some(BodyKind::Bare) => EndBody::Bare,
            Some(BodyKind::Abort) => EndBody::Abort(0),
            Some(BodyKind::Status) => EndBody::Status {
                other: 0,
                figure: 0,
            },
            Some(BodyKind::UnitStatus) => EndBody::UnitStatus {
                id: 0,
                media: 0,
                track: 0,
                group: 0,
                cylinder: 0,
            },
            Some(BodyKind::Controller) => EndBody::Controller { timeout: 0, id: 0 },
            Some(BodyKind::Online) => EndBody::Online {
                id: 0,
                media: 0,
                size: 0,
                serial: 0,
            },
            Some(BodyKind::Moved) => EndBody::Moved(0),
        }
    }
}

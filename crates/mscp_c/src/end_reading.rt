// Messages to ends, whose fields are told by name.

ghost use Rattle.std.specs.Prelude.{◌≡◌};
ghost use Rattle.mscp_c.specs.EndRead.{end_code, end_read, fields_told, nothing_told, told_or_same};

use crate::outs::EndOut;
use crate::status::{DONE, UNREADABLE};
use mscp_packet::{End, EndBody, EndFault, read_end};

/// The end that bytes are.
fn end_in(bytes: &[u8]) -> Result<End, EndFault>
    ensures { result ≡ end_read bytes.now }
{
    read_end(bytes)
}

/// An end without what its endcode may have.
fn bare(end: &End) -> EndOut
    ensures { result ≡ nothing_told end.now }
{
    EndOut {
        id: 0,
        reference: end.reference,
        other: 0,
        figure: 0,
        moved: 0,
        media: 0,
        size: 0,
        serial: 0,
        unit: end.unit,
        status: end.status,
        track: 0,
        group: 0,
        cylinder: 0,
        timeout: 0,
        code: end.code,
    }
}

/// All fields of an end.
#[rattlefmt::skip]
fn fields_of(end: &End) -> EndOut
    ensures { result ≡ fields_told end.now }
{
    let told = bare(end);
    match end.body {
        EndBody::Bare => told,
        EndBody::Abort(other) => EndOut { other, ..told },
        EndBody::Status { other, figure } => EndOut { other, figure, ..told },
        EndBody::UnitStatus { id, media, track, group, cylinder } => {
            EndOut { id, media, track, group, cylinder, ..told }
        }
        EndBody::Controller { timeout, id } => EndOut { timeout, id, ..told },
        EndBody::Online { id, media, size, serial } => EndOut { id, media, size, serial, ..told },
        EndBody::Moved(moved) => EndOut { moved, ..told },
    }
}

/// What an end tells, by the fields of its endcode.
#[unsafe(no_mangle)]
pub extern "C" fn mscp_read_end_at(bytes: &[u8], out: &mut EndOut) -> i32
    ensures code { result ≡ end_code (end_read bytes.now) }
    ensures told { out.new ≡ told_or_same (end_read bytes.now) out.old }
{
    match end_in(bytes) {
        Ok(end) => {
            *out = fields_of(&end);
            DONE
        }
        Err(_) => UNREADABLE,
    }
}

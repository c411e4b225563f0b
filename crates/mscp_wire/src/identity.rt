// What ends tell of units.

ghost use Rattle.std.specs.Prelude.{◌≡◌, ◌≤◌, length};
ghost use Rattle.mscp_wire.specs.Wire as wire;

use mscp_packet::endcodes;
use mscp_packet::fields::{eight_at, four_at, two_at};

/// What an end says of its unit (manual, "End Messages").
#[derive(Clone, Copy)]
pub struct Identity {
    /// The unit identifier.
    pub identifier: u64,
    /// The media type identifier.
    pub media: u32,
    /// The unit size in blocks, but for the end of a GET UNIT STATUS, which has something else there.
    pub size: Option<u32>,
}

impl Identity {
    /// What an end in these bytes says of its unit, if it is so long.
    pub fn of(b: &[u8]) -> Option<Identity>
        ensures { result ≡ wire.identity_in b.now }
    {
        if b.len() < 44 {
            return None;
        }
        Some(Identity {
            identifier: eight_at(b, 20),
            media: four_at(b, 28),
            size: if b[8] == endcodes::GET_UNIT_STATUS {
                None
            } else {
                Some(four_at(b, 36))
            },
        })
    }
}

/// Whether the flags of a unit in an end say that it is protected from writing (manual, "Unit Flags").
pub(crate) fn protected_in(b: &[u8]) -> bool
    requires { 12 ≤ length b.now }
    ensures { result ≡ wire.protected_in b.now }
{
    b.len() >= 16 && two_at(b, 14) / 4096 % 4 != 0
}

/// How many blocks all copies of a unit's replacement and caching table have, if an end is long enough to tell it.
pub(crate) fn table_in(b: &[u8]) -> Option<u32>
    requires { 12 ≤ length b.now }
    ensures { result ≡ wire.table_in b.now }
{
    if b[8] == endcodes::GET_UNIT_STATUS && b.len() >= 48 {
        Some(u32::from(two_at(b, 44)) * u32::from(b[47]))
    } else {
        None
    }
}

/// The later of two numbers, if it is there.
pub(crate) fn later_number(new: Option<u32>, known: Option<u32>) -> Option<u32>
    ensures { result ≡ wire.later_of new known }
{
    match new {
        Some(new) => Some(new),
        None => known,
    }
}

/// Whether two sizes are the same, if both are there.
fn fits_size(one: Option<u32>, other: Option<u32>) -> bool
    ensures { result ≡ wire.fits one other }
{
    match (one, other) {
        (Some(one), Some(other)) => one == other,
        _ => true,
    }
}

/// Whether an end tells of a unit what is known of it.
pub(crate) fn agrees(told: Option<Identity>, known: &Identity) -> bool
    ensures { result ≡ wire.agrees told known.now }
{
    match told {
        Some(told) => {
            told.identifier == known.identifier
                && told.media == known.media
                && fits_size(told.size, known.size)
        }
        None => false,
    }
}

// A unit: its sizes, the cylinder of a block, and whether it has the blocks of a transfer.

ghost use Rattle.std.specs.Prelude.{◌≡◌, ◌≢◌, ◌↔◌, ◌+◌, ◌*◌, ◌/◌, ◌^◌, ◌<◌, ◌≤◌, ℕ, IfOk};
ghost use Rattle.mscp_drive.specs.Common.{reciprocal_of, cylinder_of, last_cylinder, shape, blocks, range_fault, weighed, weight};

use std::marker::Model;

/// The bytes of a block (manual).
const BLOCK_BYTES: u32 = 512;

/// Invalid Command: the unit hasn't the first block, whose number is in bytes 28 to 31 (manual).
pub const INVALID_BLOCK: u16 = 0x1C01;

/// Invalid Command: by the byte count, in bytes 12 to 15, the transfer reaches past the unit (manual) or is longer than
/// the longest (profile).
pub const INVALID_BYTE_COUNT: u16 = 0x0C01;

/// A unit: its number, its sizes, and its identifiers (manual). No size is zero (profile).
#[derive(Clone, Copy)]
pub struct Unit {
    number: u16,
    track: u16,
    group: u16,
    cylinder: u16,
    size: u32,
    id: u64,
    media: u32,
    serial: u32,
    // Both follow from the sizes, and save a division each time that a cylinder is asked for.
    reciprocal: u64,
    last: u32,
}

// A clause sees the eight numbers that the unit was made of.
impl Model for Unit {
    ghost use Rattle.std.specs.Prelude.{◌≡◌, ◌<◌, ◌-◌, ◌*◌, ◌/◌};
    ghost use Rattle.mscp_drive.specs.Common.{reciprocal_of, Shape, cylinder_blocks, last_cylinder, shape};

    ghost Value = { Shape };

    ghost view = { λ u. shape u.number u.track u.group u.cylinder u.size u.id u.media u.serial };

    ghost invariant = { λ u. (0 < u.track) × (0 < u.group) × (0 < u.cylinder) × (0 < u.size)
        × (u.reciprocal ≡ reciprocal_of (u.track * u.group * u.cylinder))
        × (u.last ≡ (u.size - 1) / (u.track * u.group * u.cylinder)) };

    ghost inverse = { λ u. record {
      number = u.number;
      track = u.track;
      group = u.group;
      cylinder = u.cylinder;
      size = u.size;
      id = u.id;
      media = u.media;
      serial = u.serial;
      reciprocal = reciprocal_of (cylinder_blocks u);
      last = last_cylinder u;
    } };
}

/// The least unit: number 0, one block, and identifiers of zero. It fills the places of a list that isn't
/// full.
impl Default for Unit {
    fn default() -> Self
        ensures { result ≡ shape 0 1 1 1 1 0 0 0 }
    {
        Unit {
            number: 0,
            track: 1,
            group: 1,
            cylinder: 1,
            size: 1,
            id: 0,
            media: 0,
            serial: 0,
            reciprocal: u64::MAX,
            last: 0,
        }
    }
}

/// Which size of a unit is zero: the first that is, in this order (profile).
#[derive(Clone, Copy)]
pub enum UnitFault {
    /// A track of no blocks.
    ZeroTrack,
    /// A group of no tracks.
    ZeroGroup,
    /// A cylinder of no groups.
    ZeroCylinder,
    /// A unit of no blocks.
    ZeroSize,
}

impl Unit {
    /// A unit of this number, with a track of `track` blocks, a group of `group` tracks, a cylinder of
    /// `cylinder` groups and `size` blocks in all. The identifiers of the unit, of its media and of its
    /// volume are told to the host.
    ///
    /// # Errors
    ///
    /// The first that is 0: `ZeroTrack`, `ZeroGroup`, `ZeroCylinder`, `ZeroSize`.
    pub fn new(
        number: u16,
        track: u16,
        group: u16,
        cylinder: u16,
        size: u32,
        id: u64,
        media: u32,
        serial: u32,
    ) -> Result<Unit, UnitFault>
        ensures track { (result ≡ Err UnitFault.ZeroTrack) ↔ (track ≡ 0) }
        ensures group { (result ≡ Err UnitFault.ZeroGroup) ↔ ((track ≢ 0) × (group ≡ 0)) }
        ensures cylinder { (result ≡ Err UnitFault.ZeroCylinder) ↔ ((track ≢ 0) × (group ≢ 0) × (cylinder ≡ 0)) }
        ensures size { (result ≡ Err UnitFault.ZeroSize)
            ↔ ((track ≢ 0) × (group ≢ 0) × (cylinder ≢ 0) × (size ≡ 0)) }
        ensures unit { IfOk result (λ u. u ≡ shape number track group cylinder size id media serial) }
    {
        if track == 0 {
            return Err(UnitFault::ZeroTrack);
        }
        if group == 0 {
            return Err(UnitFault::ZeroGroup);
        }
        if cylinder == 0 {
            return Err(UnitFault::ZeroCylinder);
        }
        if size == 0 {
            return Err(UnitFault::ZeroSize);
        }
        let blocks = cylinder_blocks(track, group, cylinder);
        let reciprocal = u64::MAX / blocks;
        Ok(Unit {
            number,
            track,
            group,
            cylinder,
            size,
            id,
            media,
            serial,
            reciprocal,
            last: high_half(size - 1, reciprocal),
        })
    }

    /// The number of the unit.
    pub fn number(&self) -> u16
        ensures { result ≡ self.now.number }
    {
        self.number
    }

    /// The blocks of a track, at least one.
    pub fn track(&self) -> u16
        ensures value { result ≡ self.now.track }
        ensures some { 0 < result }
    {
        self.track
    }

    /// The tracks of a group, at least one.
    pub fn group(&self) -> u16
        ensures value { result ≡ self.now.group }
        ensures some { 0 < result }
    {
        self.group
    }

    /// The groups of a cylinder, at least one.
    pub fn cylinder_size(&self) -> u16
        ensures value { result ≡ self.now.cylinder }
        ensures some { 0 < result }
    {
        self.cylinder
    }

    /// The blocks of the unit, at least one.
    pub fn size(&self) -> u32
        ensures value { result ≡ self.now.size }
        ensures some { 0 < result }
    {
        self.size
    }

    /// The identifier of the unit.
    pub fn id(&self) -> u64
        ensures { result ≡ self.now.id }
    {
        self.id
    }

    /// The identifier of the media.
    pub fn media(&self) -> u32
        ensures { result ≡ self.now.media }
    {
        self.media
    }

    /// The serial number of the volume.
    pub fn serial(&self) -> u32
        ensures { result ≡ self.now.serial }
    {
        self.serial
    }

    /// The cylinder of a block, from 0 on: the whole cylinders before it (profile). The block need not be one of
    /// the unit.
    #[tactic(auto, using(crate::proofs::Cylinders::cylinder_within, crate::proofs::Reciprocals::divides))]
    pub fn cylinder(&self, lbn: u32) -> u32
        ensures value { result ≡ cylinder_of self.now lbn }
        ensures within { lbn < self.now.size → result ≤ last_cylinder self.now }
    {
        high_half(lbn, self.reciprocal)
    }

    /// The cylinder of the unit's last block.
    pub fn last_cylinder(&self) -> u32
        ensures { result ≡ last_cylinder self.now }
    {
        self.last
    }

    /// How many steps a transfer of so many bytes from block `lbn` on takes, at most `longest`: one for each
    /// block of 512 bytes, and at least one (profile).
    ///
    /// # Errors
    ///
    /// The status that refuses it: `INVALID_BLOCK` if the unit has no such block, else `INVALID_BYTE_COUNT` if the
    /// transfer reaches past the unit or takes more steps.
    pub fn check(&self, lbn: u32, bytes: u32, longest: u32) -> Result<u32, u16>
        ensures weight { result ≡ weighed (range_fault longest bytes lbn self.now) (weight bytes) }
        ensures small { IfOk result (λ weight. lbn + weight ≤ 2 ^ 32) }
    {
        if lbn >= self.size() {
            return Err(INVALID_BLOCK);
        }
        let count = blocks(bytes);
        let weight = count.max(1);
        if count > self.size() - lbn || weight > longest {
            return Err(INVALID_BYTE_COUNT);
        }
        Ok(weight)
    }
}

// The product of three sizes may need 48 bits.
fn cylinder_blocks(track: u16, group: u16, cylinder: u16) -> u64
    ensures value { result ≡ track * group * cylinder }
    ensures some { 0 < track → 0 < group → 0 < cylinder → 0 < result }
{
    u64::from(track) * u64::from(group) * u64::from(cylinder)
}

// The high half of the product with the next of a reciprocal: the number divided by that which the reciprocal is of.
#[tactic(auto, using(crate::proofs::Reciprocals::divides))]
fn high_half(lbn: u32, reciprocal: u64) -> u32
    ensures { (blocks : ℕ) → 0 < blocks → reciprocal ≡ reciprocal_of blocks → result ≡ lbn / blocks }
{
    ((u128::from(lbn) * (u128::from(reciprocal) + 1)) >> 64) as u32
}

// The blocks that so many bytes take.
fn blocks(bytes: u32) -> u32
    ensures { result ≡ blocks bytes }
{
    bytes.div_ceil(BLOCK_BYTES)
}

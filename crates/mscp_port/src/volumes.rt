// The volumes that lie in the units, and how they change.
//
// The port alone knows whether a unit is online with its volume: to the controller it is online since its first
// ONLINE. If a volume changes, a block in hand is taken in hand again, and a report of it that comes before that
// counts for nothing. A transfer that waits while its volume is exchanged moves nothing more. It ends Unit-Offline, or
// with a drive's error if an ONLINE before it brought the unit online with the new volume: a host isn't told that such
// a unit is offline.

ghost use Rattle.std.specs.Prelude.{◌≡◌, EachIndex};
ghost use Rattle.mscp_port.specs.Common.{volume_at, volume_changed, volume_put, volume_reset};

/// What is put into a unit.
#[derive(Clone, Copy, Default)]
pub struct Medium {
    /// Its blocks: 1 to those of the unit.
    pub size: u32,
    /// The type of its media, as the host is told it.
    pub media: u32,
    /// Nothing may be written on it.
    pub is_protected: bool,
    /// It can be taken out.
    pub is_removable: bool,
}

/// Why a volume isn't put into a unit. Nothing is changed.
#[derive(Clone, Copy)]
pub enum VolumeFault {
    /// No unit has this number.
    NoUnit,
    /// It has no blocks, or more than the unit.
    Size,
}

/// A unit's volume, and what its host has made of it.
#[derive(Clone, Copy, Default)]
pub struct Volume {
    pub is_there: bool,
    /// Nothing may be written on it.
    pub is_protected: bool,
    /// Its host said that nothing may be written on it.
    pub is_protected_by_host: bool,
    /// It can be taken out, or the one that was there last could.
    pub is_removable: bool,
    /// How often it changed.
    pub changes: u32,
    /// Its blocks, and the type of its media.
    pub size: u32,
    pub media: u32,
    /// The unit is online with it.
    pub is_mounted: bool,
    /// It came, and the host is to hear of it.
    pub is_news: bool,
}

impl Volume {
    /// Another volume came.
    pub(crate) fn put(&mut self, medium: Medium)
        ensures { self.new ≡ volume_put medium self.old }
    {
        self.change(true);
        self.size = medium.size;
        self.media = medium.media;
        self.is_protected = medium.is_protected;
        self.is_removable = medium.is_removable;
    }

    /// Another volume came, or the volume went.
    pub(crate) fn change(&mut self, is_there: bool)
        ensures { self.new ≡ volume_changed is_there self.old }
    {
        self.is_there = is_there;
        self.is_protected = false;
        self.is_protected_by_host = false;
        self.is_mounted = false;
        self.changes = self.changes.wrapping_add(1);
        self.is_news = is_there;
    }

    /// What a reset of the port leaves of it.
    pub(crate) fn reset(&mut self)
        ensures { self.new ≡ volume_reset self.old }
    {
        self.is_mounted = false;
        self.is_protected_by_host = false;
        self.is_news = false;
    }
}

/// What a reset of the port leaves of the volumes.
pub(crate) fn reset_all(volumes: &mut [Volume])
    ensures { EachIndex volumes.old (λ place. volume_at volumes.new place
        ≡ volume_reset (volume_at volumes.old place)) }
{
    for volume in volumes.iter_mut() {
        volume.reset();
    }
}

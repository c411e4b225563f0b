// What a port is, for whoever holds it. Nothing here changes anything.

ghost use Rattle.std.specs.Prelude.{◌≡◌, ◌≢◌, ◌↔◌, true, None, IsTrue};
ghost use Rattle.mscp_port.specs.Common.{serial_begun, volume_of};

use crate::hardware::Hardware;
use crate::port::Port;
use crate::stage::Stage;
use crate::volumes::Volume;
use mscp_controller::Controller;
use mscp_queue::Picker;

impl<K: Picker> Port<K> {
    /// The controller that it is over: its settings, the commands that wait, their figures and what keeps them back,
    /// and the step that is begun, which is that of the block in hand.
    pub fn controller(&self) -> &Controller<K>
        ensures { result.now ≡ self.now.controller }
    {
        &self.controller
    }

    /// What kind of port it is: the bus of its host, and what it tells that of itself.
    pub fn hardware(&self) -> Hardware
        ensures { result ≡ self.now.hardware }
    {
        self.hardware
    }

    /// How far it has come since its host wrote IP.
    pub fn stage(&self) -> Stage
        ensures { result ≡ self.now.stage }
    {
        self.stage
    }

    /// The volume of a unit, if there is such a unit.
    pub fn volume(&self, unit: u16) -> Option<Volume>
        ensures { result ≡ volume_of self.now unit }
    {
        let place = self.place_of(unit)?;
        Some(self.volumes[place])
    }

    /// The serial of the step that is begun, if one is: while `next` wants a block it is that block's. Each step that
    /// is begun gets the next of a count, which a reset leaves. A block that was put aside, or whose unit's volume
    /// changed, keeps its serial as long as its step is begun.
    pub fn serial(&self) -> Option<u64>
        ensures { result ≡ serial_begun self.now }
    {
        self.controller.begun().map(|_| self.serial)
    }

    /// Whether something is to go out, and the next slot of the ring of responses was the host's. A port that rests
    /// then is to look again, since its host doesn't say that it has given a slot back.
    pub fn is_held_back(&self) -> bool
        ensures { IsTrue result ↔ ((self.now.outgoing ≢ None) × (self.now.is_full ≡ true)) }
    {
        self.outgoing.is_some() && self.is_full
    }
}

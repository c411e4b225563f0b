// A controller in a program of one's own. docs/USING.md has parts of this code and of that of emulator.rt.

mod emulator;
mod picking;
mod runs;
mod worst;

use arrayvec::ArrayVec;
use mscp_controller::{
    Block, Config, Connection, Controller, FaultStatus, NotBegun, Oldest, Picker, Report,
    SendFault, Sent, Sweep, Upcoming, View,
};
use mscp_drive::{Unit, Units};
use mscp_packet::{MoveKind, Order};
use std::process::Abort;

/// A controller of one unit, with 1000 blocks of 512 bytes, 20 of them a cylinder.
fn controller<K: Picker>(rt: &impl Abort, picker: K) -> Controller<K> {
    let unit = Unit::new(0, 10, 2, 1, 1000, 1, 0, 1)
        .ok()
        .expect(rt, "no size is zero");
    let units = Units::new(&[unit])
        .ok()
        .expect(rt, "1 to 16 units, numbers that rise");
    let config = Config::new(4, 0, 16, 8, 60, 1, units)
        .ok()
        .expect(rt, "limits that a controller can keep");
    Controller::new(config, picker)
}

/// Picks the newest command that may start.
#[derive(Drop)]
pub struct Newest;

impl Picker for Newest {
    ghost use Rattle.std.specs.Prelude.{◌≡◌, ◌+◌, length};

    ghost picks = { λ _ view place. place + 1 ≡ length view };

    fn pick(&self, view: &View) -> usize {
        view.choices().len().saturating_sub(1)
    }
}

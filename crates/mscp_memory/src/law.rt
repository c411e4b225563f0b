// What the marks of handles are.

ghost use Rattle.std.specs.Prelude.{◌≢◌};
ghost use Rattle.mscp_memory.specs.declared.controller.marks.TheConstants as controllers;
ghost use Rattle.mscp_memory.specs.declared.driver.marks.TheConstants as drivers;
ghost use Rattle.mscp_memory.specs.declared.host.marks.TheConstants as hosts;
ghost use Rattle.mscp_memory.specs.declared.port.marks.TheConstants as ports;

/// The eight marks differ: none that says one thing of its memory says another.
pub fn marks_differ()
    ensures controller { controllers.ROOM ≢ controllers.MADE }
    ensures host { hosts.ROOM ≢ hosts.MADE }
    ensures port { ports.ROOM ≢ ports.MADE }
    ensures rooms { (controllers.ROOM ≢ hosts.ROOM) × (controllers.ROOM ≢ ports.ROOM) × (hosts.ROOM ≢ ports.ROOM) }
    ensures made { (controllers.MADE ≢ hosts.MADE) × (controllers.MADE ≢ ports.MADE) × (hosts.MADE ≢ ports.MADE) }
    ensures room_of_a_controller { (controllers.ROOM ≢ hosts.MADE) × (controllers.ROOM ≢ ports.MADE) }
    ensures room_of_a_host { (hosts.ROOM ≢ controllers.MADE) × (hosts.ROOM ≢ ports.MADE) }
    ensures room_of_a_port { (ports.ROOM ≢ controllers.MADE) × (ports.ROOM ≢ hosts.MADE) }
    ensures driver { drivers.ROOM ≢ drivers.MADE }
    ensures rooms_beside_a_driver { (drivers.ROOM ≢ controllers.ROOM) × (drivers.ROOM ≢ hosts.ROOM)
        × (drivers.ROOM ≢ ports.ROOM) }
    ensures made_beside_a_driver { (drivers.MADE ≢ controllers.MADE) × (drivers.MADE ≢ hosts.MADE)
        × (drivers.MADE ≢ ports.MADE) }
    ensures room_of_a_driver { (drivers.ROOM ≢ controllers.MADE) × (drivers.ROOM ≢ hosts.MADE)
        × (drivers.ROOM ≢ ports.MADE) }
    ensures rooms_of_others { (controllers.ROOM ≢ drivers.MADE) × (hosts.ROOM ≢ drivers.MADE)
        × (ports.ROOM ≢ drivers.MADE) }
{}

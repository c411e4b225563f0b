// The ends of commands that are answered when they come.

ghost use Rattle.std.specs.Prelude.{◌≡◌};
ghost use Rattle.mscp_controller.specs.Common.{success, end_with, controller_body, refused_end, unit_body, unit_status};

use mscp_drive::{Config, Unit};
use mscp_packet::status::{SUCCESS, UNIT_AVAILABLE};
use mscp_packet::{Command, End, EndBody};
use mscp_queue::{end_with, endcode_of};

/// The end of a command that is refused with this status.
pub(crate) fn refused_end(command: &Command, status: u16) -> End
    ensures { result ≡ refused_end command.now status }
{
    end_with(command, status, EndBody::refused(endcode_of(command)))
}

/// The end of a GET UNIT STATUS about this unit, which may be online.
pub(crate) fn unit_status_end(command: &Command, unit: &Unit, online: bool) -> End
    ensures { result ≡ end_with command.now (unit_status online) (unit_body unit.now) }
{
    let status = if online { SUCCESS } else { UNIT_AVAILABLE };
    let body = EndBody::UnitStatus {
        id: unit.id(),
        media: unit.media(),
        track: unit.track(),
        group: unit.group(),
        cylinder: unit.cylinder_size(),
    };
    end_with(command, status, body)
}

/// The end of a SET CONTROLLER CHARACTERISTICS of this controller.
pub(crate) fn controller_end(command: &Command, config: &Config) -> End
    ensures { result ≡ end_with command.now success (controller_body config.now) }
{
    let body = EndBody::Controller {
        timeout: config.timeout(),
        id: config.id(),
    };
    end_with(command, SUCCESS, body)
}

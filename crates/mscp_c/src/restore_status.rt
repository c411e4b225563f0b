// What a restore answers: why bytes are no saved controller, host or port. They stand apart from the other statuses, as
// three crates have a fault of their own for them.

ghost use Rattle.std.specs.Prelude.{◌≡◌};
ghost use Rattle.mscp_c.specs.Common.{host_restore_code, port_restore_code, restore_code};

use crate::status::{
    SAVED_BEGUN, SAVED_COMMAND, SAVED_CREDITS, SAVED_DOUBLED, SAVED_ENDS, SAVED_FORM, SAVED_HEADS,
    SAVED_LENGTH, SAVED_LIMITS, SAVED_MAGIC, SAVED_PASSED, SAVED_PICKER, SAVED_POLL, SAVED_SIZE,
    SAVED_STEPS, SAVED_UNITS, SAVED_VERSION,
};
use mscp_host::RestoreFault as HostRestoreFault;
use mscp_port::RestoreFault as PortRestoreFault;
use mscp_saved::RestoreFault;

/// The status of bytes that are no saved controller.
pub(crate) fn restore_code(fault: RestoreFault) -> i32
    ensures { result ≡ restore_code fault }
{
    match fault {
        RestoreFault::Length => SAVED_LENGTH,
        RestoreFault::Magic => SAVED_MAGIC,
        RestoreFault::Version => SAVED_VERSION,
        RestoreFault::Units => SAVED_UNITS,
        RestoreFault::Limits => SAVED_LIMITS,
        RestoreFault::Heads => SAVED_HEADS,
        RestoreFault::Credits => SAVED_CREDITS,
        RestoreFault::Command => SAVED_COMMAND,
        RestoreFault::Doubled => SAVED_DOUBLED,
        RestoreFault::Steps => SAVED_STEPS,
        RestoreFault::Passed => SAVED_PASSED,
        RestoreFault::Ends => SAVED_ENDS,
        RestoreFault::Begun => SAVED_BEGUN,
        RestoreFault::Picker => SAVED_PICKER,
        RestoreFault::Form => SAVED_FORM,
    }
}

/// The status of bytes that are no saved host.
pub(crate) fn host_restore_code(fault: HostRestoreFault) -> i32
    ensures { result ≡ host_restore_code fault }
{
    match fault {
        HostRestoreFault::Length => SAVED_LENGTH,
        HostRestoreFault::Magic => SAVED_MAGIC,
        HostRestoreFault::Version => SAVED_VERSION,
        HostRestoreFault::Credits => SAVED_LIMITS,
        HostRestoreFault::Outstanding => SAVED_CREDITS,
        HostRestoreFault::Doubled => SAVED_DOUBLED,
        HostRestoreFault::Poll => SAVED_POLL,
        HostRestoreFault::Form => SAVED_FORM,
    }
}

/// The status of bytes that are no saved port.
pub(crate) fn port_restore_code(fault: PortRestoreFault) -> i32
    ensures { result ≡ port_restore_code fault }
{
    match fault {
        PortRestoreFault::Length => SAVED_LENGTH,
        PortRestoreFault::Magic => SAVED_MAGIC,
        PortRestoreFault::Version => SAVED_VERSION,
        PortRestoreFault::Size => SAVED_SIZE,
        PortRestoreFault::Controller(fault) => restore_code(fault),
        PortRestoreFault::Form => SAVED_FORM,
    }
}

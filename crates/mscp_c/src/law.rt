// What is promised of who calls from C.

ghost use Rattle.std.specs.Prelude.{◌≡◌, pos, true};
ghost use Rattle.mscp_c.specs.Common.{IsValid, DriverHandlesKeepTheirHistory, HandlesKeepThePromise, HostHandlesKeepTheirHistory, PortHandlesKeepThePromise, minus};
ghost use Rattle.mscp_memory.specs.ControllerHandles.{is_made};

use crate::status::*;
use mscp_controller::controllers_keep_the_promise;
use mscp_host::{hosts_keep_their_history, port_hosts_keep_count, port_hosts_keep_their_history};
use mscp_memory::Policy;
use mscp_memory::controller::{Handle, lend};

/// The settings of a controller in a handle's memory are valid, whatever was called.
pub fn made_handles_are_valid(handle: &mut Handle)
    requires { is_made handle.old ≡ true }
    ensures valid { IsValid handle.old.held.settings }
    ensures same { handle.new ≡ handle.old }
{
    // A getter of the settings tells that they are valid.
    let _ = lend(handle).config().credits();
}

/// Calls on a handle, one after the other from an init or a reset on, are calls of a controller, with all that is
/// promised of one that somebody holds: the messages, takes, looks, begins, finishes and steps are those calls, in
/// their order, and statuses and out-structs tell what the controller answers. Figures, and of each connection the
/// balance, how many commands wait and how many ends weren't taken, who keeps a command back, and who is online, are
/// those of the history so far.
pub fn handles_keep_the_promise(policy: Policy)
    ensures { HandlesKeepThePromise policy }
{
    controllers_keep_the_promise(&policy);
}

/// Calls on a port's handle, one after the other, each answered as the relation of such calls says, are calls of a
/// port, also where it was saved and restored in between: each law of ports is about them. Statuses and out-structs
/// tell what the port answers, and what looks tell is so of the port to which the calls before led.
pub fn port_handles_keep_the_promise()
    ensures { PortHandlesKeepThePromise }
{}

/// Calls on a host's handle, one after the other from an init on, are the history of a host, with all that is promised
/// of that, also where it was saved and restored in between: each submission, poll and end that was received is the
/// next moment of it, and statuses and out-structs tell what the host answers. Bytes that are no message change
/// nothing.
pub fn host_handles_keep_their_history()
    ensures { HostHandlesKeepTheirHistory }
{
    hosts_keep_their_history();
}

/// The same of calls on a driver's handle, which are the history of a host of a port. What looks and ticks tell is so
/// of what the host keeps then.
pub fn driver_handles_keep_their_history()
    ensures { DriverHandlesKeepTheirHistory }
{
    port_hosts_keep_their_history();
    port_hosts_keep_count();
}

/// Each status is the number that the header has under its name.
pub fn statuses_are_these()
    ensures nothing { NOTHING ≡ pos 0 }
    ensures done { DONE ≡ pos 1 }
    ensures queued { QUEUED ≡ pos 2 }
    ensures answered { ANSWERED ≡ pos 3 }
    ensures busy { BUSY ≡ pos 4 }
    ensures ended { ENDED ≡ pos 5 }
    ensures first { FIRST ≡ pos 6 }
    ensures progress { PROGRESS ≡ pos 7 }
    ensures late { LATE ≡ pos 8 }
    ensures no_progress { NO_PROGRESS ≡ pos 9 }
    ensures lost { LOST ≡ pos 10 }
    ensures moved_too_much { MOVED_TOO_MUCH ≡ pos 11 }
    ensures refused { REFUSED ≡ pos 12 }
    ensures now_available { NOW_AVAILABLE ≡ pos 13 }
    ensures attention { ATTENTION ≡ pos 14 }
    ensures logged { LOGGED ≡ pos 15 }
    ensures credits { CREDITS ≡ pos 16 }
    ensures poll { POLL ≡ pos 17 }
    ensures silent { SILENT ≡ pos 18 }
    ensures short { SHORT ≡ minus 1 }
    ensures long { LONG ≡ minus 2 }
    ensures no_credit { NO_CREDIT ≡ minus 3 }
    ensures last_credit { LAST_CREDIT ≡ minus 4 }
    ensures doubled { DOUBLED ≡ minus 5 }
    ensures not_begun { NOT_BEGUN ≡ minus 6 }
    ensures bad_status { BAD_STATUS ≡ minus 7 }
    ensures unreadable { UNREADABLE ≡ minus 8 }
    ensures unknown { UNKNOWN ≡ minus 9 }
    ensures not_made { NOT_MADE ≡ minus 10 }
    ensures made { MADE ≡ minus 11 }
    ensures no_handle { NO_HANDLE ≡ minus 12 }
    ensures no_memory { NO_MEMORY ≡ minus 13 }
    ensures misaligned { MISALIGNED ≡ minus 14 }
    ensures small { SMALL ≡ minus 15 }
    ensures cut { CUT ≡ minus 16 }
    ensures other_connection { OTHER_CONNECTION ≡ minus 17 }
    ensures bad_kind { BAD_KIND ≡ minus 18 }
    ensures bad_picker { BAD_PICKER ≡ minus 20 }
    ensures zero_track { ZERO_TRACK ≡ minus 21 }
    ensures zero_group { ZERO_GROUP ≡ minus 22 }
    ensures zero_cylinder { ZERO_CYLINDER ≡ minus 23 }
    ensures zero_size { ZERO_SIZE ≡ minus 24 }
    ensures many_units { MANY_UNITS ≡ minus 25 }
    ensures units_fall { UNITS_FALL ≡ minus 26 }
    ensures no_units { NO_UNITS ≡ minus 27 }
    ensures bad_credits { BAD_CREDITS ≡ minus 28 }
    ensures bad_longest { BAD_LONGEST ≡ minus 29 }
    ensures bad_timeout { BAD_TIMEOUT ≡ minus 30 }
    ensures bad_bound { BAD_BOUND ≡ minus 31 }
    ensures bad_connection { BAD_CONNECTION ≡ minus 32 }
    ensures bad_bus { BAD_BUS ≡ minus 33 }
    ensures bad_host_credits { BAD_HOST_CREDITS ≡ minus 34 }
    ensures bad_outcome { BAD_OUTCOME ≡ minus 35 }
    ensures unasked { UNASKED ≡ minus 36 }
    ensures unknown_unit { UNKNOWN_UNIT ≡ minus 37 }
    ensures bad_size { BAD_SIZE ≡ minus 38 }
    ensures saved_length { SAVED_LENGTH ≡ minus 40 }
    ensures saved_magic { SAVED_MAGIC ≡ minus 41 }
    ensures saved_version { SAVED_VERSION ≡ minus 42 }
    ensures saved_limits { SAVED_LIMITS ≡ minus 44 }
    ensures saved_units { SAVED_UNITS ≡ minus 43 }
    ensures saved_heads { SAVED_HEADS ≡ minus 45 }
    ensures saved_credits { SAVED_CREDITS ≡ minus 46 }
    ensures saved_command { SAVED_COMMAND ≡ minus 47 }
    ensures saved_doubled { SAVED_DOUBLED ≡ minus 48 }
    ensures saved_steps { SAVED_STEPS ≡ minus 49 }
    ensures saved_passed { SAVED_PASSED ≡ minus 50 }
    ensures saved_ends { SAVED_ENDS ≡ minus 51 }
    ensures saved_begun { SAVED_BEGUN ≡ minus 52 }
    ensures saved_picker { SAVED_PICKER ≡ minus 53 }
    ensures saved_form { SAVED_FORM ≡ minus 54 }
    ensures saved_poll { SAVED_POLL ≡ minus 55 }
    ensures saved_size { SAVED_SIZE ≡ minus 56 }
    ensures script_size { SCRIPT_SIZE ≡ minus 60 }
    ensures script_lines { SCRIPT_LINES ≡ minus 61 }
    ensures script_long { SCRIPT_LONG ≡ minus 62 }
    ensures script_byte { SCRIPT_BYTE ≡ minus 63 }
    ensures script_word { SCRIPT_WORD ≡ minus 64 }
    ensures script_count { SCRIPT_COUNT ≡ minus 65 }
    ensures script_number { SCRIPT_NUMBER ≡ minus 66 }
    ensures script_hex { SCRIPT_HEX ≡ minus 67 }
    ensures script_status { SCRIPT_STATUS ≡ minus 68 }
    ensures script_unit { SCRIPT_UNIT ≡ minus 69 }
    ensures script_config { SCRIPT_CONFIG ≡ minus 70 }
    ensures script_header { SCRIPT_HEADER ≡ minus 71 }
    ensures script_events { SCRIPT_EVENTS ≡ minus 72 }
    ensures word_hex { WORD_HEX ≡ minus 73 }
    ensures word_short { WORD_SHORT ≡ minus 74 }
    ensures word_long { WORD_LONG ≡ minus 75 }
    ensures word_code { WORD_CODE ≡ minus 76 }
    ensures word_length { WORD_LENGTH ≡ minus 77 }
{}

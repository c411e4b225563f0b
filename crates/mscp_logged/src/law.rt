// What is true of all that a port's log shows.

ghost use Rattle.mscp_logged.specs.Rules.{PortsAnswerWhatIsOutstanding, PortsAreRight, PortsSendLongEnds};

use mscp_controller::controllers_keep_the_promise;
use mscp_ported::{
    ports_end_what_they_took, ports_hold_what_is_awaited, ports_lower_figures, ports_pass_ends_on,
    ports_serve_who_asks_for_blocks, ports_tell_in_order,
};
use mscp_queue::Picker;

/// A port was made over a controller that had nothing of its host's. Whoever calls the port tells of actions only after
/// they were wanted, and what it reads are bytes. Then each end of the disk's that goes over the wire is as long as its
/// endcode asks: none breaks the rule `Length` of `mscp_wire`.
pub fn ports_send_long_ends<K: Picker>(picker: &K)
    ensures { PortsSendLongEnds K.picks picker.now }
{
    ports_end_what_they_took(picker);
    ports_tell_in_order(picker);
}

/// Of such a port: while its host's messages are right, each end answers a command that is outstanding: none breaks the
/// rule `Outstanding`.
pub fn ports_answer_what_is_outstanding<K: Picker>(picker: &K)
    ensures { PortsAnswerWhatIsOutstanding K.picks picker.now }
{
    ports_end_what_they_took(picker);
    ports_tell_in_order(picker);
}

/// Of such a port, whose units have blocks: while its host's messages are right, no moment of the log breaks a rule of
/// `mscp_wire`. `Status`, `Aborted`, `Count` and `State` are kept if what the port is told of blocks that failed has a
/// code from Media Format Error to Drive Error, as what a drive or a medium has; and `Figure` if a step is told between
/// any two polls of one command, as the controller takes them, or if whoever calls the port asks for blocks each time
/// that it asks what is wanted.
pub fn ports_are_right<K: Picker>(picker: &K)
    ensures { PortsAreRight K.picks picker.now }
{
    controllers_keep_the_promise(picker);
    ports_end_what_they_took(picker);
    ports_tell_in_order(picker);
    ports_hold_what_is_awaited(picker);
    ports_pass_ends_on(picker);
    ports_lower_figures(picker);
    ports_serve_who_asks_for_blocks(picker);
}

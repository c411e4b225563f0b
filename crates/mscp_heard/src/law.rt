// What is true of each host of a port.

ghost use Rattle.mscp_heard.specs.Hearing.{HostsHearNoReset, HostsHearTheirOwnEnds, HostsRefuseNothing, ServedHostsHearNoReset};

use mscp_host::port_hosts_keep_their_history;
use mscp_ported::{
    ports_answer_as_they_may, ports_end_by_opcode, ports_end_what_they_took, ports_hear_in_order,
    ports_hold_what_is_awaited, ports_lower_figures, ports_open_what_they_accept,
    ports_pass_ends_on, ports_serve_who_asks_for_blocks, ports_tell_in_order,
};
use mscp_queue::Picker;

/// A host and a port, whose controller had nothing of the host's as the port was made. Whoever calls the port tells of
/// actions only after they were wanted; the port reads the messages that the host sent, in order, and the host hears
/// the packets that the port told, in order; and if IP is written the host is a new one. Then each end that the host
/// hears has the number of a command that it sent, and whose end it hasn't heard; and no end counts more bytes than its
/// command asked for: the host never says `MovedTooMuch`. What it refuses is such an end, as `Unknown`: no message is
/// cut, unreadable, or of another connection or type.
pub fn hosts_hear_their_own_ends<K: Picker>(picker: &K)
    ensures { HostsHearTheirOwnEnds K.picks picker.now }
{
    ports_answer_as_they_may(picker);
    ports_end_what_they_took(picker);
    ports_hear_in_order(picker);
    ports_open_what_they_accept(picker);
    ports_tell_in_order(picker);
    port_hosts_keep_their_history();
}

/// Such a host and port, whose units have blocks. If each text that the port reads is of its message by number, opcode
/// and first parameter, and has all its bytes, the host refuses nothing that it hears.
pub fn hosts_refuse_nothing<K: Picker>(picker: &K)
    ensures { HostsRefuseNothing K.picks picker.now }
{
    ports_answer_as_they_may(picker);
    ports_end_by_opcode(picker);
    ports_end_what_they_took(picker);
    ports_hear_in_order(picker);
    ports_open_what_they_accept(picker);
    ports_tell_in_order(picker);
    port_hosts_keep_their_history();
}

/// Such a host and port. If between any two polls about one command, as the port's controller took them, a step was
/// told, or the command waits no more, the host says neither `Reset`, of a figure that isn't less than the one before,
/// nor `Lost`, of a figure of 0. A controller that serves nothing between two polls has no lower figure to tell: that a
/// host takes for a reset.
pub fn hosts_hear_no_reset<K: Picker>(picker: &K)
    ensures { HostsHearNoReset K.picks picker.now }
{
    ports_answer_as_they_may(picker);
    ports_end_by_opcode(picker);
    ports_end_what_they_took(picker);
    ports_hear_in_order(picker);
    ports_hold_what_is_awaited(picker);
    ports_lower_figures(picker);
    ports_open_what_they_accept(picker);
    ports_pass_ends_on(picker);
    ports_tell_in_order(picker);
    port_hosts_keep_their_history();
}

/// Such a host and port. If whoever calls the port asks for blocks each time that it asks what is wanted, the host says
/// neither `Reset` nor `Lost`, whenever it polls and whatever comes of the actions.
pub fn served_hosts_hear_no_reset<K: Picker>(picker: &K)
    ensures { ServedHostsHearNoReset K.picks picker.now }
{
    hosts_hear_no_reset(picker);
    ports_serve_who_asks_for_blocks(picker);
}

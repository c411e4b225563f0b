// What is true of every host of a port.

ghost use Rattle.mscp_host.specs.PortLaw.{PortHostsKeepCount, PortHostsKeepTheirHistory};
ghost use Rattle.mscp_host.specs.Watching.{WatchesArePatient};

/// Of every host of a port, whatever it kept before and whatever the port sends: its free credits are those from before
/// and those that envelopes told, less one for each command that was sent, unless more were told than are kept; they
/// are never more. And what is outstanding is what was so before and what was sent, less one for each end that it said.
pub fn port_hosts_keep_count()
    ensures { PortHostsKeepCount }
{}

/// Of every watch, whatever it saw and heard before: it says Poll only where something waits and no poll is in flight,
/// and a whole timeout of ticks has gone by without a poll; and Reset only where an answer is owed, and one was owed at
/// each of a whole timeout of ticks before this one, and none has come since.
pub fn watches_are_patient()
    ensures { WatchesArePatient }
{}

/// Of every host of a port from its beginning on, whatever the port sends and however often it is saved and restored:
/// what it keeps and says is what `hosts_keep_their_history` promises of a host of 64 credits that sent the same and
/// heard the same ends; and it lists the commands whose ends it hasn't heard, in the order in which they were sent,
/// each with the bytes that it asks for.
pub fn port_hosts_keep_their_history()
    ensures { PortHostsKeepTheirHistory }
{}

// What is true of every host.

ghost use Rattle.mscp_host.specs.Law.{HostsKeepTheirHistory};

/// What a host keeps, and what it says of each end, follows from the list of its calls and their answers, whoever sent
/// the bytes that it received. A command is the call in which it was sent, so a number that is used again names another
/// command. Each end that isn't refused is that of an outstanding command, and no two of these have one number. A poll
/// is sent where none is in flight, about the oldest outstanding command that isn't answered when it arrives. `Reset`
/// is said exactly where an answer about a command that is still outstanding is no lower than the last one about that
/// command, and `Lost` exactly where such an answer is 0, first or below the last.
pub fn hosts_keep_their_history()
    ensures { HostsKeepTheirHistory }
{}

// What is true of all that a legal trace shows on the wire.

ghost use Rattle.mscp_shown.specs.Keeping.{LegalTracesAreRight};

/// All that a legal trace shows on the wire is right by the rules of the judge of the wire, whoever answered it: so
/// those rules aren't stricter than a legal trace. It is so if the credits that are told are no fewer than each
/// connection has, each message is of bytes, each bad block has a status that a drive or a medium may have, and a step
/// comes between two polls about a command that waits at both.
pub fn legal_traces_are_right()
    ensures { LegalTracesAreRight }
{}

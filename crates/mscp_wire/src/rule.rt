// The rules that a moment may break.

/// A rule of the manual, in the order in which they are asked. The first three are a host's, the others the
/// controller's.
#[derive(Clone, Copy)]
pub enum Rule {
    /// A message has 12 bytes at least.
    Message,
    /// No command that is outstanding has the reference number of a new one.
    Number,
    /// A host has a credit for each message, the last one for a command that is answered when it arrives.
    Credits,
    /// An end is as long as its endcode asks.
    Length,
    /// An end answers a command that is outstanding.
    Outstanding,
    /// An end names the unit of its command, unless that asks for the next unit.
    Unit,
    /// An end has the endcode of its command.
    Endcode,
    /// A status is one that such a command may have.
    Status,
    /// A command is aborted only while an ABORT of it is outstanding that came after it.
    Aborted,
    /// Of a unit no command passes a sequential one, and that passes none.
    Order,
    /// An ABORT and a GET COMMAND STATUS succeed, unless they are refused for a modifier.
    Success,
    /// The end of an ABORT or of a GET COMMAND STATUS names the command that it is about.
    About,
    /// The figure of the oldest command falls from poll to poll. It is 0 if no such command is outstanding, and may be
    /// if its end is on the way.
    Figure,
    /// No more bytes are moved than were asked for, and all of them if the status is Success.
    Count,
    /// While a unit is online its identifier, media type and size stay as they are.
    Identity,
    /// A transfer and a GET UNIT STATUS succeed, and an ONLINE says that its unit was online already, only if the unit
    /// is online.
    State,
    /// The identifier of the controller stays as it is.
    Controller,
}

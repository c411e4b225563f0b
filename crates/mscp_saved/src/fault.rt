// Why bytes are no saved controller.

/// Why bytes are no saved controller: the first that holds, in this order.
#[derive(Clone, Copy)]
pub enum RestoreFault {
    /// Fewer bytes than a head has, or not as many as the head tells, or not as many as its parts take; or more parts
    /// than any controller has: 16 drives, and 64 waiting commands and untaken ends.
    Length,
    /// They don't begin with "MSCQ".
    Magic,
    /// A version of the format that isn't known.
    Version,
    /// No unit, or units whose numbers don't rise.
    Units,
    /// Credits, longest transfer, timeout or budget that no controller has.
    Limits,
    /// A head that isn't on a cylinder of its unit.
    Heads,
    /// More waiting commands and untaken ends than the credits of their connection cover, or no credit kept for
    /// commands that are answered when they come.
    Credits,
    /// A waiting command that would not wait: no sequential command or transfer, one to no unit, one that reaches past
    /// its unit, or one of more blocks than the longest transfer.
    Command,
    /// Two waiting commands of one connection and reference number.
    Doubled,
    /// A waiting command with no steps left, or more than one in service.
    Steps,
    /// A waiting command that was passed by more blocks than the budget, or by more than one that came earlier.
    Passed,
    /// An end without an endcode.
    Ends,
    /// What was begun doesn't wait, or may not be served.
    Begun,
    /// The number of another picker.
    Picker,
    /// What the bytes say can be, but is saved as other bytes: what is neither 0 nor 1 stands for whether something is
    /// so, a size of a unit is zero, or something is written where nothing is.
    Form,
}

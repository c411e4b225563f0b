// What of a log is wrong.

use crate::moment::Moment;
use crate::rule::Rule;
use crate::sent::Sent;
use crate::told::Seen;

/// The first moment of a log that isn't right.
#[derive(Drop)]
pub struct Wrong {
    /// The line that tells it, counted from 1.
    pub line: u32,
    /// The first rule that it breaks.
    pub rule: Rule,
    /// What happened.
    pub moment: Moment,
    /// The command that it sends, or the outstanding one that it answers, if there is one.
    pub command: Option<Sent>,
    /// The first earlier command that keeps that one back, if there is one.
    pub passed: Option<Sent>,
    /// What was told before of the unit that its end names, and of the controller.
    pub seen: Seen,
}

// The two connections of a controller.

/// One of the two connections of a controller. Each has a host of its own, which numbers its commands itself.
#[derive(Clone, Copy, Default, PartialEq, Eq)]
pub enum Connection {
    /// The connection that each controller has.
    #[default]
    First,
    /// The connection that a controller may have besides.
    Second,
}

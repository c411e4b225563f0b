// The bound of every command's wait is the least.

ghost use Rattle.mscp_control.specs.Longest.{TheBoundIsTheLeast};

/// The bound is the least. For each valid configuration where two or more commands may wait, and for each of its units
/// that has the blocks of the longest transfer, there is a legal trace in which a command of that unit waits as long as
/// the bound: it ends at the bound-th step after it. So its figure is the bound when it has come, falls by exactly one
/// at each step, and never else. `worst` writes such a trace out.
pub fn the_bound_is_the_least()
    ensures { TheBoundIsTheLeast }
{}

// Which picker serves.
//
// In C a picker is chosen by a number, and that chooses one of those that are proved. A picker that is written in C
// would have to be believed.

use mscp_controller::{Oldest, Picker, Sweep, View};

/// Which picker says what starts.
#[derive(Clone, Copy)]
pub enum Policy {
    /// The oldest command that may start.
    Oldest,
    /// The command whose start costs the least.
    Sweep,
}

impl Picker for Policy {
    ghost use Rattle.mscp_memory.specs.Policies.{PolicyPicks};

    ghost picks = { λ policy view place. PolicyPicks policy view place };

    fn pick(&self, view: &View) -> usize {
        match self {
            Policy::Oldest => Oldest.pick(view),
            Policy::Sweep => Sweep.pick(view),
        }
    }

    fn takes_first(&self, most: usize) -> bool {
        match self {
            Policy::Oldest => Oldest.takes_first(most),
            Policy::Sweep => Sweep.takes_first(most),
        }
    }

    fn takes_cheapest(&self) -> bool {
        match self {
            Policy::Oldest => false,
            Policy::Sweep => Sweep.takes_cheapest(),
        }
    }
}

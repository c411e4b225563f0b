// Who picks the command that starts.
//
// A picker sees what may start, and nothing else. So it can break neither a fence nor the budget, and has one law: it
// answers a place that its relation `picks` allows. The relation may leave a choice, so what a step leaves is a
// relation, too. A picker may say that it could take the first choice of all (`Oldest`), or of one (`Sweep`), or the
// first of the cheapest (`Sweep`, if the budget keeps nobody back). Then a queue finds that place itself, and makes no
// view.
//
// `Sweep::pick` itself, for whoever shows it a view, finds the least cost by lanes from nine choices on, in a row that
// it fills from the view.

ghost use Rattle.std.specs.Prelude.{◌≡◌, ◌<◌, ◌≤◌, ◌-◌, ◌^◌, [], length};
ghost use Rattle.mscp_queue.specs.Pickers.{IsRow, IsSweep};

use crate::lanes::least;
use crate::view::{Choice, View};

/// Picks the command that starts, of those that may. Any choice is lawful: what a queue shows may start, and the
/// budget of each waiting command is kept, whoever picks.
pub trait Picker {
    ghost use Rattle.std.specs.Prelude.{◌≡◌, ◌<◌, ◌≤◌, ℕ, List, length, true};
    ghost use Rattle.mscp_queue.specs.declared.view.Choice.{Choice};
    ghost use Rattle.mscp_queue.specs.Pickers.{IsSweep};

    // Which places of a view the picker may pick. It may depend on the picker's own value, and leave a choice.
    ghost picks: { Self → List Choice → ℕ → Type 0 };

    /// The place of the command that starts: if the view isn't empty it is a place in it, one of those that the picker
    /// may pick. A queue may ask more than once for one start, and then it takes one of the answers. So a picker that
    /// counts its calls counts no starts.
    fn pick(&self, view: &View) -> usize
        ensures place { 0 < length view.now → result < length view.now }
        ensures allowed { 0 < length view.now → picks self.now view.now result };

    /// Whether it may pick the first place of each view that has at most so many choices. If so, a queue takes that
    /// place and makes no view.
    fn takes_first(&self, _most: usize) -> bool
        ensures { result ≡ true
            → (view : List Choice) → 0 < length view → length view ≤ _most → picks self.now view 0 }
    {
        false
    }

    /// Whether it may pick the first of the cheapest choices of each view. If so, a queue that shows all that wait
    /// finds that place itself.
    fn takes_cheapest(&self) -> bool
        ensures { result ≡ true → (view : List Choice) → (place : ℕ) → IsSweep view place → picks self.now view place }
    {
        false
    }
}

/// Picks the oldest command that may start.
#[derive(Clone, Copy, Default)]
pub struct Oldest;

impl Picker for Oldest {
    ghost use Rattle.mscp_queue.specs.Pickers.{IsOldest};

    ghost picks = { λ _ view place. IsOldest view place };

    fn pick(&self, _view: &View) -> usize
        ensures oldest { result ≡ 0 }
    {
        0
    }

    fn takes_first(&self, _most: usize) -> bool {
        true
    }
}

/// The place of the first of the cheapest choices, one after the other: 0 if there is none.
pub(crate) fn cheapest(choices: &[Choice]) -> usize
    ensures empty { choices.now ≡ [] → result ≡ 0 }
    ensures sweep { 0 < length choices.now → IsSweep choices.now result }
{
    if choices.is_empty() {
        return 0;
    }
    let mut best = 0;
    let mut least = choices[0].cost;
    for place in 1..choices.len() {
        let cost = choices[place].cost;
        if cost < least {
            best = place;
            least = cost;
        }
    }
    best
}

/// Writes what the choices cost, each at its place, into a row, where lanes can read it.
fn fill_row(row: &mut [u64; 64], choices: &[Choice])
    requires { length choices.now ≤ 64 }
    ensures { IsRow row.new choices.now }
{
    for place in 0..choices.len() {
        row[place] = choices[place].cost;
    }
}

/// The bits of so many places, from the first on.
fn bits_of(places: usize) -> u64
    requires { places ≤ 64 }
    ensures { result ≡ 2 ^ places - 1 }
{
    if places < 64 {
        (1 << places) - 1
    } else {
        u64::MAX
    }
}

/// From so many choices on, lanes find the least cost.
const MANY: usize = 9;

/// Picks the command whose start costs the least, and of those the oldest: an elevator over all units (profile).
#[derive(Clone, Copy, Default)]
pub struct Sweep;

impl Picker for Sweep {
    ghost picks = { λ _ view place. IsSweep view place };

    fn pick(&self, view: &View) -> usize
        ensures empty { view.now ≡ [] → result ≡ 0 }
        ensures sweep { 0 < length view.now → IsSweep view.now result }
    {
        let choices = view.choices();
        if choices.len() < MANY {
            cheapest(choices)
        } else {
            let mut row = [0; 64];
            fill_row(&mut row, choices);
            least(&row, bits_of(choices.len())).unwrap_or(0)
        }
    }

    fn takes_first(&self, most: usize) -> bool {
        most < 2
    }

    fn takes_cheapest(&self) -> bool {
        true
    }
}

// The commands that may start.

ghost use Rattle.std.specs.Prelude.{◌≡◌, ◌<◌, ◌++◌, ◌∷◌, [], cond, filter, length};
ghost use Rattle.mscp_judge.specs.Common.{IsValid, Settings, Trace, fresh, Wanted, Led, starts_in};
ghost use Rattle.mscp_judge.specs.Starts as starts;

use crate::naming::Wanted;
use arrayvec::ArrayVec;
use mscp_controller::{Controller, Name};

/// Names of commands, in order of arrival.
pub type Starts = ArrayVec<Name, 64>;

/// The names of all that wait.
fn names(controller: &Controller<Wanted>) -> Starts
    ensures { result.items ≡ starts.names controller.now.settings.budget controller.now.waiting }
{
    let shown = controller.look();
    let mut names = ArrayVec::new();
    for place in 0..shown.len() {
        let (connection, reference, _) = shown[place];
        names.push(Name {
            connection,
            reference,
        });
    }
    names
}

/// Whether nobody keeps the waiting command of this name back.
fn is_open(controller: &Controller<Wanted>, named: Name) -> bool
    ensures { result ≡ starts.is_open controller.now.settings.budget controller.now.waiting named }
{
    controller
        .holders(named.connection, named.reference)
        .is_empty()
}

/// Appends a name, if nobody keeps its command back.
fn append_if(is_open: bool, open: &mut Starts, named: Name)
    requires { length open.old.items < 64 }
    ensures { open.new.items ≡ open.old.items ++ cond is_open (named ∷ []) [] }
{
    if is_open {
        open.push(named);
    }
}

/// Of these names those of commands that nobody keeps back.
fn open(controller: &Controller<Wanted>, names: &Starts) -> Starts
    ensures { result.items
        ≡ filter (starts.is_open controller.now.settings.budget controller.now.waiting) names.now.items }
{
    let mut open = ArrayVec::new();
    for place in 0..names.len() {
        let named = names[place];
        append_if(is_open(controller, named), &mut open, named);
    }
    open
}

/// The commands that may start: none while one is in service.
pub(crate) fn starts(controller: &Controller<Wanted>) -> Starts
    ensures { (c : Settings) (t : Trace) (begun : Wanted) → IsValid c → Led (fresh c begun) t controller.now
        → result.items ≡ starts_in c t }
{
    match controller.serving() {
        Some(_) => ArrayVec::new(),
        None => open(controller, &names(controller)),
    }
}

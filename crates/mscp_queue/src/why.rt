// Why a command may not start.
//
// Each earlier command that keeps one back is told, with both ways in which it may: by a fence, or by its budget. A
// later command in service isn't among them: it keeps all others waiting, whoever they are.

ghost use Rattle.std.specs.Prelude.{◌≡◌, ◌<◌, ◌≤◌, ◌||◌, ◌++◌, ◌∷◌, [], cond, length};
ghost use Rattle.mscp_queue.specs.Common.{is_open_at, holder_of, holders_at, is_nobody, is_overdrawn};
ghost use Rattle.mscp_queue.specs.Views.{fences};

use crate::backlog::Backlog;
use crate::record::Record;
use arrayvec::ArrayVec;
use mscp_drive::Connection;

/// An earlier command that keeps a waiting one back.
#[derive(Clone, Copy, Default)]
pub struct Holder {
    // The number stands first: so one takes 8 bytes, and a list of 64 half a KiB of the stack.
    /// Its reference number.
    pub reference: u32,
    /// Its connection.
    pub connection: Connection,
    /// Whether both are of one unit, and one of them is sequential.
    pub fences: bool,
    /// Whether it has less left of its budget than the waiting one takes.
    pub overdrawn: bool,
}

impl Holder {
    /// Whether it does so in either way.
    fn keeps_back(&self) -> bool
        ensures { result ≡ self.now.fences || self.now.overdrawn }
    {
        self.fences || self.overdrawn
    }
}

/// Whether the later of two commands has to stay behind the earlier one.
fn fences(later: &Record, earlier: &Record) -> bool
    ensures { result ≡ fences later.now earlier.now }
{
    later.command().unit == earlier.command().unit
        && (earlier.is_sequential() || later.is_sequential())
}

/// Whether the earlier of two commands would be passed by more blocks than the budget, if the later one started.
fn is_overdrawn(budget: u32, later: &Record, earlier: &Record) -> bool
    ensures { result ≡ is_overdrawn budget later.now earlier.now }
{
    u64::from(earlier.passed()) + u64::from(later.weight()) > u64::from(budget)
}

/// How the earlier of two commands keeps the later one back: in none of the two ways, where it doesn't.
fn holder_of(budget: u32, later: &Record, earlier: &Record) -> Holder
    ensures { result ≡ holder_of budget later.now earlier.now }
{
    Holder {
        reference: earlier.command().reference,
        connection: earlier.connection(),
        fences: fences(later, earlier),
        overdrawn: is_overdrawn(budget, later, earlier),
    }
}

/// Appends what is told of a command, if that keeps the other one back.
fn append_if(keeps_back: bool, holders: &mut ArrayVec<Holder, 64>, holder: Holder)
    requires room { length holders.old.items < 64 }
    ensures { holders.new.items ≡ holders.old.items ++ cond keeps_back (holder ∷ []) [] }
{
    if keeps_back {
        holders.push(holder);
    }
}

/// Puts those that keep the command at the place back into an empty list, oldest first. (A list that is given back is
/// copied, and takes its room of the stack once more.)
#[tactic(auto, using(crate::proofs::Whys::none_keeps_back))]
pub(crate) fn put_holders(
    backlog: &Backlog,
    budget: u32,
    place: usize,
    holders: &mut ArrayVec<Holder, 64>,
)
    requires few { length backlog.now.waiting ≤ 64 }
    requires place { place < length backlog.now.waiting }
    requires empty { holders.old.items ≡ [] }
    ensures holders { holders.new.items ≡ holders_at budget backlog.now.waiting place }
    ensures none { is_nobody holders.new.items ≡ is_open_at budget backlog.now.waiting place }
{
    let later = backlog.record(place);
    for earlier in 0..place {
        let holder = holder_of(budget, later, &backlog.told(earlier));
        append_if(holder.keeps_back(), holders, holder);
    }
}

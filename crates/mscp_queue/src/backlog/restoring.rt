// Waiting commands as they were, and how long each may still wait.

ghost use Rattle.std.specs.Prelude.{◌≡◌, ◌*◌, ◌<◌, ◌≤◌, ◌^◌, [], true, All, length, sum_by};
ghost use Rattle.mscp_queue.specs.Common.{AreTimed, told, targets, targets_of, due_of, is_known, units_of, IsUnitList, left_if_serving};

use crate::backlog::Backlog;
use crate::backlog::telling::left_if_serving;
use crate::drive::Drive;
use crate::record::Record;
use crate::slots::{Content, Slots};
use crate::target::Target;

/// How many steps are left of all that are in service.
fn left_in_service(records: &[Record]) -> u64
    requires few { length records.now ≤ 64 }
    ensures value { result ≡ sum_by left_if_serving records.now }
    ensures small { result ≤ 64 * 2 ^ 32 }
{
    let mut left = 0;
    for place in 0..records.len() {
        left += left_if_serving(&records[place]);
    }
    left
}

/// The due of the record at the clock 0, where so many steps are left of those before it, and so many of one in service
/// behind it.
fn due_of(budget: u32, before: u64, behind: u64, record: &Record) -> u64
    requires before { before ≤ 64 * 2 ^ 32 }
    requires behind { behind ≤ 64 * 2 ^ 32 }
    ensures { result ≡ due_of budget before behind «record».now }
{
    before + behind + u64::from(budget.saturating_sub(record.passed())) + u64::from(record.left())
}

/// The commands of these records wait from now on, each as it stands there, in slots none of which was taken, where
/// each may be passed by `budget` blocks and the clock stands at 0. How many steps are left of all.
fn fill(slots: &mut Slots, budget: u32, records: &[Record], drives: &[Drive]) -> u64
    requires free { slots.old ≡ [] }
    requires few { length records.now ≤ 64 }
    requires drives { length drives.now ≤ 16 }
    requires units { IsUnitList (units_of drives.now) }
    requires known { All (λ r. is_known (units_of drives.now) r.command.unit ≡ true) records.now }
    requires passed { All (λ r. r.passed ≤ budget) records.now }
    ensures timed { AreTimed budget 0 result slots.new }
    ensures told { told budget 0 slots.new ≡ records.now }
    ensures targets { targets slots.new ≡ targets_of (units_of drives.now) records.now }
{
    let mut before = 0;
    let mut behind = left_in_service(records);
    for place in 0..records.len() {
        let item = records[place];
        behind -= left_if_serving(&item);
        slots.push(Content {
            item: item.resumed(item.done(), 0),
            target: Target::of(&item.command(), drives),
            due: due_of(budget, before, behind, &item),
        });
        before += u64::from(item.left());
    }
    before
}

impl Backlog {
    /// The commands of these records wait from now on, each as it stands there, in the slots where they lie: no others
    /// are made.
    pub fn restore(&mut self, records: &[Record], drives: &[Drive])
        requires few { length records.now ≤ 64 }
        requires drives { length drives.now ≤ 16 }
        requires units { IsUnitList (units_of drives.now) }
        requires known { All (λ r. is_known (units_of drives.now) r.command.unit ≡ true) records.now }
        requires passed { All (λ r. r.passed ≤ self.old.budget) records.now }
        ensures { self.new ≡ record {
          budget = self.old.budget;
          waiting = records.now;
          targets = targets_of (units_of drives.now) records.now;
        } }
    {
        self.slots.clear();
        self.clock = 0;
        self.total = fill(&mut self.slots, self.budget, records, drives);
    }
}

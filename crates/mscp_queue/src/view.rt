// What a picker sees.

ghost use Rattle.std.specs.Prelude.{◌≡◌, ◌↔◌, ◌<◌, ◌≤◌, ◌∷◌, ◌++◌, [], length, IsSome, IfSome};

use arrayvec::ArrayVec;
use mscp_drive::Connection;
use mscp_packet::Class;
use std::marker::Model;

/// A command that may start, as a picker sees it.
#[derive(Clone, Copy)]
pub struct Choice {
    /// Its reference number.
    pub reference: u32,
    /// The number of its unit.
    pub unit: u16,
    /// The connection that it came by. It stands here, since a choice takes 16 bytes so, and each is written at a
    /// start.
    pub connection: Connection,
    /// Sequential, or Free for a transfer.
    pub class: Class,
    /// How many cylinders the head of its unit crosses to its first block if it goes on the way it goes, and turns only
    /// at the ends (profile). A sequential command costs 0.
    pub cost: u64,
}

/// A choice of nothing, which fills the places of a list that isn't full. All its bytes are 0, so 64 of them are
/// cleared where they lie, and the stack has none.
impl Default for Choice {
    ghost use Rattle.mscp_queue.specs.Common.{Immediate, First};

    fn default() -> Choice
        ensures { result ≡ record { connection = First; reference = 0; unit = 0; class = Immediate; cost = 0 } }
    {
        Choice {
            reference: 0,
            unit: 0,
            connection: Connection::First,
            class: Class::Immediate,
            cost: 0,
        }
    }
}

/// The commands that may start, at most 64 of them. A queue shows them in order of arrival.
#[derive(Drop)]
pub struct View {
    choices: ArrayVec<Choice, 64>,
}

// A clause sees the list of the choices.
impl Model for View {
    ghost use Rattle.std.specs.Prelude.{List};
    ghost use Rattle.mscp_queue.specs.declared.view.Choice.{Choice as Shown};

    ghost Value = { List Shown };

    ghost view = { λ v. v.choices.items };
}

impl View {
    /// The view of these choices, if there are at most 64. By it a picker can be tested.
    pub fn new(choices: &[Choice]) -> Option<View>
        ensures some { IsSome result ↔ (length choices.now ≤ 64) }
        ensures value { IfSome result (λ view. view ≡ choices.now) }
    {
        if choices.len() > 64 {
            return None;
        }
        let mut view = View::empty();
        for choice in choices {
            view.push(*choice);
        }
        Some(view)
    }

    /// The view of no choice.
    pub(crate) fn empty() -> View
        ensures { result ≡ [] }
    {
        View {
            choices: ArrayVec::new(),
        }
    }

    /// Forgets all choices.
    pub(crate) fn clear(&mut self)
        ensures { self.new ≡ [] }
    {
        self.choices.clear();
    }

    /// Appends a choice.
    pub(crate) fn push(&mut self, choice: Choice)
        requires { length self.old < 64 }
        ensures { self.new ≡ self.old ++ choice ∷ [] }
    {
        self.choices.push(choice);
    }

    /// The choices, in their order.
    pub fn choices(&self) -> &[Choice]
        ensures value { result.now ≡ self.now }
        ensures few { length result.now ≤ 64 }
    {
        self.choices.as_slice()
    }
}

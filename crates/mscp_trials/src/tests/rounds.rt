// A hundred times 63 places are filled with READs and emptied, the newest first.

ghost use Rattle.std.specs.Prelude.{◌<◌, ◌≤◌};

use super::calls::Trial;
use super::controllers::Newest;
use super::values::{FIRST, config, read, read_ended, served};
use crate::tests::checks::holds;
use mscp_controller::{Block, Report};
use std::process::Abort;

/// The longest transfer.
const BLOCKS: u32 = 8;

/// As many commands as may wait.
const PLACES: u32 = 63;

/// What lets each be passed by all the others.
const BUDGET: u32 = 62 * BLOCKS;

/// The first block of a command: they lie all over the unit.
fn first_block(number: u32) -> u32
    requires { number ≤ 63 }
    ensures { result < 900 }
{
    number * 37 % 900
}

/// The step that serves the block of a command, when the head is on this block's cylinder: there are 20 blocks on one.
fn serving(reference: u32, lbn: u32, place: u32, from: u32) -> Report {
    let end = read_ended(reference, 0, 512 * 8);
    let ended = if place == 7 { Some(end) } else { None };
    let seek = (lbn / 20).abs_diff(from / 20);
    served(FIRST, reference, Some(lbn), place == 0, seek, ended)
}

impl Trial<Newest> {
    /// Serves a READ to its end, from where the head is, and answers where it is then.
    fn serve(&mut self, rt: &impl Abort, reference: u32, from: u32) -> u32
        requires { reference ≤ 63 }
    {
        let first = first_block(reference);
        let mut head = from;
        for place in 0..BLOCKS {
            self.steps(
                rt,
                Block::Good,
                serving(reference, first + place, place, head),
            );
            head = first + place;
        }
        head
    }

    /// Fills all places. A later one waits for all before it too.
    fn fill(&mut self, rt: &impl Abort) {
        for number in 1..64u32 {
            self.queues(rt, FIRST, &read(number, 512 * BLOCKS, first_block(number)));
            self.has_figure(rt, FIRST, number, BLOCKS * number + BUDGET);
        }
    }

    /// Empties them, with the head here, and answers where it is then. The figure of the first is its own blocks and
    /// the budget less the blocks of those that passed it. An end of each is taken.
    fn empty(&mut self, rt: &impl Abort, from: u32) -> u32 {
        let mut head = from;
        for passed in 0..PLACES {
            self.has_figure(rt, FIRST, 1, BLOCKS + BUDGET - BLOCKS * passed);
            head = self.serve(rt, PLACES - passed, head);
        }
        for _number in 0..PLACES {
            holds(rt, self.controller.take(FIRST).is_some());
        }
        self.takes_nothing(rt, FIRST);
        head
    }
}

#[test]
fn sixty_three_places_are_filled_and_emptied(rt: HostRuntime) {
    let mut trial = Trial::online(&rt, config(&rt, 64, u64::from(BUDGET)), Newest);
    let mut head = 0;
    for _round in 0..100 {
        trial.fill(&rt);
        head = trial.empty(&rt, head);
    }
}

// The best start of each drive.
//
// A pick compares these, one for each unit, and looks at no command of a unit whose best start is known. It stays the
// best until the head of its unit moves, its command leaves, or a better one comes. It is sought when a pick wants
// it, and not before, since a head may move more than once between two picks. A mask of the drives whose start is
// known was tried: it saved a pick among sixteen units 90 instructions, and cost each step 13 and a pick of one unit
// 30.

ghost use Rattle.std.specs.Prelude.{◌≡◌, ◌≢◌, ℕ, ◌<◌, ◌≤◌, false, cond};
ghost use Rattle.mscp_queue.specs.Common.{KnowsNothing, IsLearned, closed, comes_before, knows, start_in};

use crate::start_key::Start;

/// The best start of each drive, by the place of the drive, or one that isn't known.
#[derive(Drop)]
pub(crate) struct Favorites {
    pub starts: [Start; 16],
}

impl Favorites {
    /// Nothing is known.
    pub fn new() -> Favorites
        ensures { KnowsNothing result }
    {
        Favorites {
            starts: [Start::unknown(); 16],
        }
    }

    /// Nothing is known any more.
    pub fn clear(&mut self)
        ensures { KnowsNothing self.new }
    {
        *self = Favorites::new();
    }

    /// Whether the best start of a drive is known.
    pub fn knows(&self, drive: usize) -> bool
        requires { drive < 16 }
        ensures { result ≡ knows self.now drive }
    {
        self.starts[drive].is_known()
    }

    /// The best start of a drive, or one that isn't known.
    pub fn start(&self, drive: usize) -> Start
        requires { drive < 16 }
        ensures { result ≡ start_in self.now drive }
    {
        self.starts[drive]
    }

    /// The best start of a drive is this one.
    pub fn learn(&mut self, drive: usize, start: Start)
        requires { drive < 16 }
        ensures { IsLearned drive start self.old self.new }
    {
        self.starts[drive] = start;
    }

    /// A start on a drive comes, behind all that are there.
    pub fn come(&mut self, drive: usize, start: Start)
        requires { drive < 16 }
        ensures { IsLearned drive (cond (comes_before (start_in self.old drive) start)
            (start_in self.old drive) start) self.old self.new }
    {
        self.starts[drive] = self.starts[drive].or_earlier(start);
    }

    /// The best start of a drive isn't known any more.
    fn forget(&mut self, drive: usize)
        requires { drive < 16 }
        ensures own { knows self.new drive ≡ false }
        ensures others { (k : ℕ) → k ≢ drive → start_in self.new k ≡ start_in self.old k }
    {
        self.starts[drive] = Start::unknown();
    }

    /// The command at a place left: the starts of those behind it move up, on so many drives.
    fn close(&mut self, gone: usize, drives: usize)
        requires gone { gone < 64 }
        requires drives { drives ≤ 16 }
        ensures below { (k : ℕ) → k < drives → start_in self.new k ≡ closed gone (start_in self.old k) }
        ensures above { (k : ℕ) → drives ≤ k → start_in self.new k ≡ start_in self.old k }
    {
        for k in 0..drives {
            self.starts[k] = self.starts[k].closed(gone as u8);
        }
    }

    /// The drive at a place, one of so many, serves the command at the other, or that is aborted. If it leaves, those
    /// behind it move up.
    pub fn serve(&mut self, place: usize, drive: usize, drives: usize, moves: bool)
        requires place { place < 64 }
        requires drive { drive < 16 }
        requires drives { drives ≤ 16 }
        ensures own { knows self.new drive ≡ false }
        ensures others { (k : ℕ) → k < drives → k ≢ drive
            → start_in self.new k ≡ cond moves (closed place (start_in self.old k)) (start_in self.old k) }
    {
        self.forget(drive);
        if moves {
            self.close(place, drives);
        }
    }
}

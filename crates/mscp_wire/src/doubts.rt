// What is doubtful of a log that is right: of each kind the first moment, and how many there are.
//
// That a SET UNIT CHARACTERISTICS tells another identity than was told before is a doubt, and no fault: it succeeds of
// an available unit, too, and if a unit became available by itself and has another volume, no end says so. Which unit
// had an identifier last is kept by identifiers, since comparing all units takes quadratic time.

ghost use Rattle.std.specs.Prelude.{◌≡◌, ◌+◌, ◌-◌, ◌<◌, ◌^◌, [], None};
ghost use Rattle.mscp_wire.specs.Doubts as doubt;
ghost use Rattle.mscp_wire.specs.Log.{nothing};

use crate::sent::Sent;

/// What is doubtful of a moment: each that no rule forbids, and that hardly any controller does.
#[derive(Clone, Copy)]
pub struct Doubtful {
    /// Two identities are told of a unit, and nothing between may have changed it.
    pub identity: bool,
    /// A transfer succeeds past the size of its unit.
    pub size: bool,
    /// A status has a code that its command has no use for.
    pub status: bool,
    /// A WRITE or an ERASE succeeds of a unit that is protected from writing.
    pub protection: bool,
    /// Two units that are online have one identifier.
    pub identifier: bool,
    /// A GET UNIT STATUS that asks for the next unit passes one that is there.
    pub next: bool,
    /// A figure doesn't fall in a log that begins in the middle: an older command may be outstanding.
    pub figure: bool,
}

/// What is found in a line.
#[derive(Clone, Copy)]
pub struct Found {
    /// The line, counted from 1.
    pub line: u32,
    /// The command that is answered there.
    pub command: Option<Sent>,
}

/// The doubts of one kind.
#[derive(Clone, Copy)]
pub struct Doubt {
    /// The first, if there is one.
    pub first: Option<Found>,
    /// How many there are.
    pub count: u32,
}

/// The doubts of a log.
#[derive(Clone, Copy)]
pub struct Doubts {
    pub identity: Doubt,
    pub size: Doubt,
    pub status: Doubt,
    pub protection: Doubt,
    pub identifier: Doubt,
    pub next: Doubt,
    pub figure: Doubt,
}

impl Doubtful {
    /// Nothing.
    pub fn nothing() -> Doubtful
        ensures { result ≡ doubt.no_doubt }
    {
        Doubtful {
            identity: false,
            size: false,
            status: false,
            protection: false,
            identifier: false,
            next: false,
            figure: false,
        }
    }
}

impl Doubt {
    /// None.
    fn none() -> Doubt
        ensures { result ≡ record { first = None; count = 0 } }
    {
        Doubt {
            first: None,
            count: 0,
        }
    }

    /// One more came, or not.
    fn add(&mut self, does: bool, found: &Found)
        requires { self.old.count < 2 ^ 32 - 1 }
        ensures { self.new ≡ doubt.doubt_with self.old does found.now }
    {
        if !does {
            return;
        }
        if self.first.is_none() {
            self.first = Some(*found);
        }
        self.count += 1;
    }
}

impl Doubts {
    /// Those of no moment.
    pub fn none() -> Doubts
        ensures doubts { result ≡ doubt.doubts_of nothing }
        ensures few { doubt.AreFewDoubts result 1 }
    {
        Doubts {
            identity: Doubt::none(),
            size: Doubt::none(),
            status: Doubt::none(),
            protection: Doubt::none(),
            identifier: Doubt::none(),
            next: Doubt::none(),
            figure: Doubt::none(),
        }
    }

    /// A moment more came, in the line of this number.
    pub fn add(&mut self, number: u32, doubtful: &Doubtful, command: Option<Sent>)
        requires { doubt.AreFewDoubts self.old number }
        ensures doubts { self.new
            ≡ doubt.doubts_with self.old doubtful.now (record { line = number; command = command }) }
        ensures few { doubt.AreFewDoubts self.new (number + 1) }
    {
        let found = Found {
            line: number,
            command,
        };
        self.identity.add(doubtful.identity, &found);
        self.size.add(doubtful.size, &found);
        self.status.add(doubtful.status, &found);
        self.protection.add(doubtful.protection, &found);
        self.identifier.add(doubtful.identifier, &found);
        self.next.add(doubtful.next, &found);
        self.figure.add(doubtful.figure, &found);
    }
}

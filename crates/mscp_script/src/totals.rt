// The totals of a report.

ghost use Rattle.std.specs.Prelude.{◌≡◌, ◌+◌, ◌≤◌, ◌-◌, ◌*◌, ◌<◌, ◌^◌};

use mscp_controller::{Report, SendFault, Sent};

/// What the last line of a report tells, and of how many entries.
#[derive(Clone, Copy)]
pub struct Totals {
    /// How many entries were counted.
    pub count: u64,
    /// How many steps there were, idle ones too.
    pub steps: u64,
    /// How many cylinders the head went in all.
    pub seeks: u128,
    /// How many commands were queued.
    pub queued: u64,
    /// How many ended in a step or were aborted.
    pub ended: u64,
    // So no sum overflows as long as the count doesn't.
    pub ghost few_steps: { steps ≤ count },
    pub ghost few_seeks: { seeks ≤ count * 4294967295 },
    pub ghost few_queued: { queued ≤ count },
    pub ghost few_ended: { ended ≤ count },
}

impl Totals {
    ghost use Rattle.mscp_drive.specs.declared.connection.Connection.{Connection};
    ghost use Rattle.mscp_controller.specs.declared.entry.Entry.TheVariants as entries;
    ghost use Rattle.mscp_script.specs.Counted.{IsCounted};

    /// The totals of no entry.
    pub(crate) fn new() -> Totals
        ensures count { result.count ≡ 0 }
        ensures steps { result.steps ≡ 0 }
        ensures seeks { result.seeks ≡ 0 }
        ensures queued { result.queued ≡ 0 }
        ensures ended { result.ended ≡ 0 }
    {
        Totals {
            count: 0,
            steps: 0,
            seeks: 0,
            queued: 0,
            ended: 0,
        }
    }

    /// Counts what became of a message.
    pub(crate) fn add_sent(&mut self, sent: &Result<Sent, SendFault>)
        requires { self.old.count + 1 < 2 ^ 64 }
        ensures { (via : Connection) → IsCounted self.old self.new (entries.Sent via sent.now) }
    {
        let (queued, ended) = match sent {
            Ok(Sent::Queued(_)) => (1, 0),
            Ok(
                Sent::Answered {
                    aborted: Some(_),
                    ..
                },
            ) => (0, 1),
            _ => (0, 0),
        };
        self.count += 1;
        self.queued += queued;
        self.ended += ended;
    }

    /// Counts an entry that is neither a message nor a step.
    pub(crate) fn add_other(&mut self)
        requires { self.old.count + 1 < 2 ^ 64 }
        ensures count { self.new.count ≡ self.old.count + 1 }
        ensures steps { self.new.steps ≡ self.old.steps }
        ensures seeks { self.new.seeks ≡ self.old.seeks }
        ensures queued { self.new.queued ≡ self.old.queued }
        ensures ended { self.new.ended ≡ self.old.ended }
    {
        self.count += 1;
    }

    /// Counts a step.
    pub(crate) fn add_step(&mut self, report: &Report)
        requires { self.old.count + 1 < 2 ^ 64 }
        ensures { IsCounted self.old self.new (entries.Stepped report.now) }
    {
        let (seek, ended) = match report {
            Report::Idle => (0, 0),
            Report::Served {
                seek,
                ended: Some(_),
                ..
            } => (*seek, 1),
            Report::Served {
                seek,
                ended: None,
                ..
            } => (*seek, 0),
        };
        self.count += 1;
        self.steps += 1;
        self.seeks += u128::from(seek);
        self.ended += ended;
    }

    /// How many commands wait: those that were queued less those that ended, but at least 0.
    pub(crate) fn pending(&self) -> u64
        ensures { result ≡ self.now.queued - self.now.ended }
    {
        self.queued.saturating_sub(self.ended)
    }
}

// A report, which grows by the lines of each entry, and ends with the totals.

ghost use Rattle.std.specs.Prelude.{◌≡◌, ◌+◌, ◌<◌, ◌≤◌, ◌^◌, [], IfOk, OnErr, OnOk, length};
ghost use Rattle.mscp_controller.specs.declared.entry.Entry.TheVariants as entries;
ghost use Rattle.mscp_queue.specs.declared.report.Report.TheVariants as reports;
ghost use Rattle.mscp_script.specs.Text.{finished, reported, step_line, with_entry};

mod lines;
mod tail;

use crate::reporting::lines::{put_figures, put_sent, put_step, put_taken, put_totals};
use crate::reporting::tail::Tail;
use crate::totals::Totals;
use arrayvec::ArrayVec;
use mscp_controller::{Connection, OutOfMemory, Report, SendFault, Sent};
use mscp_text::{Out, put};
use std::alloc::Allocator;
use std::marker::Model;

/// The lines of the entries so far, and their totals.
#[derive(Drop)]
pub struct Reporter<O: Out> {
    out: O,
    // Where each line is written, before it is appended.
    line: Tail,
    totals: Totals,
}

// A clause sees the lines, how many entries they are of, and the totals.
impl<O: Out> Model for Reporter<O> {
    ghost use Rattle.mscp_script.specs.Text.{Reported};

    ghost Value = { Reported };

    ghost view = { λ r.
        record {
          lines = O.text r.out;
          count = r.totals.count;
          steps = r.totals.steps;
          seeks = r.totals.seeks;
          queued = r.totals.queued;
          ended = r.totals.ended;
        } };
}

impl<O: Out> Reporter<O> {
    /// A report of no entry.
    pub fn new(out: O) -> Reporter<O>
        requires { O.text out ≡ [] }
        ensures { result ≡ reported [] }
    {
        Reporter {
            out,
            line: Tail::new(),
            totals: Totals::new(),
        }
    }

    /// How many entries were reported.
    pub fn count(&self) -> u64
        ensures { result ≡ self.now.count }
    {
        self.totals.count
    }

    /// How many of them are of steps, idle ones too.
    pub fn steps(&self) -> u64
        ensures { result ≡ self.now.steps }
    {
        self.totals.steps
    }

    /// Reports what became of a message of the connection.
    ///
    /// # Errors
    ///
    /// `OutOfMemory` if what it writes to refuses a text.
    pub fn sent(
        &mut self,
        connection: Connection,
        sent: &Result<Sent, SendFault>,
    ) -> Result<(), OutOfMemory>
        requires { self.old.count + 1 < 2 ^ 64 }
        ensures value { OnOk result (self.new ≡ with_entry self.old (entries.Sent connection sent.now)) }
        ensures refused { OnErr result O.refuses }
    {
        put_sent(&mut self.out, &mut self.line, connection, sent)?;
        self.totals.add_sent(sent);
        Ok(())
    }

    /// Reports an end of the connection that was taken, or that there was none.
    ///
    /// # Errors
    ///
    /// `OutOfMemory` if what it writes to refuses a text.
    pub fn taken(
        &mut self,
        connection: Connection,
        end: &Option<ArrayVec<u8, 48>>,
    ) -> Result<(), OutOfMemory>
        requires { self.old.count + 1 < 2 ^ 64 }
        ensures value { OnOk result (self.new ≡ with_entry self.old (entries.Taken connection end.now)) }
        ensures refused { OnErr result O.refuses }
    {
        put_taken(&mut self.out, &mut self.line, connection, end)?;
        self.totals.add_other();
        Ok(())
    }

    /// Reports what a step did.
    ///
    /// # Errors
    ///
    /// `OutOfMemory` if what it writes to refuses a text.
    pub fn stepped(&mut self, report: &Report) -> Result<(), OutOfMemory>
        requires { self.old.count + 1 < 2 ^ 64 }
        ensures value { OnOk result (self.new ≡ with_entry self.old (entries.Stepped report.now)) }
        ensures short { OnOk result (length (step_line report.now) ≤ 108) }
        ensures refused { OnErr result O.refuses }
    {
        put_step(&mut self.out, &mut self.line, report)?;
        self.totals.add_step(report);
        Ok(())
    }

    /// Reports a step at which nothing waited.
    ///
    /// # Errors
    ///
    /// `OutOfMemory` if what it writes to refuses a text.
    #[inline(always)]
    pub fn idled(&mut self) -> Result<(), OutOfMemory>
        requires { self.old.count + 1 < 2 ^ 64 }
        ensures value { OnOk result (self.new ≡ with_entry self.old (entries.Stepped reports.Idle)) }
        ensures refused { OnErr result O.refuses }
    {
        put(&mut self.out, "idle\n")?;
        self.totals.add_step(&Report::Idle);
        Ok(())
    }

    /// Reports the figures of a look.
    ///
    /// # Errors
    ///
    /// `OutOfMemory` if what it writes to refuses a text.
    pub fn looked(
        &mut self,
        shown: &ArrayVec<(Connection, u32, u32), 64>,
    ) -> Result<(), OutOfMemory>
        requires { self.old.count + 1 < 2 ^ 64 }
        ensures value { OnOk result (self.new ≡ with_entry self.old (entries.Looked shown.now)) }
        ensures refused { OnErr result O.refuses }
    {
        put_figures(&mut self.out, &mut self.line, shown.as_slice())?;
        self.totals.add_other();
        Ok(())
    }

    /// The text, with the line of the totals.
    ///
    /// # Errors
    ///
    /// `OutOfMemory` if what it writes to refuses a text.
    pub fn finish(mut self) -> Result<O, OutOfMemory>
        ensures value { IfOk result (λ out. O.text out ≡ finished self) }
        ensures refused { OnErr result O.refuses }
    {
        put_totals(&mut self.out, &self.totals)?;
        Ok(self.out)
    }
}

impl<A: Allocator> Reporter<Vec<u8, A>> {
    /// The lines, but for those that were forgotten.
    pub fn lines(&self) -> &[u8]
        ensures { result.now ≡ self.now.lines }
    {
        &self.out
    }

    /// Forgets the lines. How many entries were reported, and their totals, stay.
    pub fn forget_lines(&mut self)
        ensures { self.new ≡ record self.old { lines = [] } }
    {
        self.out.clear();
    }

    /// Forgets all entries.
    pub fn restart(&mut self)
        ensures { self.new ≡ reported [] }
    {
        self.out.clear();
        self.totals = Totals::new();
    }
}

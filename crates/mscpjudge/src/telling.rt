// What is said of a log of the wire: of one log, or of each port of a log with ports.

ghost use Rattle.std.specs.Prelude.{◌≡◌, ◌≤◌, ◌+◌, ◌++◌, ℕ, List, [], length, true, false, OnOk};
ghost use Rattle.mscp_reader.specs.Outcome.{Tells};
ghost use Rattle.mscpjudge.specs.Common.{WritesOnce};
ghost use Rattle.mscpjudge.specs.Numbers.{number_by};
ghost use Rattle.mscpjudge.specs.Ports as ports;
ghost use Rattle.mscpjudge.specs.Told as tells;

use crate::credited::judge_credited;
use crate::fault::Fault;
use crate::finding::all_of;
use crate::judging::Outcome;
use crate::numbers::fault_of;
use crate::ports::{Section, has_ports, sections_of};
use crate::wire::{text_of, wire_outcome};
use mscp_controller::OutOfMemory;
use mscp_reader::{ReadFault, ScriptFault};
use mscp_script::{Sink, Source, read_all};
use mscp_text::{put, put_field};
use mscp_wire::Verdict;
use std::alloc::{AllocError, Global};

/// How much of what isn't right is told.
#[derive(Clone, Copy)]
pub enum Extent {
    /// The first moment.
    First,
    /// All.
    All,
}

/// What is said of a log, and how it is judged.
#[derive(Drop)]
pub struct Told {
    pub outcome: Outcome,
    pub text: Vec<u8>,
}

/// What is said of the ports so far, unless there is a fault: then the first one.
#[derive(Drop)]
pub struct Telling {
    pub told: Told,
    pub fault: Option<ScriptFault>,
}

/// The lines of a verdict on a log.
fn text_by(
    alloc: Global,
    extent: Extent,
    log: &[u8],
    numbers: &[u32],
    verdict: &Verdict<Global>,
) -> Result<Vec<u8>, ReadFault>
    ensures { Tells (λ text. text.items) result (tells.verdict_by extent (number_by numbers.now) log.now
        verdict.now) }
{
    match extent {
        Extent::First => Ok(text_of(alloc, log, numbers, verdict)?),
        Extent::All => all_of(alloc, log, numbers, verdict),
    }
}

/// What is said of one log, whose lines have these numbers among all. A fault has the number of its line in it.
fn tell_one(alloc: Global, extent: Extent, log: &[u8], numbers: &[u32]) -> Result<Told, ReadFault>
    ensures { tells.TellsOne extent (number_by numbers.now) result log.now }
{
    let verdict = judge_credited(alloc, log)?;
    let text = text_by(alloc, extent, log, numbers, &verdict)?;
    let outcome = wire_outcome(&verdict);
    Ok(Told { outcome, text })
}

/// The worse of two.
fn worse(one: Outcome, other: Outcome) -> Outcome
    ensures { result ≡ tells.worse one other }
{
    match one {
        Outcome::Legal => other,
        Outcome::Wrong => Outcome::Wrong,
    }
}

/// The fault in the earlier line.
fn earlier(one: Option<ScriptFault>, other: ScriptFault) -> ScriptFault
    ensures { result ≡ tells.earlier one other }
{
    match one {
        Some(fault) if fault.line <= other.line => fault,
        _ => other,
    }
}

impl Telling {
    /// Of no port, where the lines that name ports have this fault first.
    fn new(alloc: Global, fault: Option<ScriptFault>) -> Telling
        ensures fault { result.fault ≡ fault }
        ensures outcome { result.told.outcome ≡ Outcome.Legal }
        ensures text { result.told.text.items ≡ [] }
    {
        Telling {
            told: Told {
                outcome: Outcome::Legal,
                text: Vec::new(alloc),
            },
            fault,
        }
    }

    /// Appends what is said of a port.
    fn put(&mut self, port: u32, told: &Told) -> Result<(), AllocError>
        ensures fault { self.new.fault ≡ self.old.fault }
        ensures outcome { OnOk result (self.new.told.outcome ≡ tells.worse self.old.told.outcome told.now.outcome) }
        ensures text { OnOk result (self.new.told.text.items
            ≡ self.old.told.text.items ++ tells.port_text port ++ told.now.text.items) }
    {
        put_field(&mut self.told.text, "port ", port)?;
        put(&mut self.told.text, "\n")?;
        self.told.text.extend_from_slice(&told.text)?;
        self.told.outcome = worse(self.told.outcome, told.outcome);
        Ok(())
    }

    /// What is said of a port that occurs.
    fn section(
        &mut self,
        alloc: Global,
        extent: Extent,
        port: u32,
        section: &Section,
    ) -> Result<(), OutOfMemory>
        ensures { OnOk result ((bytes : List ℕ) → ports.part_by section.now ≡ ports.part_of bytes port
            → ports.occurs bytes port ≡ true → tells.IsAt port extent bytes self.old
            → tells.IsAt (port + 1) extent bytes self.new) }
    {
        match tell_one(alloc, extent, &section.log, &section.numbers) {
            Ok(told) => self.put(port, &told)?,
            Err(ReadFault::Script(fault)) => {
                self.fault = Some(earlier(self.fault, fault_of(&section.numbers, fault)));
            }
            Err(ReadFault::OutOfMemory) => return Err(OutOfMemory),
        }
        Ok(())
    }

    /// The same of a port, if it occurs.
    fn port(
        &mut self,
        alloc: Global,
        extent: Extent,
        port: u32,
        section: &Section,
    ) -> Result<(), OutOfMemory>
        ensures { OnOk result ((bytes : List ℕ) → ports.part_by section.now ≡ ports.part_of bytes port
            → tells.IsAt port extent bytes self.old → tells.IsAt (port + 1) extent bytes self.new) }
    {
        if section.occurs {
            return self.section(alloc, extent, port, section);
        }
        Ok(())
    }
}

/// What is said of a log with ports, which is let go once the lines of each are known.
fn tell_ports(alloc: Global, extent: Extent, log: Vec<u8>) -> Result<Told, ReadFault>
    requires { length log.items ≤ 16777216 }
    ensures { tells.TellsBy true extent result log.items }
{
    let sections = sections_of(alloc, &log)?;
    drop(log);
    let mut telling = Telling::new(alloc, sections.fault);
    for port in 0..8 {
        telling.port(alloc, extent, port, &sections.ports[port as usize])?;
    }
    let Telling { told, fault } = telling;
    match fault {
        Some(fault) => Err(ReadFault::Script(fault)),
        None => Ok(told),
    }
}

/// What is said of a log. One without ports is judged as it is.
fn tell(alloc: Global, extent: Extent, log: Vec<u8>) -> Result<Told, ReadFault>
    ensures { tells.TellsBy (ports.has_ports log.items) extent result log.items }
{
    if has_ports(&log) {
        tell_ports(alloc, extent, log)
    } else {
        tell_one(alloc, extent, &log, &[])
    }
}

/// Judges the log of the wire that a reader gives, and writes what is said of it in one write.
pub(crate) fn judge_captured<R: Source, W: Sink>(
    alloc: Global,
    extent: Extent,
    reader: &mut R,
    writer: &mut W,
) -> Result<Outcome, Fault>
    requires reader { R.has_failed reader.old ≡ false }
    requires writer { W.has_failed writer.old ≡ false }
    ensures told { tells.TellsWire extent result (R.remaining reader.old) (W.contents writer.old)
        (W.contents writer.new) }
    ensures once { WritesOnce result (W.writes writer.old) (W.writes writer.new) }
{
    let log = read_all(alloc, reader)?;
    let told = tell(alloc, extent, log)?;
    writer.write_all(&told.text)?;
    Ok(told.outcome)
}

// The ports of a machine in a log of the wire. A line `port N` says that the lines behind it went over the wire of
// that port.
//
// A log of several ports is as many logs, each with its own lines alone: so no state is shared, and each line is read
// once. Where lines are told they have their numbers among all. Without such a line nothing of this is made.

ghost use Rattle.std.specs.Prelude.{◌≡◌, ◌≤◌, ◌<◌, ◌++◌, ◌∷◌, ℕ, codes, length, None, IfOk, OnOk};
ghost use Rattle.mscp_reader.specs.Lexical as lexical;
ghost use Rattle.mscp_reader.specs.Grammar.{only_number};
ghost use Rattle.mscp_wire.specs.Log.{without_time};
ghost use Rattle.mscpjudge.specs.Ports as ports;

use mscp_controller::OutOfMemory;
use mscp_reader::{Cause, Lines, MOST_LINES, ScriptFault, Words, lines_of, wide, words_of};
use mscp_wire::is_time;
use std::alloc::{AllocError, Global};

/// What a line of a log is for the ports.
#[derive(Clone, Copy)]
pub enum Kind {
    /// It says nothing.
    Bare,
    /// The lines behind it are of this port.
    Names(u32),
    /// It begins as such a line, and is none.
    Faulty(Cause),
    /// It is a line of its port.
    Says,
}

/// What is known of a port: the log of its own lines, their numbers among all lines, and whether the port occurs.
#[derive(Drop)]
pub struct Section {
    pub log: Vec<u8>,
    pub numbers: Vec<u32>,
    pub occurs: bool,
}

/// The same of each port, and the first fault of a line that names one.
#[derive(Drop)]
pub struct Sections {
    pub ports: Vec<Section>,
    pub fault: Option<ScriptFault>,
}

/// The one number that is left.
fn only_number(words: Words<'_>) -> Result<u32, Cause>
    ensures { result ≡ only_number (lexical.words words.entry.rest.now) }
{
    wide(words.one()?)
}

/// What a line is that names a port by this number.
fn kind_of_number(number: Result<u32, Cause>) -> Kind
    ensures { result ≡ ports.kind_of_number number }
{
    match number {
        Ok(number) if number > 7 => Kind::Faulty(Cause::Number),
        Ok(number) => Kind::Names(number),
        Err(cause) => Kind::Faulty(cause),
    }
}

/// What a line is by its first word and those behind it.
#[tactic(auto, unfolding(crate::specs::Ports::kind_by))]
fn kind_by(word: &[u8], fields: Words<'_>) -> Kind
    ensures { result ≡ ports.kind_by (word.now ∷ lexical.words fields.entry.rest.now) }
{
    if word == b"port".as_slice() {
        kind_of_number(only_number(fields))
    } else {
        Kind::Says
    }
}

/// The same by the words that are left.
#[tactic(auto, unfolding(crate::specs::Ports::kind_by))]
fn kind_behind(mut words: Words<'_>) -> Kind
    ensures { result ≡ ports.kind_by (lexical.words words.entry.rest.now) }
{
    match words.next_word() {
        Some(word) => kind_by(word, words),
        None => Kind::Bare,
    }
}

/// The same by all words: a time may stand first.
#[tactic(auto, unfolding(crate::specs::Ports::kind_by, mscp_wire::specs::Log::without_time))]
fn kind_in(mut words: Words<'_>) -> Kind
    ensures { result ≡ ports.kind_by (without_time (lexical.words words.entry.rest.now)) }
{
    match words.next_word() {
        Some(word) if is_time(word) => kind_behind(words),
        Some(word) => kind_by(word, words),
        None => Kind::Bare,
    }
}

/// What the line of this number is.
#[tactic(auto, unfolding(crate::specs::Ports::line_kind))]
pub(crate) fn line_kind(number: u32, line: &[u8]) -> Kind
    requires { 1 ≤ number }
    ensures { result ≡ ports.line_kind number line.now }
{
    match words_of(number, line) {
        Ok(words) => kind_in(words),
        Err(fault) if fault.cause == Cause::Lines => Kind::Bare,
        Err(_) => Kind::Says,
    }
}

/// The same, which is found at once of an empty line: a log may have many.
#[tactic(auto, using(crate::proofs::Ported::kind_empty))]
fn quick_kind(number: u32, line: &[u8]) -> Kind
    requires { 1 ≤ number }
    ensures { result ≡ ports.line_kind number line.now }
{
    if line.is_empty() {
        return Kind::Bare;
    }
    line_kind(number, line)
}

/// Whether a line begins with the word `port`.
fn is_port(kind: Kind) -> bool
    ensures { result ≡ ports.is_port kind }
{
    matches!(kind, Kind::Names(_) | Kind::Faulty(_))
}

/// The port of the lines behind a line of this kind.
fn port_after(at: u32, kind: Kind) -> u32
    ensures { result ≡ ports.port_after at kind }
{
    match kind {
        Kind::Names(port) => port,
        _ => at,
    }
}

/// Whether one of these lines begins with the word `port`.
fn have_ports(lines: &mut Lines<'_>) -> bool
    requires { lines.old.number ≡ 0 }
    ensures { result ≡ ports.have_ports 0 (lexical.lines lines.old.rest.now) }
{
    while let Some(line) = lines.cut() {
        if is_port(line_kind(lines.number, line)) {
            return true;
        }
    }
    false
}

/// Whether a line of a log does, if the log isn't too large.
pub(crate) fn has_ports(log: &[u8]) -> bool
    ensures { result ≡ ports.has_ports log.now }
{
    match lines_of(log) {
        Ok(mut lines) => have_ports(&mut lines),
        Err(_) => false,
    }
}

/// Whether a line still has a carriage return at its end.
fn has_return(line: &[u8]) -> bool
    ensures { result ≡ ports.has_return line.now }
{
    !line.is_empty() && line[line.len() - 1] == b'\r'
}

/// Appends a line and its end.
fn put_line(log: &mut Vec<u8>, line: &[u8]) -> Result<(), AllocError>
    ensures { OnOk result (log.new.items ≡ log.old.items ++ ports.with_end line.now) }
{
    log.extend_from_slice(line)?;
    if has_return(line) {
        log.extend_from_slice(b"\r\n".as_slice())
    } else {
        log.extend_from_slice(b"\n".as_slice())
    }
}

/// The first fault of a line that names a port, once a line more was read.
fn fault_after(old: Option<ScriptFault>, number: u32, kind: Kind) -> Option<ScriptFault>
    ensures { result ≡ ports.fault_after old number kind }
{
    match (old, kind) {
        (None, Kind::Faulty(cause)) => Some(ScriptFault {
            line: number,
            cause,
        }),
        (old, _) => old,
    }
}

impl Section {
    /// Of no line.
    fn none(alloc: Global) -> Section
        ensures { ports.part_by result ≡ ports.no_part }
    {
        Section {
            log: Vec::new(alloc),
            numbers: Vec::new(alloc),
            occurs: false,
        }
    }

    /// The line of this number is one of the port.
    fn put(&mut self, number: u32, line: &[u8]) -> Result<(), AllocError>
        ensures { OnOk result (ports.part_by self.new ≡ ports.with_line number line.now (ports.part_by self.old)) }
    {
        put_line(&mut self.log, line)?;
        self.numbers.push(number)?;
        Ok(())
    }

    /// The same of one that shows that the port occurs.
    fn say(&mut self, number: u32, line: &[u8]) -> Result<(), AllocError>
        ensures { OnOk result (ports.part_by self.new
            ≡ ports.shown (ports.with_line number line.now (ports.part_by self.old))) }
    {
        self.put(number, line)?;
        self.occurs = true;
        Ok(())
    }
}

impl Sections {
    /// Of no line.
    fn none(alloc: Global) -> Result<Sections, AllocError>
        ensures long { IfOk result (λ sections. length sections.ports.items ≡ 8) }
        ensures parts { IfOk result (λ sections. (port : ℕ) → port < 8
            → ports.part_at sections.ports.items port ≡ ports.no_part) }
        ensures fault { IfOk result (λ sections. sections.fault ≡ None) }
    {
        let mut sections = Vec::new(alloc);
        for _port in 0..8u32 {
            sections.push(Section::none(alloc))?;
        }
        Ok(Sections {
            ports: sections,
            fault: None,
        })
    }

    /// Once the line of this number was read, which stands among those of a port.
    fn line(&mut self, at: u32, number: u32, kind: Kind, line: &[u8]) -> Result<(), AllocError>
        ensures parts { OnOk result ((port : ℕ) → port < length self.old.ports.items
            → ports.part_at self.new.ports.items port
            ≡ ports.part_after port at number kind line.now (ports.part_at self.old.ports.items port)) }
        ensures long { length self.new.ports.items ≡ length self.old.ports.items }
        ensures fault { self.new.fault ≡ ports.fault_after self.old.fault number kind }
    {
        self.fault = fault_after(self.fault, number, kind);
        match kind {
            Kind::Says if (at as usize) < self.ports.len() => {
                self.ports[at as usize].say(number, line)
            }
            Kind::Names(port) if (port as usize) < self.ports.len() => {
                self.ports[port as usize].occurs = true;
                Ok(())
            }
            _ => Ok(()),
        }
    }

    /// Behind the last line that is read, one is at fault at each port.
    fn end(&mut self) -> Result<(), AllocError>
        ensures parts { OnOk result ((port : ℕ) → port < length self.old.ports.items
            → ports.part_at self.new.ports.items port
            ≡ ports.with_line 1000001 (codes "?") (ports.part_at self.old.ports.items port)) }
        ensures long { OnOk result (length self.new.ports.items ≡ length self.old.ports.items) }
        ensures fault { self.new.fault ≡ self.old.fault }
    {
        for place in 0..self.ports.len() {
            self.ports[place].put(MOST_LINES + 1, b"?".as_slice())?;
        }
        Ok(())
    }

    /// Once all lines were read, of which there are so many.
    fn close(&mut self, count: u32) -> Result<(), AllocError>
        ensures parts { OnOk result ((port : ℕ) → port < length self.old.ports.items
            → ports.part_at self.new.ports.items port
            ≡ ports.part_end count (ports.part_at self.old.ports.items port)) }
        ensures long { OnOk result (length self.new.ports.items ≡ length self.old.ports.items) }
        ensures fault { self.new.fault ≡ self.old.fault }
    {
        if count > MOST_LINES {
            return self.end();
        }
        Ok(())
    }
}

/// What is known of each port by a log: one pass over it.
pub(crate) fn sections_of(alloc: Global, log: &[u8]) -> Result<Sections, OutOfMemory>
    requires { length log.now ≤ 16777216 }
    ensures { IfOk result (λ sections. ports.IsSorted log.now sections) }
{
    let mut lines = Lines::new(log);
    let mut sections = Sections::none(alloc)?;
    let mut at = 0;
    while let Some(line) = lines.cut() {
        let kind = quick_kind(lines.number, line);
        sections.line(at, lines.number, kind, line)?;
        at = port_after(at, kind);
    }
    sections.close(lines.number)?;
    Ok(sections)
}

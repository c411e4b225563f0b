//! Runs a script of commands through a disk controller and prints what the controller did, or shows a packet.
#![tactic(auto)]

use mscp_script::{Deed, Ending, Fault, Stream, choose, print_packet, simulate, words_fault};
use std::fs::File;
use std::io;
use std::io::Read;
use std::process::ExitCode;

/// The words of the command line, without the program's name. One that is no text is a wrong word.
fn words_of(rt: &HostRuntime) -> Result<Vec<String>, Fault> {
    let words = std::env::args(rt).map_err(|refusal| words_fault(refusal.kind()))?;
    Ok(words.skip(1).collect(rt.alloc())?)
}

/// Runs the script that a reader gives, and writes its report on standard output.
fn run<R: Read + Drop>(rt: &HostRuntime, reader: R) -> Result<(), Fault> {
    let mut reader = Stream::new(reader);
    let mut writer = Stream::new(io::writer(rt));
    Ok(simulate(rt.alloc(), &mut reader, &mut writer)?)
}

/// Does what the words of the command line ask for.
fn act(rt: &HostRuntime) -> Result<(), Fault> {
    let words = words_of(rt)?;
    match choose(&words)? {
        Deed::Run("-") => run(rt, rt.reader()),
        Deed::Run(file) => match File::open(rt, file) {
            Ok(reader) => run(rt, reader),
            Err(_) => Err(Fault::Open),
        },
        Deed::Packet(word) => {
            let mut writer = Stream::new(io::writer(rt));
            print_packet(rt.alloc(), word, &mut writer)
        }
    }
}

fn main(rt: HostRuntime) -> ExitCode {
    let ending = Ending::of(act(&rt));
    // There is nobody to tell where standard error can't be written.
    let _ = eprint!(rt; "{}", ending.line.as_str());
    ExitCode::from(ending.status)
}

//! The program `hpe`: it encodes transfer frames to slots, decodes counts and simulates links.
#![tactic(auto)]

mod decode;
mod encode;
mod ending;
mod geometry;
mod host;
mod open;
mod run;
mod simulate;
#[cfg(test)]
mod tests;
mod words;

use crate::ending::Ending;
use crate::run::run;
use hpe_io::{OsShelf, OsSink, OsSource};
use hpe_recv::OpenGate;
use std::env;
use std::io::ErrorKind;
use std::process::ExitCode;

fn main(rt: HostRuntime) -> ExitCode {
    let mut report = OsSink::new(rt.stderr());
    let words = match env::args(&rt) {
        Ok(args) => args.collect::<Vec<String>>(rt.alloc()),
        Err(error) if error.kind() == ErrorKind::OutOfMemory => {
            return ExitCode::from(Ending::NoMemory.end(&mut report).number());
        }
        Err(_) => Ok(Vec::new(rt.alloc())),
    };
    let Ok(words) = words else {
        return ExitCode::from(Ending::NoMemory.end(&mut report).number());
    };
    let mut shelf = OsShelf::new(&rt);
    let input = OsSource::new(rt.stdin());
    let mut output = OsSink::new(rt.stdout());
    let ended = run(
        &rt,
        &OpenGate,
        &words,
        &mut shelf,
        input,
        &mut output,
        &mut report,
    );
    ExitCode::from(ended.status.number())
}

//! Writes the recording file on standard input as one of the other edition, or each file of a stream. What fails is told on standard error, and so are a
//! refusal and what is wrong with the arguments; nothing else goes there.
#![tactic(auto)]

use run_editions::{Outcome, USAGE, run};
use std::io;
use std::io::Eprint;
use std::process::ExitCode;
use text_programs::options::arguments;

fn main(rt: HostRuntime) -> ExitCode {
    let args = match arguments(&rt) {
        Ok(args) => args,
        Err(stop) => return stop.tell(&rt, &USAGE),
    };
    match run(
        rt.alloc(),
        args.as_slice(),
        &mut rt.reader(),
        &mut io::writer(&rt),
    ) {
        Ok(Outcome::Done) => ExitCode::SUCCESS,
        Ok(Outcome::Refused(refusal)) => {
            let _told = eprintln!(rt; "refused {}", refusal.number());
            ExitCode::FAILURE
        }
        Err(stop) => stop.tell(&rt, &USAGE),
    }
}

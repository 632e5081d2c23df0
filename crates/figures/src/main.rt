//! Prints a line for each recording of the stream on standard input, what the depth stage saves of it in whole numbers, then one line for all of them. What fails
//! is told on standard error, and so is what is wrong with the arguments; nothing else goes there.
#![tactic(auto)]

use run_figures::{USAGE, run};
use std::io;
use std::process::ExitCode;
use text_programs::options::arguments;

fn main(rt: HostRuntime) -> ExitCode {
    let args = match arguments(&rt) {
        Ok(args) => args,
        Err(stop) => return stop.tell(&rt, &USAGE),
    };
    match run(
        rt.alloc(),
        args.as_slice(),
        &mut rt.reader(),
        &mut io::writer(&rt),
    ) {
        Ok(()) => ExitCode::SUCCESS,
        Err(stop) => stop.tell(&rt, &USAGE),
    }
}

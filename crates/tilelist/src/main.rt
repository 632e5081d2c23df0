//! Lists what a tile of the recording on standard input receives, or of each recording of a stream. What fails is told on standard error, and so is what is
//! wrong with the arguments; nothing else goes there.
#![tactic(auto)]

use run_tilelist::{USAGE, run};
use std::io;
use std::process::ExitCode;
use text_programs::options::arguments;

fn main(rt: HostRuntime) -> ExitCode {
    let args = match arguments(&rt) {
        Ok(args) => args,
        Err(stop) => return stop.tell(&rt, &USAGE),
    };
    match run(
        rt.alloc(),
        args.as_slice(),
        &mut rt.reader(),
        &mut io::writer(&rt),
    ) {
        Ok(()) => ExitCode::SUCCESS,
        Err(stop) => stop.tell(&rt, &USAGE),
    }
}

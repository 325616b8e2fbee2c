// Runs the lists of cases that its arguments name through the proved calls. It prints how many cases there are, how many of them
// came out otherwise than their line says, and a digest of all that was computed.
#![tactic(auto)]

mod case;
mod list;
mod words;

use case::Replay;
use std::rt::Files;
use std::{env, fs, io};

// A list that cannot be opened is told of, and the others are run.
fn run_file(rt: &(impl Files + Eprint), path: &str, replay: &mut Replay) -> io::Result<()> {
    match fs::open(rt, path) {
        Ok(mut file) => list::run(&mut file, replay),
        Err(e) => eprintln!(rt; "{path}: {e}"),
    }
}

fn main(rt: HostRuntime) -> io::Result<()> {
    let mut replay = Replay::new();
    for path in env::args(&rt)?.skip(1) {
        run_file(&rt, path.as_str(), &mut replay)?;
    }
    let Replay {
        cases,
        wrong,
        digest,
        ..
    } = replay;
    println!(rt; "cases\t{cases}")?;
    println!(rt; "wrong\t{wrong}")?;
    println!(rt; "digest\t{digest}")
}

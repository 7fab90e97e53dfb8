//! The program: its words, real files, standard output and threads, given to the call that does everything. It may
//! wait.
//!
//! Nothing is decided here but what the system's own answers mean: a word that isn't UTF-8 is a faulty command line,
//! and without memory for the words or the sinks the program ends as wherever memory runs out. No gate holds a live
//! run.
#![tactic(auto)]

ghost use Rattle.std.specs.Prelude.{◌≡◌, ◌≤◌, ◌⊎◌, IfErr, IfOk};

use cap_table::MOST_PAIRS;
use rx_sinks::{CaptureSink, Rack, RxSink};
use std::alloc::AllocError;
use std::env;
use std::io::ErrorKind;
use std::process::ExitCode;
use std::rt::Env;
use std::sync::Wait;
use std::thread::Threads;
use steer::Open;
use vnff_base::{DirShelf, FileOut, StdOut};
use vnff_run::{FAULTY_WORDS, NO_MEMORY, top};

/// The words behind the program's own name, or the exit status where there are none to run on.
fn words<R: Env + AllocGlobal>(rt: &R) -> Result<Vec<String>, u8>
    ensures { IfErr result (λ status. (status ≡ FAULTY_WORDS) ⊎ (status ≡ NO_MEMORY)) }
{
    match env::args(rt) {
        Ok(args) => args.skip(1).collect(rt.alloc()).map_err(|_| NO_MEMORY),
        Err(fault) if fault.kind() == ErrorKind::InvalidData => Err(FAULTY_WORDS),
        Err(_) => Err(NO_MEMORY),
    }
}

/// Runs the program over real files and standard output, and gives its exit status. The frames of queue Q go to the
/// file `rx-Q.pcap`, which is made or emptied when the first of its bytes is written. The workers of a live run get
/// their threads from `threads`.
fn run<T: Threads + Wait + Sync>(rt: &HostRuntime, threads: &T) -> Result<u8, AllocError>
    ensures { IfOk result (λ status. status ≤ 5) }
{
    let words = match words(rt) {
        Ok(words) => words,
        Err(status) => return Ok(status),
    };
    // A sink for each queue that a device may have.
    let mut sinks: Vec<Box<dyn RxSink>> = Vec::new(rt.alloc());
    for queue in 0..MOST_PAIRS {
        let name = format!(in rt.alloc(); "rx-{queue}.pcap")?;
        let sink = CaptureSink::new(FileOut::new(rt.clone()?, name));
        sinks.push(Box::new(rt.alloc(), sink)?)?;
    }
    Ok(top(
        threads,
        rt.alloc(),
        words.as_slice(),
        &mut DirShelf::new(rt),
        &mut StdOut::new(rt),
        &mut Rack::new(sinks),
        &Open,
    ))
}

fn main(rt: HostRuntime) -> ExitCode {
    ExitCode::from(run(&rt, &rt).unwrap_or(NO_MEMORY))
}

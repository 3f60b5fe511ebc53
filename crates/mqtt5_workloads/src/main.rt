//! Jobs that users wait for, as a benchmark runs them: `mqtt5_workloads JOB SEED ROUNDS` prints a digest of all that the
//! calls answered. The input is made from the seed; the job `all` is each of them.
#![tactic(auto)]

mod calls;
mod digest;
mod frames;
mod made;
mod network;
mod publisher;
mod random;
mod recorder;
mod routing;
mod subscriber;
mod taking_up;

use mqtt5_client::StateError;
use std::alloc::Global;
use std::env::Env;
use std::process::ExitCode;
use std::{env, io};

const JOBS: [&str; 6] = [
    "subscriber",
    "publisher",
    "taking_up",
    "recorder",
    "routing",
    "network",
];

fn run_job(alloc: Global, job: &str, seed: u64, rounds: usize) -> Result<u64, StateError> {
    match job {
        "subscriber" => subscriber::subscriber(alloc, seed, rounds),
        "publisher" => publisher::publisher(alloc, seed, rounds),
        "taking_up" => taking_up::taking_up(alloc, seed, rounds),
        "recorder" => Ok(recorder::recorder(alloc, seed, rounds)?),
        "routing" => routing::routing(alloc, seed, rounds),
        "network" => network::network(alloc, seed, rounds),
        _ => Err(StateError::InvalidState),
    }
}

/// Runs a job and prints its digest; answers whether it ended well.
fn print_job<R: Print + AllocGlobal>(
    rt: &R,
    job: &str,
    seed: u64,
    rounds: usize,
) -> io::Result<bool> {
    match run_job(rt.alloc(), job, seed, rounds) {
        Ok(digest) => {
            println!(rt; "{job} {digest:016x}")?;
            Ok(true)
        }
        Err(fault) => {
            println!(rt; "{job} stopped: {fault}")?;
            Ok(false)
        }
    }
}

fn print_jobs<R: Print + AllocGlobal>(
    rt: &R,
    word: &str,
    seed: u64,
    rounds: usize,
) -> io::Result<bool> {
    if word != "all" {
        return print_job(rt, word, seed, rounds);
    }
    let mut all = true;
    for job in JOBS {
        all = print_job(rt, job, seed, rounds)? && all;
    }
    Ok(all)
}

/// Runs what the words say.
fn run<R: Print + Env + AllocGlobal>(rt: &R) -> io::Result<bool> {
    let words: Vec<String> = env::args(rt)?.skip(1).collect(rt.alloc())?;
    match words.as_slice() {
        [job, seed, rounds] => match (seed.parse::<u32>(), rounds.parse::<u32>()) {
            (Ok(seed), Ok(rounds)) => print_jobs(
                rt,
                job.as_str(),
                u64::from(seed),
                rounds as usize,
            ),
            _ => Ok(false),
        },
        _ => Ok(false),
    }
}

fn main(rt: HostRuntime) -> ExitCode {
    match run(&rt) {
        Ok(true) => ExitCode::SUCCESS,
        _ => ExitCode::from(1),
    }
}

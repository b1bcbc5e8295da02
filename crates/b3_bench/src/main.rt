//! `b3_bench JOB SEED SIZE`: work for a stopwatch, over inputs that depend on the seed alone.
//!
//! JOB is `tree`, `objects`, `pieces`, `long`, `workers`, `lines`, or `all` for one after the other. A line is printed
//! for each: its name, and the digest of all that it computed.
#![tactic(auto)]

mod asked;
mod check_lines;
mod jobs;
mod names;
mod objects;
mod random;
mod results;
mod streams;
mod supply;
mod tree;
mod tree_shelf;
mod workers;

use anyhow::Result;
use asked::{Asked, asked_for};
use jobs::{JOBS, Job};
use random::Random;
use std::process::ExitCode;
use std::sync::Wait;
use std::thread::Threads;
use supply::random_bytes;

const USAGE: &str =
    "usage: b3_bench tree|objects|pieces|long|workers|lines|all SEED SIZE, two numbers below 2^32";

fn main(rt: HostRuntime) -> ExitCode {
    let Some(asked) = asked_for(&rt) else {
        let _ = rt.eprintln(USAGE);
        return ExitCode::from(2);
    };
    match run(&rt, asked) {
        Ok(()) => ExitCode::SUCCESS,
        Err(error) => {
            let _ = eprintln!(rt; "b3_bench: {error}");
            ExitCode::FAILURE
        }
    }
}

/// Does what is asked for.
fn run<R: AllocGlobal + Print + Threads + Wait + Sync>(rt: &R, asked: Asked) -> Result<()> {
    let seed = asked.seed as u64;
    let bytes = random_bytes(rt.alloc(), &mut Random::new(seed))?;
    match asked.job {
        Some(job) => print_result(rt, job, bytes.as_slice(), seed, asked.size as u64)?,
        None => {
            for job in JOBS {
                print_result(rt, job, bytes.as_slice(), seed, asked.size as u64)?;
            }
        }
    }
    Ok(())
}

/// Does a job, and prints its line.
fn print_result<R: AllocGlobal + Print + Threads + Wait + Sync>(
    rt: &R,
    job: Job,
    bytes: &[u8],
    seed: u64,
    size: u64,
) -> Result<()> {
    let digest = job.run(rt, rt.alloc(), bytes, seed, size)?;
    let mut line = String::from_str(rt.alloc(), job.name())?;
    line.push(' ')?;
    for byte in digest {
        write!(line, "{byte:02x}")?;
    }
    rt.println(line.as_str())?;
    Ok(())
}

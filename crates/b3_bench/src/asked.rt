//! What the words of a call ask for.

use crate::jobs::{JOBS, Job};
use std::env::args;
use std::rt::Env;

/// A job, or none for all of them, its seed and its size.
#[derive(Clone, Copy)]
pub struct Asked {
    pub job: Option<Job>,
    pub seed: u32,
    pub size: u32,
}

/// What is asked for, or nothing where the words are wrong.
pub fn asked_for<R: Env + AllocGlobal>(rt: &R) -> Option<Asked> {
    let mut words = args(rt).ok()?;
    words.next()?;
    let job = words.next()?;
    let seed = words.next()?.parse::<u32>().ok()?;
    let size = words.next()?.parse::<u32>().ok()?;
    let job = match job.as_str() {
        "all" => None,
        name => Some(job_of(name)?),
    };
    match words.next() {
        Some(_) => None,
        None => Some(Asked { job, seed, size }),
    }
}

/// The job of a name.
fn job_of(name: &str) -> Option<Job> {
    for job in JOBS {
        if job.name() == name {
            return Some(job);
        }
    }
    None
}

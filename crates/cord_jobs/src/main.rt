//! The jobs that people wait for, each on inputs that it makes of a number: `cord_jobs JOB SEED [SCALE]`, where the
//! last word says how large they are (100). It prints how many bytes came of a job and a digest of them, and no times;
//! with no words it runs each job on small inputs. bench/workloads.txt has the jobs, docs/PERF.md what they take.
#![tactic(auto)]

mod chance;
mod checks;
mod digest;
mod finds;
mod image;
mod images;
mod kept;
mod keys;
mod lines;
mod script;
mod searches;
mod sessions;

use crate::chance::Chance;
use crate::checks::{check_bytes, check_texts};
use crate::digest::Digest;
use crate::finds::find_texts;
use crate::kept::keep_sessions;
use crate::keys::press_keys;
use crate::lines::press_in_lines;
use crate::searches::search_texts;
use crate::sessions::{change_anywhere, type_keys};
use anyhow::{Result, bail};
use std::alloc::Global;
use std::env;

/// How large the inputs are: of a timed job, and of a small one.
const FULL: u64 = 100;

const SMALL: u64 = 1;

/// All jobs.
const JOBS: [&str; 9] = [
    "type", "anywhere", "check", "bytes", "keys", "search", "finds", "kept", "lines",
];

/// Does a job, and digests what comes of it.
fn work(alloc: Global, job: &str, seed: u32, scale: u64, digest: &mut Digest) -> Result<()> {
    let mut chance = Chance::new(seed);
    match job {
        "type" => type_keys(alloc, &mut chance, scale, digest),
        "anywhere" => change_anywhere(alloc, &mut chance, scale, digest),
        "check" => check_texts(alloc, &mut chance, scale, digest),
        "bytes" => check_bytes(alloc, &mut chance, scale, digest),
        "keys" => press_keys(alloc, &mut chance, scale, digest),
        "search" => search_texts(alloc, &mut chance, scale, digest),
        "finds" => find_texts(alloc, &mut chance, scale, digest),
        "kept" => keep_sessions(alloc, &mut chance, scale, digest),
        "lines" => press_in_lines(alloc, &mut chance, scale, digest),
        _ => bail!("there is no such job"),
    }
}

/// Does a job, and prints its digest.
fn run(rt: &HostRuntime, job: &str, seed: u32, scale: u64) -> Result<()> {
    let mut digest = Digest::new();
    work(rt.alloc(), job, seed, scale, &mut digest)?;
    let (count, value) = (digest.count(), digest.value());
    println!(rt; "{job} {count} bytes {value:016x}")?;
    Ok(())
}

fn main(rt: HostRuntime) -> Result<()> {
    let mut words = env::args(&rt)?;
    let (job, seed, scale) = (words.nth(1), words.next(), words.next());
    match (job, seed) {
        (Some(job), Some(seed)) => {
            let seed: u32 = seed.as_str().parse()?;
            let scale = match scale {
                Some(scale) => scale.as_str().parse()?,
                None => FULL,
            };
            run(&rt, job.as_str(), seed, scale)
        }
        _ => {
            for job in JOBS {
                run(&rt, job, 1, SMALL)?;
            }
            Ok(())
        }
    }
}

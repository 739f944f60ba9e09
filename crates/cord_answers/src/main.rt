//! What calls answer, on inputs that it makes of numbers: `cord_answers GROUP SEED CASES`
//! prints so many cases of a group, from that seed on, each in lines that a script compares
//! with those of another build. With no words it prints some cases of each group but frames.
#![tactic(auto)]

mod chance;
mod commands;
mod device;
mod digest;
mod frames;
mod images;
mod joins;
mod numbers;
mod places;
mod plans;
mod report;
mod rows;
mod texts;
mod turns;

use crate::chance::Chance;
use crate::frames::frames;
use crate::images::images;
use crate::joins::joins;
use crate::numbers::numbers;
use crate::places::places;
use crate::report::Report;
use crate::rows::rows;
use anyhow::{Result, bail};
use byte_output::write_bytes;
use std::alloc::Global;
use std::{env, io};

/// The groups but frames, each with the first seed and how many cases are printed where there are no words.
const FIXED: [(&str, u64, u64); 5] = [
    ("joins", 1, 10),
    ("rows", 0, 6),
    ("images", 0, 4),
    ("numbers", 20, 4),
    ("places", 0, 12),
];

/// A case of a group.
fn answer(alloc: Global, group: &str, seed: u64, report: &mut Report) -> Result<()> {
    report.words(group)?;
    report.entry(" ", seed)?;
    match group {
        "frames" => frames(alloc, &mut Chance::new(1, seed), seed, report),
        "joins" => joins(alloc, &mut Chance::new(2, seed), seed, report),
        "rows" => rows(alloc, &mut Chance::new(3, seed), report),
        "images" => images(alloc, &mut Chance::new(4, seed), report),
        "numbers" => numbers(alloc, &mut Chance::new(5, seed), seed, report),
        "places" => places(alloc, &mut Chance::new(6, seed), report),
        _ => bail!("there is no such group"),
    }
}

/// Prints so many cases of a group, from a seed on.
fn run(rt: &HostRuntime, group: &str, seed: u64, cases: u64) -> Result<()> {
    for k in 0..cases {
        let mut report = Report::new(rt.alloc());
        answer(rt.alloc(), group, seed.saturating_add(k), &mut report)?;
        if write_bytes(&mut io::writer(rt), report.bytes()).is_err() {
            bail!("the answers were not written");
        }
    }
    Ok(())
}

fn main(rt: HostRuntime) -> Result<()> {
    let mut words = env::args(&rt)?;
    let (group, seed, cases) = (words.nth(1), words.next(), words.next());
    match (group, seed, cases) {
        (Some(group), Some(seed), Some(cases)) => {
            let (seed, cases): (u64, u64) = (seed.as_str().parse()?, cases.as_str().parse()?);
            run(&rt, group.as_str(), seed, cases)
        }
        _ => {
            for (group, seed, cases) in FIXED {
                run(&rt, group, seed, cases)?;
            }
            Ok(())
        }
    }
}

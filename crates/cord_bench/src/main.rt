//! Times what runs often. The numbers differ from run to run, so they go to standard error. With the word `image` it
//! writes an image to standard output instead, with `keys` it times the editor, with `store` a million of each of the
//! store's operations, with `many` many replacements by one command, and with `calls` small calls that are made again
//! and again. With `limits` it fills a store and a pool, and tells on standard output how each refuses more.
#![tactic(auto)]

mod balancing;
mod calls;
mod images;
mod keys;
mod limits;
mod pool;
mod replacing;
mod ropes;
mod searching;
mod sessions;

use anyhow::Result;
use std::env;

fn main(rt: HostRuntime) -> Result<()> {
    match env::args(&rt)?.nth(1) {
        Some(word) if word.as_str() == "image" => images::write_image(&rt),
        Some(word) if word.as_str() == "keys" => keys::time(&rt),
        Some(word) if word.as_str() == "store" => time_store(&rt),
        Some(word) if word.as_str() == "many" => replacing::time(&rt),
        Some(word) if word.as_str() == "calls" => calls::time(&rt),
        Some(word) if word.as_str() == "limits" => limits::tell(&rt),
        _ => time(&rt),
    }
}

fn time_store(rt: &HostRuntime) -> Result<()> {
    ropes::time_appends(rt)?;
    ropes::time_joins(rt)?;
    ropes::time_substrings(rt)?;
    ropes::time_fetches(rt)?;
    ropes::time_walks(rt)?;
    balancing::time_balance(rt)?;
    searching::time(rt)
}

fn time(rt: &HostRuntime) -> Result<()> {
    pool::time(rt)?;
    balancing::time(rt)?;
    sessions::time(rt)
}

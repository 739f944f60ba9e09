//! Tests of sessions and their images by the public calls of the crates below.
#![tactic(auto)]

#[cfg(test)]
mod calls;

//! Tests of the crates that make and read ropes, by their public
//! calls: in a crate above them, so that each is proved once.
#![tactic(auto)]

#[cfg(test)]
mod calls;

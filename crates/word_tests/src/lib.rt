//! Tests of the command line by its public call, in a crate above it, so that it is proved once.
#![tactic(auto)]

#[cfg(test)]
mod explained;
#[cfg(test)]
mod read;

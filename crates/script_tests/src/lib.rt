//! Tests of scripts by the public calls of the crates below. The
//! values that a test wants are worked by hand from the grammar.
#![tactic(auto)]

#[cfg(test)]
mod blames;
#[cfg(test)]
mod commits;
#[cfg(test)]
mod lines;
#[cfg(test)]
mod logs;
#[cfg(test)]
mod onto;
#[cfg(test)]
mod serving;
#[cfg(test)]
mod tools;

//! Runs of calls of which one may be refused memory. It is made again then, and what was there before it still is.
#![tactic(auto)]

#[cfg(test)]
mod commits;
#[cfg(test)]
mod editors;
#[cfg(test)]
mod fakes;
#[cfg(test)]
mod files;
#[cfg(test)]
mod keeping;
#[cfg(test)]
mod kept;
#[cfg(test)]
mod onto;
#[cfg(test)]
mod pools;
#[cfg(test)]
mod refusals;
#[cfg(test)]
mod ropes;
#[cfg(test)]
mod runs;
#[cfg(test)]
mod saved;
#[cfg(test)]
mod scripts;
#[cfg(test)]
mod searches;
#[cfg(test)]
mod sessions;
#[cfg(test)]
mod stores;
#[cfg(test)]
mod tools;
#[cfg(test)]
mod words;

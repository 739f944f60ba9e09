//! Tests of the tools and of the editor by their public calls, in a crate above them, so that each is proved once.
#![tactic(auto)]

#[cfg(test)]
mod devices;
#[cfg(test)]
mod editor;
#[cfg(test)]
mod fakes;
#[cfg(test)]
mod frames;
#[cfg(test)]
mod going_on;
#[cfg(test)]
mod images;
#[cfg(test)]
mod keys;
#[cfg(test)]
mod long_lines;
#[cfg(test)]
mod places;
#[cfg(test)]
mod same;
#[cfg(test)]
mod saved;
#[cfg(test)]
mod tools;
#[cfg(test)]
mod typed;

//! What the bytes of a source come from: a file that is read in place, or bytes that were read of what tells no size.
#![tactic(auto)]

mod device;

pub use device::SourceDevice;

//! Source texts that a rope's leaves read from: in memory, and of devices such as files.
#![tactic(auto)]

mod device;
mod device_blocks;
mod faults;
mod file_device;
mod file_sources;
mod filling;
mod kept_blocks;
mod mem_sources;
mod refused;
mod sources;

pub use device::{Device, DeviceError};
pub use faults::{AddFault, SourceFault};
pub use file_device::FileDevice;
pub use file_sources::FileSources;
pub use kept_blocks::BLOCK_SIZE;
pub use mem_sources::MemSources;
pub use refused::Refused;
pub use sources::{COUNT_LIMIT, SOURCE_LIMIT, Sources};

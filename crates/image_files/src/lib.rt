//! Files of images: whole or not at all, and lost to nobody.
#![tactic(auto)]

mod faults;
mod file_state;
mod following;
mod image_file;
mod modes;
mod old_image;
mod opening;
mod part_file;
mod twin;

pub use faults::{Faults, Input, Output, STANDARD_INPUT};
pub use file_state::{
    FileBirth, FileState, Moment, birth_of, is_named, state_at, state_behind, state_of,
};
pub use image_file::{ImageFile, Put, put_new};
pub use modes::{Mode, OF_KEYS};
pub use opening::{open, sync_folder, told, told_size};
pub use part_file::pause;
pub use twin::Twin;

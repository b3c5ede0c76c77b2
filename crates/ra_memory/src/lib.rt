//! The image of the machine's memory, read by counted steps.
#![tactic(auto)]

mod counted;
mod image;
mod memory;
mod out_of_range;
mod steps;

pub use counted::Counted;
pub use image::Image;
pub use memory::Memory;
pub use out_of_range::OutOfRange;
pub use steps::Steps;

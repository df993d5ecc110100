//! The image of an executable: what its segments and the areas of the conventions map before the first instruction, and
//! the bytes that no store changes.
#![tactic(auto)]

mod areas;
mod copies;
mod fault;
mod freezing;
mod image;
mod making;
mod mapping;

pub use fault::ImageFault;
pub use image::Image;
pub use making::make_image;

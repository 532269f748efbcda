//! Objects as one image: linked by name, laid out, and written as the memory that a run begins with.
#![tactic(auto)]

mod frames;
mod image;
mod image_words;
mod linking;
mod memory;

pub use image::Image;
pub use linking::link;

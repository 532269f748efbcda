//! How many bytes an image has.
#![tactic(auto)]

mod adding;
mod classes;
mod start;
mod types;
mod whole;

pub use whole::image_size;

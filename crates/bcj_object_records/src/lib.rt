//! The record of a class in an object: what linking and running read of it.
#![tactic(auto)]

mod descriptors;
mod entries;
mod heads;
mod members;
mod record;

pub use record::class_record;

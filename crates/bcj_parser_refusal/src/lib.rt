//! What a refused token is named by: its place in the text, and the left-out construct that it stands for.
#![tactic(auto)]

mod left_out;
mod place;

pub use left_out::construct_at;
pub use place::place_of;

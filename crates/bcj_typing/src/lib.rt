//! The typing of a source unit (JLS 6, 8, 13.1, 14, 15): its symbolic unit, or why there is none.
#![tactic(auto)]

mod elaborating;
mod limits;
mod places;
mod stop;

pub use bcj_typing_rules::Kind;
pub use elaborating::elaborate;
pub use stop::{Limited, TypeStop};

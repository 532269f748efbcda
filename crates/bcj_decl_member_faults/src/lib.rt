//! Whether a member of a source type is at fault (JLS 8.3, 8.4, 8.8, 9.3, 9.4), in any world.
#![tactic(auto)]

mod again;
mod earlier;
mod inherited;
mod known;
mod member;
mod method;
mod modifier;
mod names;
mod twice;
mod wrong;

pub use member::{Context, MemberRefusal, member_refusal};
pub use names::MemberNames;

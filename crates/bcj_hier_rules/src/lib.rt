//! A mixture of classes as definitions: what loads, what a reference names, which method a call takes, and which classes link (JVMS 5.3.5,
//! 5.4.3, 5.4.4, 5.4.6; JLS 12.2, 12.3).
#![tactic(auto)]

mod call_kind;
mod class_id;
mod link_error;

pub use call_kind::CallKind;
pub use class_id::ClassId;
pub use link_error::LinkError;

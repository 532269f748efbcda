//! The types of the declared world with their heads and members (JLS 8, 9), made from the boot unit and from source units.
#![tactic(auto)]

mod boot;
mod info;
mod member;
mod source;
mod spelling;

pub use boot::boot_types;
pub use info::{FieldInfo, FieldInfos, MethodInfo, MethodInfos, TypeInfo, TypeInfos};
pub use source::{push_unit, type_info};
pub use spelling::{param_types, type_of};

//! What stands in one byte.

use bcj_symbolic_trees::MethodKind;

/// The flags of a class.
#[derive(Clone, Copy)]
pub struct ClassFlags {
    pub interface: bool,
    pub is_abstract: bool,
}

/// The flags of a field.
#[derive(Clone, Copy)]
pub struct FieldFlags {
    pub is_static: bool,
    pub is_final: bool,
    pub is_private: bool,
    pub is_constant: bool,
}

/// The kind of a method, and whether it is private.
#[derive(Clone, Copy)]
pub struct MethodCode {
    pub kind: MethodKind,
    pub is_private: bool,
}

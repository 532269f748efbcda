use bcj_names::Name;

/// What a type's name has before its brackets; `Void` stands only as a result.
#[derive(Drop)]
pub enum Base {
    Int,
    Bool,
    Void,
    Named(Name),
}

/// A type's name (JLS 4.3) with the number of its pairs of brackets.
#[derive(Drop)]
pub struct TypeName {
    pub base: Base,
    pub dims: u32,
}

/// The access of a member (JLS 6.6); `Open` where none is written.
#[derive(Clone, Copy)]
pub enum Access {
    Open,
    Public,
    Protected,
    Private,
}

/// The modifiers of a member (JLS 8.3.1, 8.4.3).
#[derive(Clone, Copy)]
pub struct Mods {
    pub access: Access,
    pub is_static: bool,
    pub is_abstract: bool,
    pub is_final: bool,
}

/// A formal parameter (JLS 8.4.1).
#[derive(Drop)]
pub struct Param {
    pub ty: TypeName,
    pub name: Name,
}

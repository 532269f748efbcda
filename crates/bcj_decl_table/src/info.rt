use bcj_names::Name;
use bcj_symbolic_trees::{ClassHead, MethodKind, Sequence, Ty, Types};

/// A field with the type that declares it. A constant variable has its value in `constant`, a boolean one as 0 or 1.
#[derive(Drop)]
pub struct FieldInfo {
    pub class: Name,
    pub name: Name,
    pub ty: Ty,
    pub is_static: bool,
    pub is_final: bool,
    pub is_private: bool,
    pub constant: Option<i32>,
}

/// A method or constructor with the type that declares it. The name of a constructor is `<init>`.
#[derive(Drop)]
pub struct MethodInfo {
    pub class: Name,
    pub name: Name,
    pub params: Types,
    pub result: Ty,
    pub kind: MethodKind,
    pub is_private: bool,
}

pub type FieldInfos = Sequence<FieldInfo>;

pub type MethodInfos = Sequence<MethodInfo>;

/// A class or interface with its members, constructors before methods, both in text order.
#[derive(Drop)]
pub struct TypeInfo {
    pub head: ClassHead,
    pub fields: FieldInfos,
    pub methods: MethodInfos,
}

pub type TypeInfos = Sequence<TypeInfo>;

use bcj_hier_rules::ClassId;

/// A field, by its number in the record of the class that declares it.
#[derive(Clone, Copy)]
pub struct FieldId {
    pub class: ClassId,
    pub field: u32,
}

/// A method or constructor, by its number in the record of the class that declares it.
#[derive(Clone, Copy)]
pub struct MethodId {
    pub class: ClassId,
    pub method: u32,
}

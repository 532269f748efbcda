use bcj_hier_rules::ClassId;

/// Where a field is that a reference names: the class that declares it, and the address of a static field, or the offset in bytes of
/// another one in an object.
#[derive(Clone, Copy)]
pub struct FieldPlace {
    pub class: ClassId,
    pub at: u32,
}

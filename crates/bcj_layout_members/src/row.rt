use bcj_hier_rules::ClassId;

/// What is kept of a type: by `start` and `end` the slots that it has beside its superclass's, how many it has with those, and
/// its fields.
#[derive(Clone, Copy)]
pub struct Row {
    pub done: bool,
    pub parent: Option<ClassId>,
    pub depth: u32,
    pub before: u32,
    pub total: u32,
    pub start: usize,
    pub end: usize,
    pub fields_before: u32,
    pub fields: u32,
}

/// What a type has of its superclass, and how many steps it is below the top at most.
#[derive(Clone, Copy)]
pub struct Above {
    pub depth: u32,
    pub slots: u32,
    pub fields: u32,
}

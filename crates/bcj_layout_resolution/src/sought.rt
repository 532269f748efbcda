/// Which methods a search takes.
#[derive(Clone, Copy)]
pub(crate) enum Sought {
    /// Those of a name and a descriptor.
    Method,
    /// Of these, those that are neither static nor private.
    Open,
    /// The constructors of a descriptor.
    Constructor,
}

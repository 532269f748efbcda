/// How a method is called, but for calls by interface.
#[derive(Clone, Copy)]
pub enum CallKind {
    /// A static method.
    Static,
    /// An instance method, selected by the class of its target.
    Instance,
    /// A method of the superclass, or of the class itself, as it is named.
    Special,
    /// A constructor.
    Constructor,
}

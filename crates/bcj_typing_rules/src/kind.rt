/// What a node of a body lacks, in the order that decides where it lacks several.
#[derive(Clone, Copy)]
pub enum Kind {
    /// A name of a variable or a type that there is (JLS 6.5).
    Name,
    /// A method or constructor that applies (JLS 15.12.2).
    Method,
    /// A most specific one among those that apply (JLS 15.12.2.5).
    Ambiguous,
    /// Operands that the operator takes (JLS 15.15 to 15.25).
    Operand,
    /// A value that the variable or the result takes (JLS 5.2, 5.3).
    Assign,
    /// A variable that may be assigned here (JLS 4.12.4, 8.3.1.2).
    Final,
    /// A static member, or a place that has `this` (JLS 8.1.3, 15.8.3).
    Static,
    /// A class of which there are objects, or a method with a body (JLS 15.9.1, 15.12.3).
    Abstract,
    /// A type that can be cast to the other (JLS 5.5).
    Cast,
    /// A condition that is boolean (JLS 14.9, 14.12 to 14.14, 15.25).
    Condition,
    /// A value exactly where there is a result (JLS 14.17).
    Return,
    /// A local's name that no local in scope has (JLS 6.4, 14.4.2).
    Local,
    /// A loop around it (JLS 14.15, 14.16).
    Jump,
    /// A literal in the range of its type (JLS 3.10.1).
    Literal,
    /// A type that can be thrown (JLS 14.18, 14.20).
    Throwable,
    /// A field that isn't another type's own (JLS 6.6.1).
    Access,
}

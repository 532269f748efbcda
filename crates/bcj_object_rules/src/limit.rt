/// The numbers of a unit that have a limit.
#[derive(Clone, Copy, Debug)]
pub enum ObjectLimit {
    /// The words of a frame.
    Frame,
    /// The words of a method's code.
    Method,
    /// The bytes of the object file.
    Object,
}

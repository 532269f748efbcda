/// The numbers of a method that have a limit.
#[derive(Clone, Copy, Debug)]
pub enum Limit {
    /// The words of its frame.
    Frame,
    /// The words of its code.
    Method,
}

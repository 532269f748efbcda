/// Where a throw goes on.
#[derive(Clone, Copy)]
pub enum Unwound {
    /// In a handler.
    Handler {
        /// The handler's address.
        pc: u32,
        /// The frame of its method.
        sp: u32,
        /// How many frames were given up.
        depth: u32,
    },
    /// Nowhere: no range in any frame takes it.
    Top,
    /// Nowhere: a frame lies outside the memory or belongs to no method.
    Damaged,
}

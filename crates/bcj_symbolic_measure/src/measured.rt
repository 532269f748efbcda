//! The numbers that a measure gives.

/// The words of the largest frame and of the largest method, and the bytes of the object. A number stands at the last
/// value of its type where it passes that.
#[derive(Debug, Clone, Copy)]
pub struct Measure {
    pub frame: u32,
    pub method: u32,
    pub object: u64,
}

/// The words of a body's frame and of its code with all jumps long, each at the last value of its type where it passes that.
#[derive(Debug, Clone, Copy)]
pub struct BodySize {
    pub frame: u32,
    pub words: u32,
}

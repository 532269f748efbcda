use bcj_edge::Bytes;
use bcj_layout::Layout;

/// The memory that a run begins with, and what it must know of it. Places count bytes.
#[derive(Drop)]
pub struct Image {
    /// All words from address 0 on: the image, the heap and the stack.
    pub memory: Bytes,
    pub layout: Layout,
    /// The address of the start code.
    pub start: u32,
    /// The end of what a run may not write.
    pub read_only: u32,
    /// The words of the start code and of all methods.
    pub words: u32,
    pub heap_at: u32,
    /// The words of the heap.
    pub heap_words: u32,
    /// The bound on the depth of calls.
    pub depth: u32,
}

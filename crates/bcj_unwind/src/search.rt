ghost use Rattle.std.specs.Prelude.{◌≡◌, ◌+◌, ◌*◌, ◌%◌, ◌^◌, ◌≤◌, ◌<◌, None, length, map};
ghost use Rattle.std.specs.List.{All, find as found};
ghost use Rattle.std.specs.Option.{option_map};
ghost use Rattle.bcj_hier_rules.specs.Heads.{of_heads, IsIn, name_of};
ghost use Rattle.bcj_hier_rules.specs.Loading.{load_error};
ghost use Rattle.bcj_hier_rules.specs.Loading as loading;
ghost use Rattle.bcj_linker_rules.specs.Frames as frame;
ghost use Rattle.bcj_unwind.specs.Orders.{AreInOrder};
ghost use Rattle.bcj_unwind.specs.Spans.{AreOf, IsOf, range_of, spans_of, outcome_of};
ghost use Rattle.bcj_unwind.specs.Looks.{IsLook};

use crate::ranges::{AddressRange, MethodRanges, Ranges, is_in, method_at};
use crate::unwound::Unwound;
use bcj_hier::Hier;
use bcj_hier_rules::ClassId;

/// The bytes of a word.
const WORD_SIZE: u32 = 4;

/// A method's frame, with the place in its code.
#[derive(Clone, Copy)]
struct Frame {
    pc: u32,
    sp: u32,
}

/// What a frame does with a throw.
#[derive(Clone, Copy)]
enum Look {
    /// It is the start code's, which takes none.
    Start,
    /// It lies nowhere.
    Nowhere,
    /// It goes on at this address.
    Target(u32),
    /// It leaves the throw to the frame that called it.
    Caller(Frame),
}

/// A class that doesn't load has no object.
fn is_below(hier: &Hier, class: ClassId, bound: ClassId) -> bool
    requires there { IsIn hier.now class × IsIn hier.now bound }
    requires loads { load_error (of_heads hier.now) (name_of hier.now class) ≡ None }
    ensures { result ≡ loading.is_below (of_heads hier.now) (name_of hier.now class) (name_of hier.now bound) }
{
    match hier.load(bound) {
        Ok(()) => hier.is_subclass(class, bound),
        Err(_) => false,
    }
}

fn takes(hier: &Hier, class: ClassId, pc: u32, range: AddressRange) -> bool
    requires there { IsIn hier.now class × IsOf hier.now range }
    requires loads { load_error (of_heads hier.now) (name_of hier.now class) ≡ None }
    ensures { result ≡ frame.takes (of_heads hier.now) (name_of hier.now class) pc (range_of hier.now range) }
{
    if !is_in(range.start, range.end, pc) {
        return false;
    }
    match range.class {
        None => true,
        Some(bound) => is_below(hier, class, bound),
    }
}

/// The handler of the first range that takes the throw.
fn target_in(ranges: &[AddressRange], hier: &Hier, class: ClassId, pc: u32) -> Option<u32>
    requires there { IsIn hier.now class × All (IsOf hier.now) ranges.now }
    requires loads { load_error (of_heads hier.now) (name_of hier.now class) ≡ None }
    ensures { result ≡ option_map (λ r. r.target) (found (frame.takes (of_heads hier.now) (name_of hier.now class) pc) (map (range_of hier.now) ranges.now)) }
{
    for range in ranges {
        if takes(hier, class, pc, *range) {
            return Some(range.target);
        }
    }
    None
}

/// Whether the word that a frame begins with lies in the memory.
fn is_held(memory: &[u8], sp: u32) -> bool
    ensures { result ≡ frame.is_held memory.now sp }
{
    sp as usize + WORD_SIZE as usize <= memory.len()
}

/// The frame that called one of so many words, by the return address that it saved, which lies behind the call.
fn caller_of(memory: &[u8], sp: u32, words: u32) -> Frame
    requires { sp + WORD_SIZE ≤ length memory.now }
    ensures place { result.pc ≡ frame.caller_place memory.now sp }
    ensures sp { result.sp ≡ (sp + WORD_SIZE * words) % 2 ^ 32 }
{
    let at = sp as usize;
    let back = u32::from_le_bytes([memory[at], memory[at + 1], memory[at + 2], memory[at + 3]]);
    let size = u64::from(WORD_SIZE) * u64::from(words);
    Frame {
        pc: back.wrapping_sub(WORD_SIZE),
        sp: ((u64::from(sp) + size) % (1 << 32)) as u32,
    }
}

/// What the frame at a place does with a throw.
fn look_at(ranges: &Ranges, hier: &Hier, memory: &[u8], class: ClassId, frame: Frame) -> Look
    requires order { AreInOrder ranges.now.methods }
    requires there { IsIn hier.now class × AreOf hier.now ranges.now.methods }
    requires loads { load_error (of_heads hier.now) (name_of hier.now class) ≡ None }
    ensures { IsLook (of_heads hier.now) (name_of hier.now class) (spans_of hier.now ranges.now) memory.now frame result }
{
    if is_in(ranges.start, ranges.end, frame.pc) {
        return Look::Start;
    }
    let Some(method) = method_at(&ranges.methods, frame.pc) else {
        return Look::Nowhere;
    };
    if !is_held(memory, frame.sp) {
        return Look::Nowhere;
    }
    match target_in(method.ranges.as_slice(), hier, class, frame.pc) {
        Some(target) => Look::Target(target),
        None => Look::Caller(caller_of(memory, frame.sp, method.frame)),
    }
}

/// Where an object of this class, thrown at `pc` in the frame at `sp`, goes on: at the first range that takes it, from the frame whose code
/// threw to those that called it.
pub fn find(
    ranges: &Ranges,
    hier: &Hier,
    memory: &[u8],
    pc: u32,
    sp: u32,
    class: ClassId,
) -> Unwound
    requires order { AreInOrder ranges.now.methods }
    requires there { IsIn hier.now class }
    requires classes { AreOf hier.now ranges.now.methods }
    requires loads { load_error (of_heads hier.now) (name_of hier.now class) ≡ None }
    requires room { length memory.now < 2 ^ 32 }
    ensures { outcome_of result ≡ frame.unwound (of_heads hier.now) (name_of hier.now class) (spans_of hier.now ranges.now) memory.now pc sp }
{
    let mut frame = Frame { pc, sp };
    for depth in 0..=memory.len() {
        match look_at(ranges, hier, memory, class, frame) {
            Look::Start => return Unwound::Top,
            Look::Nowhere => return Unwound::Damaged,
            Look::Target(pc) => {
                return Unwound::Handler {
                    pc,
                    sp: frame.sp,
                    depth: depth as u32,
                };
            }
            Look::Caller(caller) => frame = caller,
        }
    }
    Unwound::Damaged
}

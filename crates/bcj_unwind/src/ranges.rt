ghost use Rattle.std.specs.Prelude.{◌≡◌, ◌≤◌, ◌<◌, length};
ghost use Rattle.std.specs.List.{AllWithin, find};
ghost use Rattle.std.specs.Option.{option_copied};
ghost use Rattle.bcj_linker_rules.specs.Frames as frame;
ghost use Rattle.bcj_unwind.specs.Orders.{AreInOrder};

use bcj_hier_rules::ClassId;
use bcj_symbolic_trees::Sequence;

/// Code by addresses, and where a throw there goes on.
#[derive(Clone, Copy)]
pub struct AddressRange {
    /// The address of the first instruction.
    pub start: u32,
    /// The address behind the last instruction.
    pub end: u32,
    /// The handler's address.
    pub target: u32,
    /// The class of the objects that are taken; none takes any.
    pub class: Option<ClassId>,
}

/// A method's code and its ranges.
#[derive(Drop)]
pub struct MethodRanges {
    /// The address of the first instruction.
    pub first: u32,
    /// The address behind the last instruction.
    pub past: u32,
    /// The words of its frame.
    pub frame: u32,
    /// In the order of its record.
    pub ranges: Sequence<AddressRange>,
}

/// The code of a linked program.
#[derive(Drop)]
pub struct Ranges {
    /// The address of the start code.
    pub start: u32,
    /// The address behind the start code.
    pub end: u32,
    /// In order of address.
    pub methods: Sequence<MethodRanges>,
}

/// Whether an address lies in code from `first` up to `past`.
pub fn is_in(first: u32, past: u32, pc: u32) -> bool
    ensures { result ≡ frame.is_in first past pc }
{
    first <= pc && pc < past
}

/// The place of the first method that ends behind an address.
fn place_ahead(methods: &[MethodRanges], pc: u32) -> usize
    requires { AreInOrder methods.now }
    ensures passed { AllWithin (λ m. m.past ≤ pc) methods.now 0 result }
    ensures ahead { AllWithin (λ m. pc < m.past) methods.now result (length methods.now) }
{
    methods.partition_point(|m| m.past <= pc)
}

/// The method with the instruction at an address.
pub fn method_at(methods: &Sequence<MethodRanges>, pc: u32) -> Option<&MethodRanges>
    requires { AreInOrder methods.now }
    ensures { option_copied result ≡ find (λ m. frame.is_in m.first m.past pc) methods.now }
{
    match methods.get(place_ahead(methods.as_slice(), pc)) {
        Some(method) if method.first <= pc => Some(method),
        _ => None,
    }
}

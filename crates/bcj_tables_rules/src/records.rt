//! What a class keeps for linking and running: its members, the code of its methods, and the tables of what its code names.

use bcj_symbolic_trees::{ClassHead, MethodKind, Name, Sequence};

/// A field. `ty` is its descriptor (JVMS 4.3.2). The value of a constant is 0 where it is none.
#[derive(Drop)]
pub struct FieldRecord {
    pub name: Name,
    pub ty: Name,
    pub is_static: bool,
    pub is_final: bool,
    pub is_private: bool,
    pub is_constant: bool,
    pub value: u32,
}

/// The class initialiser, a constructor or a method. `desc` is its descriptor (JVMS 4.3.3), `entry` the offset of its code
/// in `.text`, and `words` and `frame` count the words of its code and of its frame; an abstract method has 0 in all three.
#[derive(Drop)]
pub struct MethodRecord {
    pub name: Name,
    pub desc: Name,
    pub kind: MethodKind,
    pub is_private: bool,
    pub entry: u32,
    pub words: u32,
    pub frame: u32,
}

/// The code from `start` to `end` of the method with this number, and where it goes on when an object of `class` is thrown
/// there; `None` is any class. The three are offsets in `.text`.
#[derive(Drop)]
pub struct Range {
    pub method: u32,
    pub start: u32,
    pub end: u32,
    pub target: u32,
    pub class: Option<Name>,
}

/// A subtype step that typing of the class used, by the descriptors of both types.
#[derive(Drop)]
pub struct PairRecord {
    pub from: Name,
    pub to: Name,
}

/// A type that the code names: by `is_new` to make an object of it.
#[derive(Drop)]
pub struct CEntry {
    pub is_new: bool,
    pub ty: Name,
}

/// A member whose offset the code asks for: an instance method or a field.
#[derive(Drop)]
pub struct OEntry {
    pub is_method: bool,
    pub class: Name,
    pub name: Name,
    pub desc: Name,
}

/// What an address is that the code asks for.
#[derive(Clone, Copy)]
pub enum AEntryKind {
    /// Of a static field.
    Field,
    /// Of a static method.
    StaticMethod,
    /// Of a constructor or of a method that `super` names.
    Special,
}

/// A member whose address the code asks for.
#[derive(Drop)]
pub struct AEntry {
    pub kind: AEntryKind,
    pub class: Name,
    pub name: Name,
    pub desc: Name,
}

/// A method that the code calls through an interface.
#[derive(Drop)]
pub struct IEntry {
    pub class: Name,
    pub name: Name,
    pub desc: Name,
}

pub type FieldRecords = Sequence<FieldRecord>;

pub type MethodRecords = Sequence<MethodRecord>;

pub type Ranges = Sequence<Range>;

pub type PairRecords = Sequence<PairRecord>;

pub type CEntries = Sequence<CEntry>;

pub type OEntries = Sequence<OEntry>;

pub type AEntries = Sequence<AEntry>;

pub type IEntries = Sequence<IEntry>;

pub type ClassRecords = Sequence<ClassRecord>;

/// A class or interface. `table` is the offset of its tables in `.bcj.tab`.
#[derive(Drop)]
pub struct ClassRecord {
    pub head: ClassHead,
    pub fields: FieldRecords,
    pub methods: MethodRecords,
    pub ranges: Ranges,
    pub pairs: PairRecords,
    pub ctable: CEntries,
    pub otable: OEntries,
    pub atable: AEntries,
    pub itable: IEntries,
    pub table: u32,
}

/// The classes of an object. Version 2 can say that a member is private.
#[derive(Drop)]
pub struct Records {
    pub version: u32,
    pub classes: ClassRecords,
}

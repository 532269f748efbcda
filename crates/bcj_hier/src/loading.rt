//! Which types load (JVMS 5.3.5), found out in rounds over the types that are still open, and which interfaces those implement.

ghost use Rattle.std.specs.Prelude.{◌≡◌, ◌<◌, ◌≤◌, ◌||◌, ◌&&◌, ◌==◌, ℕ, true, false, None, Some, not, length, map, slice_get, slice_set, take, count_by, IfOk};
ghost use Rattle.std.specs.List.{list_any};
ghost use Rattle.bcj_symbolic_trees.specs.declared.class_tree.ClassHead.{ClassHead as Head};
ghost use Rattle.bcj_hier_rules.specs.Heads.{AreDistinct};
ghost use Rattle.bcj_hier.specs.Numbers.{interface_at, all_parts, parts_of, names_of};
ghost use Rattle.bcj_hier.specs.Rows.{has, has_at, part_has};
ghost use Rattle.bcj_hier.specs.Loads as spec;

use crate::parts::{Part, Parts, parts_at};
use crate::rows::Row;
use bcj_hier_rules::LinkError;
use bcj_symbolic_trees::ClassHead;
use std::alloc::{AllocError, Global};

/// How far the loading of a type has come.
#[derive(Clone, Copy)]
pub enum Progress {
    /// So many parts load, and are of their kinds.
    Open(usize),
    /// Why it doesn't load, or that it does.
    Known(Option<LinkError>),
}

/// What a part does to the loading of its type.
#[derive(Clone, Copy)]
pub enum Outcome {
    Passes,
    Waits,
    Fails(LinkError),
}

/// Whether the type of a number is an interface.
pub fn is_interface_at(heads: &[ClassHead], place: usize) -> bool
    ensures { result ≡ interface_at heads.now place }
{
    match heads.get(place) {
        None => false,
        Some(head) => head.interface,
    }
}

/// What a part does that is of a kind, where it is to be of another or the same, by what is known of it.
fn outcome_at(interface: bool, wanted: bool, state: Option<Progress>) -> Outcome
    ensures { result ≡ spec.outcome_at interface wanted state }
{
    match state {
        None | Some(Progress::Open(_)) => Outcome::Waits,
        Some(Progress::Known(Some(error))) => Outcome::Fails(error),
        Some(Progress::Known(None)) => {
            if interface == wanted {
                Outcome::Passes
            } else {
                Outcome::Fails(LinkError::IncompatibleClassChange)
            }
        }
    }
}

/// What a part does, by what is known.
fn step(heads: &[ClassHead], states: &[Progress], part: Part) -> Outcome
    ensures { result ≡ spec.outcome heads.now states.now part }
{
    match part.place {
        None => Outcome::Fails(LinkError::NoClassDefFound),
        Some(place) => outcome_at(
            is_interface_at(heads, place),
            part.interface,
            states.get(place).copied(),
        ),
    }
}

/// How far a type comes, of which so many parts are passed.
fn take_on(heads: &[ClassHead], states: &[Progress], parts: &[Part], passed: usize) -> Progress
    requires known { spec.AreKnown heads.now states.now }
    requires passed { spec.ArePassing heads.now states.now (take passed parts.now) }
    requires within { passed ≤ length parts.now }
    ensures { spec.Progresses heads.now states.now parts.now result }
{
    for at in passed..parts.len() {
        match step(heads, states, parts[at]) {
            Outcome::Passes => {}
            Outcome::Waits => return Progress::Open(at),
            Outcome::Fails(error) => return Progress::Known(Some(error)),
        }
    }
    Progress::Known(None)
}

fn put_part(row: &mut Row, rows: &[Row], part: Part)
    ensures { (i : ℕ) → has row.new i ≡ (has row.old i || part_has rows.now i part) }
{
    if let Some(place) = part.place {
        if let Some(other) = rows.get(place) {
            row.put_all(other);
        }
    }
}

/// The interfaces that a type implements, by those of its parts.
fn row_of(rows: &[Row], number: usize, interface: bool, parts: &[Part]) -> Row
    requires { number < 4096 }
    ensures { (i : ℕ) → i < 4096 → has result i ≡ (interface && i == number || list_any (part_has rows.now i) parts.now) }
{
    let mut row = Row::new();
    if interface {
        row.put(number);
    }
    for part in parts {
        put_part(&mut row, rows, *part);
    }
    row
}

/// Whether it is known now that a type loads.
fn is_loaded(next: Progress) -> bool
    ensures { result ≡ spec.is_loaded next }
{
    match next {
        Progress::Known(None) => true,
        Progress::Known(Some(_)) | Progress::Open(_) => false,
    }
}

fn is_open(next: Progress) -> bool
    ensures { result ≡ spec.is_open next }
{
    match next {
        Progress::Open(_) => true,
        Progress::Known(_) => false,
    }
}

/// What is known of each type.
#[derive(Drop)]
pub struct Loading {
    pub states: Vec<Progress>,
    pub rows: Vec<Row>,
}

impl Loading {
    fn new(alloc: Global, count: usize) -> Result<Loading, AllocError>
        ensures states { IfOk result (λ l. (length l.states.items ≡ count) × ((k : ℕ) → k < count → slice_get l.states.items k ≡ Some (Progress.Open 0))) }
        ensures rows { IfOk result (λ l. length l.rows.items ≡ count) }
    {
        Ok(Loading {
            states: vec![in alloc; Progress::Open(0); count]?,
            rows: vec![in alloc; Row::new(); count]?,
        })
    }

    /// Writes the row of a type that loads.
    fn put_row(&mut self, heads: &[ClassHead], parts: &[Part], number: usize, next: Progress)
        requires few { length heads.now ≤ 4096 }
        requires within { number < length heads.now }
        requires count { length self.old.rows.items ≡ length heads.now }
        requires parts { (h : Head) → slice_get heads.now number ≡ Some h → parts.now ≡ parts_of (names_of heads.now) h }
        ensures states { self.new.states ≡ self.old.states }
        ensures rows { (h : Head) → slice_get heads.now number ≡ Some h → spec.AreRows heads.now self.old.rows.items self.new.rows.items number h next }
    {
        if is_loaded(next) {
            let row = row_of(&self.rows, number, is_interface_at(heads, number), parts);
            self.rows[number] = row;
        }
    }

    /// Notes how far a type has come, and answers whether that is known now.
    fn note(&mut self, heads: &[ClassHead], parts: &[Part], number: usize, next: Progress) -> bool
        requires distinct { AreDistinct heads.now }
        requires few { length heads.now ≤ 4096 }
        requires within { number < length heads.now }
        requires parts { (h : Head) → slice_get heads.now number ≡ Some h → parts.now ≡ parts_of (names_of heads.now) h }
        requires open { spec.open_at (spec.opens_of self.old.states.items) number ≡ true }
        requires sound { spec.IsSound heads.now self.old.states.items self.old.rows.items }
        requires next { spec.Progresses heads.now self.old.states.items parts.now next }
        ensures sound { spec.IsSound heads.now self.new.states.items self.new.rows.items }
        ensures state { self.new.states.items ≡ slice_set self.old.states.items number next }
        ensures open { spec.is_open next ≡ not result }
    {
        self.put_row(heads, parts, number, next);
        self.states[number] = next;
        !is_open(next)
    }

    /// How many parts of a type are passed, where it is open.
    fn passed_at(&self, number: usize) -> Option<usize>
        ensures { result ≡ spec.passed_by (slice_get self.now.states.items number) }
    {
        match self.states.get(number).copied() {
            Some(Progress::Open(passed)) => Some(passed),
            None | Some(Progress::Known(_)) => None,
        }
    }

    /// Takes a type on, and answers whether it became known.
    fn visit(&mut self, heads: &[ClassHead], parts: &[Part], number: usize) -> bool
        requires distinct { AreDistinct heads.now }
        requires few { length heads.now ≤ 4096 }
        requires within { number < length heads.now }
        requires parts { (h : Head) → slice_get heads.now number ≡ Some h → parts.now ≡ parts_of (names_of heads.now) h }
        requires sound { spec.IsSound heads.now self.old.states.items self.old.rows.items }
        ensures sound { spec.IsSound heads.now self.new.states.items self.new.rows.items }
        ensures visited { spec.IsVisited heads.now self.old.states.items self.new.states.items number result }
    {
        match self.passed_at(number) {
            None => false,
            Some(passed) => {
                let next = take_on(heads, &self.states, parts, passed);
                self.note(heads, parts, number, next)
            }
        }
    }

    /// Takes each type on, and answers whether one became known.
    fn round(&mut self, heads: &[ClassHead], parts: &[Parts]) -> bool
        requires distinct { AreDistinct heads.now }
        requires few { length heads.now ≤ 4096 }
        requires parts { parts.now ≡ all_parts heads.now }
        requires sound { spec.IsSound heads.now self.old.states.items self.old.rows.items }
        ensures sound { spec.IsSound heads.now self.new.states.items self.new.rows.items }
        ensures settled { result ≡ false → (k : ℕ) → spec.IsSettled heads.now (spec.opens_of self.new.states.items) k }
        ensures fewer { result ≡ true → count_by spec.is_open self.new.states.items < count_by spec.is_open self.old.states.items }
    {
        let mut changed = false;
        for number in 0..heads.len() {
            if self.visit(heads, parts_at(parts, number), number) {
                changed = true;
            }
        }
        changed
    }
}

/// Goes on until a round changes nothing: what is open then stands on a circle, or above one.
fn run(alloc: Global, heads: &[ClassHead], parts: &[Parts]) -> Result<Loading, AllocError>
    requires distinct { AreDistinct heads.now }
    requires few { length heads.now ≤ 4096 }
    requires parts { parts.now ≡ all_parts heads.now }
    ensures sound { IfOk result (λ l. spec.IsSound heads.now l.states.items l.rows.items) }
    ensures settled { IfOk result (λ l. (k : ℕ) → spec.IsSettled heads.now (spec.opens_of l.states.items) k) }
{
    let mut loading = Loading::new(alloc, heads.len())?;
    while loading.round(heads, parts) {}
    Ok(loading)
}

/// Why a type doesn't load, where no type comes any further.
fn final_error(state: &Progress) -> Option<LinkError>
    ensures { result ≡ spec.final_error state.now }
{
    match state {
        Progress::Open(_) => Some(LinkError::ClassCircularity),
        Progress::Known(answer) => *answer,
    }
}

fn errors_of(alloc: Global, states: &[Progress]) -> Result<Vec<Option<LinkError>>, AllocError>
    ensures { IfOk result (λ errors. errors.items ≡ map spec.final_error states.now) }
{
    states.iter().map(final_error).collect(alloc)
}

/// Of each type why it doesn't load, and which interfaces those that load implement.
#[derive(Drop)]
pub struct Loaded {
    pub errors: Vec<Option<LinkError>>,
    pub rows: Vec<Row>,
}

/// Which types load.
pub fn load_all(alloc: Global, heads: &[ClassHead], parts: &[Parts]) -> Result<Loaded, AllocError>
    requires distinct { AreDistinct heads.now }
    requires few { length heads.now ≤ 4096 }
    requires parts { parts.now ≡ all_parts heads.now }
    ensures { IfOk result (λ l. spec.IsLoaded heads.now l.errors.items l.rows.items) }
{
    let Loading { states, rows } = run(alloc, heads, parts)?;
    let errors = errors_of(alloc, &states)?;
    Ok(Loaded { errors, rows })
}

ghost use Rattle.std.specs.Prelude.{◌≡◌, ◌<◌, ℕ, [], None, IfOk, OnOk, length, replicate};
ghost use Rattle.bcj_decl_constants.specs.Waiting.{AllAt, Has, IsDone, IsListed, IsSound, IsAhead, IsStep, Orderly, Places, list_at};
ghost use Rattle.bcj_decl_constants.specs.declared.waiting.Waiter.{Waiter};
ghost use Rattle.bcj_decl_constants.specs.Books.{IsBook, worth_in, state_of};

use crate::book::{Book, needs_at, worth};
use crate::numbers::value_at;
use crate::search::FieldSearch;
use crate::waiting::{Waiter, Waiters, first_unknown, put_waiter, take_waiters};
use bcj_decl_rules::Value;
use bcj_symbolic_trees::Sequence;
use std::alloc::{AllocError, Global};

/// What is known so far, the fields that wait for each field, and the fields that have a value but whose list of those that wait
/// is still to be gone through.
#[derive(Drop)]
pub struct Work {
    pub values: Vec<Option<Value>>,
    pub waiting: Vec<Waiters>,
    pub found: Vec<usize>,
}

/// A field whose needs are all known gets its value, if it has one.
fn give<L: FieldSearch>(
    book: &Book,
    search: &L,
    work: &mut Work,
    number: usize,
) -> Result<(), AllocError>
    requires book { IsBook (L.world search.now) book.now }
    requires sound { IsSound (worth_in (L.world search.now) book.now) work.old.values.items }
    requires orderly { Orderly book.now.needs.items (state_of work.old) }
    requires below { number < length book.now.needs.items }
    requires known { AllAt work.old.values.items (list_at book.now.needs.items number) }
    ensures step { OnOk result (IsStep (worth_in (L.world search.now) book.now) book.now.needs.items (state_of work.old) (state_of work.new)) }
    ensures placed { OnOk result (Places (worth_in (L.world search.now) book.now) book.now.needs.items (state_of work.new) number) }
{
    match value_at(work.values.as_slice(), number) {
        Some(_) => Ok(()),
        None => match worth(book, search, work.values.as_slice(), number) {
            None => Ok(()),
            Some(value) => {
                work.values[number] = Some(value);
                work.found.push(number)?;
                Ok(())
            }
        },
    }
}

/// Looks at a field again: it gets its value, or waits for the next need, or has no value.
pub fn look<L: FieldSearch>(
    book: &Book,
    search: &L,
    work: &mut Work,
    waiter: Waiter,
) -> Result<(), AllocError>
    requires book { IsBook (L.world search.now) book.now }
    requires sound { IsSound (worth_in (L.world search.now) book.now) work.old.values.items }
    requires orderly { Orderly book.now.needs.items (state_of work.old) }
    requires ahead { IsAhead book.now.needs.items work.old.values.items waiter }
    ensures step { OnOk result (IsStep (worth_in (L.world search.now) book.now) book.now.needs.items (state_of work.old) (state_of work.new)) }
    ensures placed { OnOk result (Places (worth_in (L.world search.now) book.now) book.now.needs.items (state_of work.new) waiter.field) }
{
    let needs = needs_at(book, waiter.field);
    match first_unknown(needs, waiter.next, work.values.as_slice()) {
        Some((next, need)) => {
            let field = waiter.field;
            put_waiter(&mut work.waiting, need, Waiter { field, next })?;
            Ok(())
        }
        None => give(book, search, work, waiter.field),
    }
}

/// Looks at all fields of a list of those that wait.
fn go_through<L: FieldSearch>(
    book: &Book,
    search: &L,
    work: &mut Work,
    list: &[Waiter],
) -> Result<(), AllocError>
    requires book { IsBook (L.world search.now) book.now }
    requires sound { IsSound (worth_in (L.world search.now) book.now) work.old.values.items }
    requires orderly { Orderly book.now.needs.items (state_of work.old) }
    requires ahead { (x : Waiter) → Has list.now x → IsAhead book.now.needs.items work.old.values.items x }
    ensures step { OnOk result (IsStep (worth_in (L.world search.now) book.now) book.now.needs.items (state_of work.old) (state_of work.new)) }
    ensures placed { OnOk result ((n : ℕ) → IsListed list.now n → Places (worth_in (L.world search.now) book.now) book.now.needs.items (state_of work.new) n) }
{
    for waiter in list {
        look(book, search, work, *waiter)?;
    }
    Ok(())
}

/// Goes through the lists of all fields that got a value.
fn go_on<L: FieldSearch>(
    alloc: Global,
    book: &Book,
    search: &L,
    work: &mut Work,
) -> Result<(), AllocError>
    requires book { IsBook (L.world search.now) book.now }
    requires sound { IsSound (worth_in (L.world search.now) book.now) work.old.values.items }
    requires orderly { Orderly book.now.needs.items (state_of work.old) }
    requires placed { (n : ℕ) → n < length book.now.needs.items → Places (worth_in (L.world search.now) book.now) book.now.needs.items (state_of work.old) n }
    ensures { OnOk result (IsDone (worth_in (L.world search.now) book.now) (length book.now.needs.items) work.new.values.items) }
{
    'lists: loop {
        match work.found.pop() {
            None => return Ok(()),
            Some(number) => {
                let list = take_waiters(alloc, &mut work.waiting, number);
                go_through(book, search, work, list.as_slice())?;
            }
        }
    }
}

/// No value is known, and no field waits.
fn start(alloc: Global, count: usize) -> Result<Work, AllocError>
    ensures values { IfOk result (λ work. work.values.items ≡ replicate count None) }
    ensures waiting { IfOk result (λ work. work.waiting.items ≡ replicate count []) }
    ensures found { IfOk result (λ work. work.found.items ≡ []) }
{
    let mut values = Vec::new(alloc);
    let mut waiting = Vec::new(alloc);
    for number in 0..count {
        values.push(None)?;
        waiting.push(Sequence::new(alloc))?;
    }
    let found = Vec::new(alloc);
    Ok(Work {
        values,
        waiting,
        found,
    })
}

/// The values of all constant fields by their numbers.
pub fn values_of<L: FieldSearch>(
    alloc: Global,
    book: &Book,
    search: &L,
) -> Result<Vec<Option<Value>>, AllocError>
    requires { IsBook (L.world search.now) book.now }
    ensures { IfOk result (λ values. IsDone (worth_in (L.world search.now) book.now) (length book.now.needs.items) values.items) }
{
    let mut work = start(alloc, book.needs.len())?;
    for number in 0..book.needs.len() {
        let waiter = Waiter {
            field: number,
            next: 0,
        };
        look(book, search, &mut work, waiter)?;
    }
    go_on(alloc, book, search, &mut work)?;
    let Work { values, .. } = work;
    Ok(values)
}

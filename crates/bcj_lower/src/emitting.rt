//! The code of bodies, one behind the other.

ghost use Rattle.std.specs.Prelude.{◌≡◌, List, map, IfOk, OnOk};
ghost use Rattle.bcj_symbolic_measure.specs.Entries.{PlainEntry};
ghost use Rattle.bcj_lower_rules.specs.Bodies.{without_code};
ghost use Rattle.bcj_lower_bodies.specs.Views.{body_of};
ghost use Rattle.bcj_lower.specs.function.Tables.{tables_in, tables_of};
ghost use Rattle.bcj_lower.specs.function.Emitted.{no_parts, parts_in, with_bodies, with_body};

use crate::assembling::place;
use crate::code::{CodeRange, CodeRelocation, MethodCode};
use crate::numbers::{bytes, narrow};
use crate::ranges::push_ranges;
use crate::relocations::push_relocations;
use crate::tables::Tables;
use bcj_lower_bodies::{BodyCode, BodyLines};
use std::alloc::{AllocError, Global};

/// What bodies have become.
#[derive(Drop)]
pub struct Emitted<'a> {
    pub words: Vec<u32>,
    pub relocs: Vec<CodeRelocation>,
    pub methods: Vec<MethodCode>,
    pub ranges: Vec<CodeRange<'a>>,
}

impl<'a> Emitted<'a> {
    fn new(alloc: Global) -> Emitted<'a>
        ensures { parts_in result ≡ no_parts }
    {
        Emitted {
            words: Vec::new(alloc),
            relocs: Vec::new(alloc),
            methods: Vec::new(alloc),
            ranges: Vec::new(alloc),
        }
    }

    /// Adds a body without code.
    fn skip(&mut self) -> Result<(), AllocError>
        ensures { OnOk result ((uses : List PlainEntry) → parts_in self.new ≡ with_body uses (parts_in self.old) without_code) }
    {
        self.methods.push(MethodCode {
            entry: 0,
            words: 0,
            frame: 0,
        })?;
        Ok(())
    }

    /// Adds the code of a body.
    fn add_code(
        &mut self,
        alloc: Global,
        tables: &Tables<'a>,
        body: &BodyLines<'a>,
    ) -> Result<(), AllocError>
        ensures { OnOk result ((uses : List PlainEntry) → tables_in tables.now ≡ tables_of uses
            → parts_in self.new ≡ with_body uses (parts_in self.old) (body_of (BodyCode.WithCode body.now))) }
    {
        let lines = body.lines.as_slice();
        let placed = place(alloc, lines)?;
        let start = self.words.len();
        let method = narrow(self.methods.len())?;
        push_relocations(
            tables,
            start,
            lines,
            placed.places.as_slice(),
            &mut self.relocs,
        )?;
        push_ranges(
            &placed.labels,
            method,
            start,
            body.ranges.as_slice(),
            &mut self.ranges,
        )?;
        self.methods.push(MethodCode {
            entry: bytes(start)?,
            words: narrow(placed.code.len())?,
            frame: u32::from(body.frame),
        })?;
        self.words.extend_from_slice(placed.code.as_slice())?;
        Ok(())
    }

    fn add(
        &mut self,
        alloc: Global,
        tables: &Tables<'a>,
        body: &BodyCode<'a>,
    ) -> Result<(), AllocError>
        ensures { OnOk result ((uses : List PlainEntry) → tables_in tables.now ≡ tables_of uses
            → parts_in self.new ≡ with_body uses (parts_in self.old) (body_of body.now)) }
    {
        match body {
            BodyCode::WithoutCode => self.skip(),
            BodyCode::WithCode(body) => self.add_code(alloc, tables, body),
        }
    }
}

/// The code of bodies with the tables of what they use.
pub fn emit<'a>(
    alloc: Global,
    tables: &Tables<'a>,
    bodies: &[BodyCode<'a>],
) -> Result<Emitted<'a>, AllocError>
    ensures { IfOk result (λ e. (uses : List PlainEntry) → tables_in tables.now ≡ tables_of uses
        → parts_in e ≡ with_bodies uses no_parts (map body_of bodies.now)) }
{
    let mut emitted = Emitted::new(alloc);
    for body in bodies {
        emitted.add(alloc, tables, body)?;
    }
    Ok(emitted)
}

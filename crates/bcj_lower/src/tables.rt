//! The four tables of a class's region.
#![tactic(auto, using(crate::proofs::Rules::table_rules))]

ghost use Rattle.std.specs.Prelude.{◌≡◌, map, IfOk, OnOk};
ghost use Rattle.bcj_symbolic_measure.specs.function.Counts.{entry_of};
ghost use Rattle.bcj_symbolic_measure.specs.function.Noted.{noted_in};
ghost use Rattle.bcj_lower_rules.specs.Classes.{address_uses, all_uses, body_uses, line_uses, number_in, relocated_uses};
ghost use Rattle.bcj_lower_words.specs.Views.{address_of, line_of};
ghost use Rattle.bcj_lower_bodies.specs.Views.{body_of};
ghost use Rattle.bcj_lower.specs.function.Tables as spec;

use crate::numbers::{bytes, plus};
use bcj_lower_bodies::BodyCode;
use bcj_lower_words::{Address, Line};
use bcj_symbolic_measure::{Entry, EntryTable, Role};
use std::alloc::{AllocError, Global};

/// The word of the class initialiser, before the class table.
const CLASS_START: usize = 1;

#[derive(Drop)]
pub struct Tables<'a> {
    pub classes: EntryTable<'a>,
    pub offsets: EntryTable<'a>,
    pub addresses: EntryTable<'a>,
    pub interfaces: EntryTable<'a>,
}

/// The number of an entry, and how many there are for one that isn't there.
fn number_in<'a>(table: &EntryTable<'a>, used: Entry<'a>) -> usize
    ensures { result ≡ number_in (entry_of used.entry) (noted_in table.now) }
{
    table.number(used).unwrap_or(table.len())
}

impl<'a> Tables<'a> {
    fn new(alloc: Global) -> Tables<'a>
        ensures { spec.tables_in result ≡ spec.no_tables }
    {
        Tables {
            classes: EntryTable::new(alloc),
            offsets: EntryTable::new(alloc),
            addresses: EntryTable::new(alloc),
            interfaces: EntryTable::new(alloc),
        }
    }

    /// Notes the use of an entry.
    fn note(&mut self, used: Entry<'a>) -> Result<(), AllocError>
        ensures { OnOk result (spec.tables_in self.new ≡ spec.with_use (spec.tables_in self.old) (entry_of used.entry)) }
    {
        match used.role {
            Role::Row | Role::New => self.classes.note(used),
            Role::FieldOffset | Role::MethodOffset => self.offsets.note(used),
            Role::FieldAddress | Role::StaticMethod | Role::SpecialMethod => {
                self.addresses.note(used)
            }
            Role::InterfaceMethod => self.interfaces.note(used),
        }
    }

    fn note_address(&mut self, address: Address<'a>) -> Result<(), AllocError>
        ensures { OnOk result (spec.tables_in self.new ≡ spec.with_uses (spec.tables_in self.old) (address_uses (address_of address.entry))) }
    {
        match address {
            Address::Region => Ok(()),
            Address::Entry(used) => self.note(used),
        }
    }

    fn note_line(&mut self, line: &Line<'a>) -> Result<(), AllocError>
        ensures { OnOk result (spec.tables_in self.new ≡ spec.with_uses (spec.tables_in self.old) (relocated_uses (line_of line.now).relocated)) }
    {
        match line.relocated {
            None => Ok(()),
            Some(relocated) => self.note_address(relocated.address),
        }
    }

    fn note_lines(&mut self, lines: &[Line<'a>]) -> Result<(), AllocError>
        ensures { OnOk result (spec.tables_in self.new ≡ spec.with_uses (spec.tables_in self.old) (line_uses (map line_of lines.now))) }
    {
        for line in lines {
            self.note_line(line)?;
        }
        Ok(())
    }

    fn note_body(&mut self, body: &BodyCode<'a>) -> Result<(), AllocError>
        ensures { OnOk result (spec.tables_in self.new ≡ spec.with_uses (spec.tables_in self.old) (body_uses (body_of body.now))) }
    {
        match body {
            BodyCode::WithoutCode => Ok(()),
            BodyCode::WithCode(code) => self.note_lines(code.lines.as_slice()),
        }
    }

    /// The first word of the region's table of offsets, and so on.
    fn offset_start(&self) -> Result<usize, AllocError>
        ensures { IfOk result (λ n. n ≡ spec.offset_start (spec.tables_in self.now)) }
    {
        plus(CLASS_START, self.classes.len())
    }

    fn address_start(&self) -> Result<usize, AllocError>
        ensures { IfOk result (λ n. n ≡ spec.address_start (spec.tables_in self.now)) }
    {
        plus(self.offset_start()?, self.offsets.len())
    }

    fn interface_start(&self) -> Result<usize, AllocError>
        ensures { IfOk result (λ n. n ≡ spec.interface_start (spec.tables_in self.now)) }
    {
        plus(self.address_start()?, self.addresses.len())
    }

    /// The word of an entry in the region.
    fn place(&self, used: Entry<'a>) -> Result<usize, AllocError>
        ensures { IfOk result (λ n. n ≡ spec.entry_place (spec.tables_in self.now) (entry_of used.entry)) }
    {
        match used.role {
            Role::Row | Role::New => plus(CLASS_START, number_in(&self.classes, used)),
            Role::FieldOffset | Role::MethodOffset => {
                plus(self.offset_start()?, number_in(&self.offsets, used))
            }
            Role::FieldAddress | Role::StaticMethod | Role::SpecialMethod => {
                plus(self.address_start()?, number_in(&self.addresses, used))
            }
            Role::InterfaceMethod => {
                plus(self.interface_start()?, number_in(&self.interfaces, used))
            }
        }
    }

    /// How many bytes behind the region's first an address lies.
    pub fn addend(&self, address: Address<'a>) -> Result<u32, AllocError>
        ensures { IfOk result (λ n. n ≡ spec.addend (spec.tables_in self.now) (address_of address.entry)) }
    {
        match address {
            Address::Region => Ok(0),
            Address::Entry(used) => bytes(self.place(used)?),
        }
    }
}

/// The tables of all that bodies use, by first use.
pub fn tables_of<'a>(alloc: Global, bodies: &[BodyCode<'a>]) -> Result<Tables<'a>, AllocError>
    ensures { IfOk result (λ t. spec.tables_in t ≡ spec.tables_of (all_uses (map body_of bodies.now))) }
{
    let mut tables = Tables::new(alloc);
    for body in bodies {
        tables.note_body(body)?;
    }
    Ok(tables)
}

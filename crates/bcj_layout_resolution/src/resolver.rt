ghost use Rattle.std.specs.Prelude.{◌≡◌, true, map, slice_get, None, Some, Ok, Err, IfOk, IfErr, IfSome, IfNone};
ghost use Rattle.bcj_hier_rules.specs.Shapes.{found, behind_first};
ghost use Rattle.bcj_hier_rules.specs.Heads.{IsIn, name_of};
ghost use Rattle.bcj_hier_rules.specs.Loading.{turns, load_error};
ghost use Rattle.bcj_layout_rules.specs.Rows.{mixture_of};
ghost use Rattle.bcj_layout_resolution.specs.Places.{heads_in};
ghost use Rattle.bcj_tables_rules.specs.declared.records.ClassRecord.{ClassRecord};
ghost use Rattle.bcj_layout_resolution.specs.Index.{Indexes};
ghost use Rattle.bcj_layout_resolution.specs.Searches.{AreNumbered, IsRecord, IsAbove};

use crate::index::{Buckets, index_all_fields, index_all_methods};
use bcj_hier::Hier;
use bcj_hier_rules::{ClassId, LinkError};
use bcj_names::Name;
use bcj_symbolic_trees::Sequence;
use bcj_tables_rules::{ClassRecord, Records};
use std::alloc::{AllocError, Global};
use std::marker::Model;

/// The most members of a class.
const MAX_MEMBERS: usize = 4294967295;

/// The classes of a mixture, ready for searches. Contracts see it as the list of their records.
#[derive(Drop)]
pub struct Resolver {
    hier: Hier,
    records: Records,
    fields: Sequence<Buckets>,
    methods: Sequence<Buckets>,
}

impl Model for Resolver {
    ghost use Rattle.std.specs.Prelude.{List};
    ghost use Rattle.bcj_tables_rules.specs.declared.records.ClassRecord.{ClassRecord};
    ghost use Rattle.bcj_layout_resolution.specs.Index.{Agree};

    ghost Value = { List ClassRecord };

    ghost view = { λ r. r.records.classes };

    ghost invariant = { λ r. Agree r.hier r.records.classes r.fields r.methods };
}

fn are_numbered(classes: &[ClassRecord]) -> bool
    ensures { result ≡ true → AreNumbered classes.now }
{
    for class in classes {
        if class.fields.len() > MAX_MEMBERS || class.methods.len() > MAX_MEMBERS {
            return false;
        }
    }
    true
}

impl Resolver {
    /// The searches over these records, whose heads are those of the hierarchy.
    pub fn new(alloc: Global, hier: Hier, records: Records) -> Result<Resolver, AllocError>
        requires agree { hier ≡ heads_in records.classes }
        ensures { IfOk result (λ r. r ≡ records.classes) }
    {
        let _ = hier.len();
        if !are_numbered(records.classes.as_slice()) {
            return Err(AllocError);
        }
        let fields = index_all_fields(alloc, records.classes.as_slice())?;
        let methods = index_all_methods(alloc, records.classes.as_slice())?;
        Ok(Resolver {
            hier,
            records,
            fields,
            methods,
        })
    }

    /// The hierarchy of the classes. It takes no memory, as all calls below.
    pub fn hier(&self) -> &Hier
        ensures { result.now ≡ heads_in self.now }
    {
        &self.hier
    }

    /// The records of the classes.
    pub fn records(&self) -> &Records
        ensures { result.now.classes ≡ self.now }
    {
        &self.records
    }

    /// The turns of a search.
    pub(crate) fn turns(&self) -> usize
        ensures { result ≡ turns (mixture_of self.now) }
    {
        self.hier.len() + 1
    }

    /// The class of a name.
    pub(crate) fn find(&self, name: &Name) -> Option<ClassId>
        ensures there { IfSome result (λ c. IsIn (heads_in self.now) c) }
        ensures named { IfSome result (λ c. name_of (heads_in self.now) c ≡ name.now) }
        ensures none { IfNone result (found (mixture_of self.now) name.now ≡ None) }
    {
        self.hier.find(name)
    }

    /// The record of a class.
    pub(crate) fn record(&self, class: ClassId) -> &ClassRecord
        requires there { IsIn (heads_in self.now) class }
        ensures { IsRecord self.now class result.now }
    {
        &self.records.classes.as_slice()[class.0 as usize]
    }

    /// The index of the fields of a class.
    pub(crate) fn fields_of(&self, class: ClassId) -> &Buckets
        requires { IsIn (heads_in self.now) class }
        ensures { (r : ClassRecord) → slice_get self.now class.0 ≡ Some r → Indexes (map (λ f. f.name) r.fields) result.now }
    {
        let _ = &self.records;
        &self.fields.as_slice()[class.0 as usize]
    }

    /// The index of the methods of a class.
    pub(crate) fn methods_of(&self, class: ClassId) -> &Buckets
        requires { IsIn (heads_in self.now) class }
        ensures { (r : ClassRecord) → slice_get self.now class.0 ≡ Some r → Indexes (map (λ m. m.name) (behind_first r.methods)) result.now }
    {
        let _ = &self.records;
        &self.methods.as_slice()[class.0 as usize]
    }

    /// The superclass of a class, where it has one that is there.
    pub(crate) fn superclass(&self, record: &ClassRecord) -> Option<ClassId>
        ensures { IsAbove self.now record.now.head.superclass result }
    {
        match &record.head.superclass {
            None => None,
            Some(name) => self.find(name),
        }
    }

    /// The class of a name, where it loads, or why it doesn't.
    pub(crate) fn load(&self, name: &Name) -> Result<ClassId, LinkError>
        ensures there { IfOk result (λ c. IsIn (heads_in self.now) c) }
        ensures named { IfOk result (λ c. name_of (heads_in self.now) c ≡ name.now) }
        ensures loads { IfOk result (λ _. load_error (mixture_of self.now) name.now ≡ None) }
        ensures err { IfErr result (λ e. load_error (mixture_of self.now) name.now ≡ Some e) }
    {
        match self.find(name) {
            None => Err(LinkError::NoClassDefFound),
            Some(class) => match self.hier.load(class) {
                Ok(()) => Ok(class),
                Err(error) => Err(error),
            },
        }
    }
}

ghost use Rattle.std.specs.Prelude.{◌≡◌, true, map};
ghost use Rattle.std.specs.List.{position};
ghost use Rattle.bcj_hier_rules.specs.Shapes.{record_shape, field_of_record, method_of_record, is_field};
ghost use Rattle.bcj_hier_rules.specs.Heads.{IsIn, name_of};
ghost use Rattle.bcj_hier_rules.specs.Loading.{turns};
ghost use Rattle.bcj_hier_rules.specs.Resolution.{field_within, interface_method_within, inherited_within, first_of};
ghost use Rattle.bcj_layout_rules.specs.Rows.{mixture_of};
ghost use Rattle.bcj_layout_resolution.specs.Places.{heads_in};
ghost use Rattle.bcj_layout_resolution.specs.Index.{Indexes};
ghost use Rattle.bcj_layout_resolution.specs.Searches.{IsRecord, NamesField, NamesMethod, own_field, own_method, fits, asks_name, along};

use crate::index::{Buckets, bucket, named_methods};
use crate::member::{FieldId, MethodId};
use crate::resolver::Resolver;
use crate::sought::Sought;
use bcj_hier_rules::ClassId;
use bcj_names::Name;
use bcj_symbolic_trees::MethodKind;
use bcj_tables_rules::{ClassRecord, FieldRecord, MethodRecord};

fn is_called(field: &FieldRecord, name: &Name, desc: &Name) -> bool
    ensures { result ≡ is_field name.now desc.now (field_of_record field.now) }
{
    field.name.same(name) && field.ty.same(desc)
}

fn field_number(
    fields: &[FieldRecord],
    buckets: &Buckets,
    name: &Name,
    desc: &Name,
) -> Option<usize>
    requires { Indexes (map (λ f. f.name) fields.now) buckets.now }
    ensures { result ≡ position (λ f. is_field name.now desc.now (field_of_record f)) fields.now }
{
    for number in bucket(buckets, name) {
        if is_called(&fields[*number as usize], name, desc) {
            return Some(*number as usize);
        }
    }
    None
}

/// Whether a search takes this method.
fn is_sought(method: &MethodRecord, sought: Sought, name: &Name, desc: &Name) -> bool
    ensures { result ≡ fits sought name.now desc.now (method_of_record method.now) }
{
    match sought {
        Sought::Method => {
            !matches!(method.kind, MethodKind::Constructor)
                && method.name.same(name)
                && method.desc.same(desc)
        }
        Sought::Open => {
            !matches!(method.kind, MethodKind::Constructor | MethodKind::Static)
                && !method.is_private
                && method.name.same(name)
                && method.desc.same(desc)
        }
        Sought::Constructor => {
            matches!(method.kind, MethodKind::Constructor) && method.desc.same(desc)
        }
    }
}

fn scanned_number(
    methods: &[MethodRecord],
    sought: Sought,
    name: &Name,
    desc: &Name,
) -> Option<usize>
    ensures { result ≡ position (λ m. fits sought name.now desc.now (method_of_record m)) methods.now }
{
    methods
        .iter()
        .position(|method| is_sought(method, sought, name, desc))
}

fn named_number(
    methods: &[MethodRecord],
    buckets: &Buckets,
    sought: Sought,
    name: &Name,
    desc: &Name,
) -> Option<usize>
    requires indexed { Indexes (map (λ m. m.name) methods.now) buckets.now }
    requires named { asks_name sought ≡ true }
    ensures { result ≡ position (λ m. fits sought name.now desc.now (method_of_record m)) methods.now }
{
    for number in bucket(buckets, name) {
        if is_sought(&methods[*number as usize], sought, name, desc) {
            return Some(*number as usize);
        }
    }
    None
}

/// Constructors stand first, so they are sought in order.
fn method_number(
    methods: &[MethodRecord],
    buckets: &Buckets,
    sought: Sought,
    name: &Name,
    desc: &Name,
) -> Option<usize>
    requires { Indexes (map (λ m. m.name) methods.now) buckets.now }
    ensures { result ≡ position (λ m. fits sought name.now desc.now (method_of_record m)) methods.now }
{
    match sought {
        Sought::Constructor => scanned_number(methods, sought, name, desc),
        Sought::Method | Sought::Open => named_number(methods, buckets, sought, name, desc),
    }
}

impl Resolver {
    /// A field of the class itself.
    pub(crate) fn own_field(
        &self,
        class: ClassId,
        record: &ClassRecord,
        name: &Name,
        desc: &Name,
    ) -> Option<FieldId>
        requires there { IsIn (heads_in self.now) class }
        requires record { IsRecord self.now class record.now }
        ensures { NamesField self.now result (own_field name.now desc.now (record_shape record.now)) }
    {
        match field_number(record.fields.as_slice(), self.fields_of(class), name, desc) {
            None => None,
            Some(number) => Some(FieldId {
                class,
                field: number as u32,
            }),
        }
    }

    /// A method of the class itself.
    pub(crate) fn own_method(
        &self,
        class: ClassId,
        record: &ClassRecord,
        sought: Sought,
        name: &Name,
        desc: &Name,
    ) -> Option<MethodId>
        requires there { IsIn (heads_in self.now) class }
        requires record { IsRecord self.now class record.now }
        ensures { NamesMethod self.now result (own_method (fits sought name.now desc.now) (record_shape record.now)) }
    {
        match method_number(
            named_methods(record.methods.as_slice()),
            self.methods_of(class),
            sought,
            name,
            desc,
        ) {
            None => None,
            Some(number) => Some(MethodId {
                class,
                method: number as u32 + 1,
            }),
        }
    }

    /// A field of a type, its superinterfaces and its superclass, in as many turns.
    #[cycle(fields)]
    pub(crate) fn field_within(
        &self,
        turns: usize,
        class: ClassId,
        name: &Name,
        desc: &Name,
    ) -> Option<FieldId>
        requires { IsIn (heads_in self.now) class }
        ensures { NamesField self.now result (field_within (mixture_of self.now) turns name.now desc.now (name_of (heads_in self.now) class)) }
    {
        if turns == 0 {
            return None;
        }
        let record = self.record(class);
        let own = self.own_field(class, record, name, desc);
        if own.is_some() {
            return own;
        }
        let beside = self.field_among(turns - 1, record.head.interfaces.as_slice(), name, desc);
        if beside.is_some() {
            return beside;
        }
        match &record.head.superclass {
            None => None,
            Some(superclass) => self.field_from(turns - 1, superclass, name, desc),
        }
    }

    #[cycle(fields)]
    fn field_from(&self, turns: usize, class: &Name, name: &Name, desc: &Name) -> Option<FieldId>
        ensures { NamesField self.now result (field_within (mixture_of self.now) turns name.now desc.now class.now) }
    {
        match self.find(class) {
            None => None,
            Some(number) => {
                if self.may_have_field(number, name, desc) {
                    self.field_within(turns, number, name, desc)
                } else {
                    None
                }
            }
        }
    }

    #[cycle(fields)]
    fn field_among(
        &self,
        turns: usize,
        classes: &[Name],
        name: &Name,
        desc: &Name,
    ) -> Option<FieldId>
        ensures { NamesField self.now result (first_of (field_within (mixture_of self.now) turns name.now desc.now) classes.now) }
    {
        for class in classes {
            let field = self.field_from(turns, class, name, desc);
            if field.is_some() {
                return field;
            }
        }
        None
    }

    /// A method of a class and its superclasses.
    pub(crate) fn method_along(
        &self,
        class: ClassId,
        sought: Sought,
        name: &Name,
        desc: &Name,
    ) -> Option<MethodId>
        requires { IsIn (heads_in self.now) class }
        ensures { NamesMethod self.now result (along (fits sought name.now desc.now) (mixture_of self.now) (turns (mixture_of self.now)) (name_of (heads_in self.now) class)) }
    {
        let mut turns = self.turns();
        let mut at = class;
        while turns > 0 {
            turns -= 1;
            let record = self.record(at);
            let own = self.own_method(at, record, sought, name, desc);
            if own.is_some() {
                return own;
            }
            match self.superclass(record) {
                None => return None,
                Some(superclass) => at = superclass,
            }
        }
        None
    }

    /// A method of an interface and its superinterfaces, in as many turns.
    #[cycle(interface_methods)]
    pub(crate) fn interface_method_within(
        &self,
        turns: usize,
        class: ClassId,
        name: &Name,
        desc: &Name,
    ) -> Option<MethodId>
        requires { IsIn (heads_in self.now) class }
        ensures { NamesMethod self.now result (interface_method_within (mixture_of self.now) turns name.now desc.now (name_of (heads_in self.now) class)) }
    {
        if turns == 0 {
            return None;
        }
        let record = self.record(class);
        let own = self.own_method(class, record, Sought::Method, name, desc);
        if own.is_some() {
            return own;
        }
        self.interface_method_among(turns - 1, record.head.interfaces.as_slice(), name, desc)
    }

    #[cycle(interface_methods)]
    fn interface_method_from(
        &self,
        turns: usize,
        class: &Name,
        name: &Name,
        desc: &Name,
    ) -> Option<MethodId>
        ensures { NamesMethod self.now result (interface_method_within (mixture_of self.now) turns name.now desc.now class.now) }
    {
        match self.find(class) {
            None => None,
            Some(number) => {
                if self.may_have_method(number, name, desc) {
                    self.interface_method_within(turns, number, name, desc)
                } else {
                    None
                }
            }
        }
    }

    #[cycle(interface_methods)]
    fn interface_method_among(
        &self,
        turns: usize,
        classes: &[Name],
        name: &Name,
        desc: &Name,
    ) -> Option<MethodId>
        ensures { NamesMethod self.now result (first_of (interface_method_within (mixture_of self.now) turns name.now desc.now) classes.now) }
    {
        for class in classes {
            let method = self.interface_method_from(turns, class, name, desc);
            if method.is_some() {
                return method;
            }
        }
        None
    }

    /// A method of the superinterfaces of a class and of its superclasses.
    pub(crate) fn inherited(&self, class: ClassId, name: &Name, desc: &Name) -> Option<MethodId>
        requires { IsIn (heads_in self.now) class }
        ensures { NamesMethod self.now result (inherited_within (mixture_of self.now) (turns (mixture_of self.now)) name.now desc.now (name_of (heads_in self.now) class)) }
    {
        let mut turns = self.turns();
        let mut at = class;
        while turns > 0 {
            turns -= 1;
            let record = self.record(at);
            let method = self.interface_method_among(
                turns,
                record.head.interfaces.as_slice(),
                name,
                desc,
            );
            if method.is_some() {
                return method;
            }
            match self.superclass(record) {
                None => return None,
                Some(superclass) => at = superclass,
            }
        }
        None
    }
}

ghost use Rattle.std.specs.Prelude.{◌≡◌, ◌&&◌};
ghost use Rattle.bcj_hier_rules.specs.Shapes as shape;
ghost use Rattle.bcj_hier_rules.specs.Shapes.{field_of_record, method_of_record};
ghost use Rattle.bcj_hier_rules.specs.Heads.{IsIn, name_of};
ghost use Rattle.bcj_hier_rules.specs.Resolution as spec;
ghost use Rattle.bcj_hier_rules.specs.Resolution.{FoundField, FoundMethod, used_field, used_method};
ghost use Rattle.bcj_layout_resolution.specs.Places.{heads_in, IsField, IsMethod};
ghost use Rattle.bcj_layout_resolution.specs.Searches.{when_used};

use crate::member::{FieldId, MethodId};
use crate::resolver::Resolver;
use bcj_hier_rules::{CallKind, ClassId, LinkError};
use bcj_symbolic_trees::MethodKind;
use bcj_tables_rules::{FieldRecord, MethodRecord};

fn same_bool(a: bool, b: bool) -> bool
    ensures { result ≡ spec.same_bool a b }
{
    if a { b } else { !b }
}

fn wants_static(kind: CallKind) -> bool
    ensures { result ≡ spec.wants_static kind }
{
    matches!(kind, CallKind::Static)
}

fn is_direct(kind: CallKind) -> bool
    ensures { result ≡ spec.is_direct kind }
{
    matches!(kind, CallKind::Special | CallKind::Constructor)
}

fn is_static(method: &MethodRecord) -> bool
    ensures { result ≡ shape.is_static (method_of_record method.now) }
{
    matches!(method.kind, MethodKind::Static)
}

fn is_abstract(method: &MethodRecord) -> bool
    ensures { result ≡ shape.is_abstract (method_of_record method.now) }
{
    matches!(method.kind, MethodKind::Abstract)
}

/// Whether a call takes a method as it is named, which has no code.
fn lacks_code(kind: CallKind, method: &MethodRecord) -> bool
    ensures { result ≡ (spec.is_direct kind && shape.is_abstract (method_of_record method.now)) }
{
    is_direct(kind) && is_abstract(method)
}

impl Resolver {
    /// Whether a member of one class is hidden from code of another.
    fn is_hidden(&self, from: ClassId, class: ClassId, is_private: bool) -> bool
        requires from_there { IsIn (heads_in self.now) from }
        requires there { IsIn (heads_in self.now) class }
        ensures { result ≡ spec.is_hidden (name_of (heads_in self.now) from) (name_of (heads_in self.now) class) is_private }
    {
        is_private
            && !self
                .record(class)
                .head
                .name
                .same(&self.record(from).head.name)
    }

    fn field_record(&self, field: FieldId) -> &FieldRecord
        requires { (x : FoundField) × IsField self.now field x }
        ensures there { IsIn (heads_in self.now) field.class }
        ensures record { (x : FoundField) → IsField self.now field x → x.field ≡ field_of_record result.now }
        ensures class { (x : FoundField) → IsField self.now field x → x.class ≡ name_of (heads_in self.now) field.class }
    {
        &self.record(field.class).fields.as_slice()[field.field as usize]
    }

    fn method_record(&self, method: MethodId) -> &MethodRecord
        requires { (x : FoundMethod) × IsMethod self.now method x }
        ensures there { IsIn (heads_in self.now) method.class }
        ensures record { (x : FoundMethod) → IsMethod self.now method x → x.method ≡ method_of_record result.now }
        ensures class { (x : FoundMethod) → IsMethod self.now method x → x.class ≡ name_of (heads_in self.now) method.class }
    {
        &self.record(method.class).methods.as_slice()[method.method as usize]
    }

    /// Whether code of the class `from` may use a field so.
    pub(crate) fn use_field(
        &self,
        from: ClassId,
        field: FieldId,
        is_static: bool,
    ) -> Result<(), LinkError>
        requires from_there { IsIn (heads_in self.now) from }
        requires there { (x : FoundField) × IsField self.now field x }
        ensures { (x : FoundField) → IsField self.now field x → used_field (name_of (heads_in self.now) from) is_static x ≡ when_used x result }
    {
        let record = self.field_record(field);
        if self.is_hidden(from, field.class, record.is_private) {
            return Err(LinkError::IllegalAccess);
        }
        if same_bool(is_static, record.is_static) {
            Ok(())
        } else {
            Err(LinkError::IncompatibleClassChange)
        }
    }

    /// Whether code of the class `from` may call a method so.
    pub(crate) fn use_method(
        &self,
        from: ClassId,
        method: MethodId,
        kind: CallKind,
    ) -> Result<(), LinkError>
        requires from_there { IsIn (heads_in self.now) from }
        requires there { (x : FoundMethod) × IsMethod self.now method x }
        ensures { (x : FoundMethod) → IsMethod self.now method x → used_method (name_of (heads_in self.now) from) kind x ≡ when_used x result }
    {
        let record = self.method_record(method);
        if self.is_hidden(from, method.class, record.is_private) {
            return Err(LinkError::IllegalAccess);
        }
        if !same_bool(wants_static(kind), is_static(record)) {
            return Err(LinkError::IncompatibleClassChange);
        }
        if lacks_code(kind, record) {
            return Err(LinkError::AbstractMethod);
        }
        Ok(())
    }
}

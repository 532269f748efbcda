//! The fields that references of code name.

ghost use Rattle.std.specs.Prelude.{◌≡◌, Ok, Err, IfOk, IfErr};
ghost use Rattle.bcj_hier_rules.specs.Heads.{IsIn, name_of};
ghost use Rattle.bcj_hier_rules.specs.Resolution.{FoundField, resolved_field};
ghost use Rattle.bcj_layout_rules.specs.Rows.{mixture_of};
ghost use Rattle.bcj_layout_resolution.specs.Places.{heads_in, wanted};
ghost use Rattle.bcj_layout.specs.MemberPlaces.{IsFieldPlace};

use crate::layout::Layout;
use crate::place::FieldPlace;
use bcj_hier_rules::{ClassId, LinkError};
use bcj_layout_addresses::field_place;
use bcj_names::Name;

impl Layout {
    /// The field that code of the class `from` names, as a static one or as one of an object, or the error of the reference (JVMS 5.4.3.2).
    pub fn resolve_field(
        &self,
        from: ClassId,
        class: &Name,
        name: &Name,
        desc: &Name,
        is_static: bool,
    ) -> Result<FieldPlace, LinkError>
        requires there { IsIn (heads_in self.now.classes) from }
        ensures ok { IfOk result (λ p. (x : FoundField)
            × (resolved_field (mixture_of self.now.classes) (name_of (heads_in self.now.classes) from) (wanted class.now name.now desc.now) is_static ≡ Ok x)
            × IsFieldPlace self.now.classes self.now.main is_static p x) }
        ensures err { IfErr result (λ e.
            resolved_field (mixture_of self.now.classes) (name_of (heads_in self.now.classes) from) (wanted class.now name.now desc.now) is_static ≡ Err e) }
    {
        match self.resolver.field(from, class, name, desc, is_static) {
            Err(error) => Err(error),
            Ok(field) => Ok(FieldPlace {
                class: field.class,
                at: field_place(&self.addresses, field),
            }),
        }
    }
}

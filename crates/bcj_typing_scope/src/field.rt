//! Fields that a body names.

ghost use Rattle.std.specs.Prelude.{◌≡◌, ◌&&◌, true, option_map, IfSome};
ghost use Rattle.std.specs.Str.{bytes_eq};
ghost use Rattle.std.specs.Option.{option_copied};
ghost use Rattle.bcj_decl_rules.specs.Members.{field_of};
ghost use Rattle.bcj_decl_table.specs.Views.{field_of_info};
ghost use Rattle.bcj_typing_rules.specs.Context as spec;
ghost use Rattle.bcj_typing_node.specs.Forms.{finals_of, way_of};
ghost use Rattle.bcj_typing_scope.specs.Scopes.{answers_in, context_of};
ghost use Rattle.bcj_typing_scope.specs.Surroundings.{IsWorth};

use crate::scope::Scope;
use bcj_decl_table::FieldInfo;
use bcj_names::Name;
use bcj_typing_node::{Finals, Way};

fn allows(finals: Finals, way: Way, is_static: bool) -> bool
    ensures { result ≡ spec.allows (finals_of finals) (way_of way) is_static }
{
    match finals {
        Finals::Not => false,
        Finals::Instance => match way {
            Way::Name | Way::This => !is_static,
            Way::Other => false,
        },
        Finals::Static => match way {
            Way::Name => is_static,
            Way::This | Way::Other => false,
        },
    }
}

impl Scope<'_> {
    /// The field that a name means in a type (JLS 8.2, 8.3, 9.3), with its value as a constant variable. It takes no memory.
    pub fn field(&self, class: &Name, name: &Name) -> Option<&FieldInfo>
        ensures value { option_map field_of_info (option_copied result) ≡ field_of (spec.world_at (context_of self.now)) class.now name.now }
        ensures worth { IfSome (option_copied result) (IsWorth (answers_in self.now)) }
    {
        self.world.field(class, name)
    }

    /// Whether the field is open to the class: a private one is so to its own type alone (JLS 6.6.1). It takes no memory.
    pub fn is_open(&self, field: &FieldInfo) -> bool
        ensures { result ≡ spec.is_open (context_of self.now) (field_of_info field.now) }
    {
        !field.is_private || field.class.same(self.class())
    }

    /// Whether a final field is one of the class without an initialiser, which the body may assign where it is named in this way.
    fn is_own_blank(&self, way: Way, field: &FieldInfo) -> bool
        requires { bytes_eq field.now.class (context_of self.now).class ≡ true }
        ensures { result ≡ (spec.is_blank (context_of self.now) (field_of_info field.now) && spec.allows (context_of self.now).finals (way_of way) field.now.is_static) }
    {
        self.world.is_blank(field) && allows(self.finals, way, field.is_static)
    }

    /// Whether the field may be assigned where it is named in this way (JLS 4.12.4, 8.3.1.2). It takes no memory.
    pub fn is_assignable(&self, way: Way, field: &FieldInfo) -> bool
        ensures { result ≡ spec.is_assignable (context_of self.now) (way_of way) (field_of_info field.now) }
    {
        if !field.is_final {
            return true;
        }
        if field.class.same(self.class()) {
            self.is_own_blank(way, field)
        } else {
            false
        }
    }
}

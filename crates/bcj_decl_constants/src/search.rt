ghost use Rattle.std.specs.Prelude.{◌≡◌, IsSome};
ghost use Rattle.std.specs.Option.{option_and_then};
ghost use Rattle.bcj_decl_rules.specs.World.{World};
ghost use Rattle.bcj_decl_rules.specs.Members.{field_of};
ghost use Rattle.bcj_decl_constants.specs.Numbers.{field_at};

use bcj_names::Name;

/// Finds the field that a name means in a type of a world (JLS 8.2, 8.3).
pub trait FieldSearch {
    ghost world: { Self → World };

    /// The place of the type that declares the field, and the field's position there.
    fn find(&self, class: &Name, name: &Name) -> Option<(usize, usize)>
        ensures value { option_and_then (λ p. field_at (world self.now) p.0 p.1) result ≡ field_of (world self.now) class.now name.now }
        ensures found { IsSome result → IsSome (field_of (world self.now) class.now name.now) };
}

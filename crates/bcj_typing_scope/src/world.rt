#![tactic(auto, using(crate::proofs::Rules::world_rules))]

ghost use Rattle.std.specs.Prelude.{◌≡◌, true, option_map, IfSome};
ghost use Rattle.std.specs.Option.{option_copied};
ghost use Rattle.std.specs.Str.{bytes_eq};
ghost use Rattle.bcj_parser_trees.specs.Plain.{type_of};
ghost use Rattle.bcj_symbolic_trees.specs.Types.{ty_of, args_of};
ghost use Rattle.bcj_decl_rules.specs.World.{initialiser_of, type_named};
ghost use Rattle.bcj_decl_rules.specs.Faults.{IsDeclared};
ghost use Rattle.bcj_decl_rules.specs.Members.{field_of};
ghost use Rattle.bcj_decl_table.specs.Views.{field_of_info};
ghost use Rattle.bcj_decl.specs.Worlds.{head_of, units_in};
ghost use Rattle.bcj_typing_rules.specs.Context.{is_absent};
ghost use Rattle.bcj_typing_node.specs.Forms.{choice_of};
ghost use Rattle.bcj_typing_scope.specs.Surroundings.{IsOfUnit, IsWorth, answers_at, units_at, world_around};

use crate::blank::is_blank_in;
use bcj_decl::{Choice, Decls};
use bcj_decl_table::FieldInfo;
use bcj_names::Name;
use bcj_parser_trees::TypeDecl;
use bcj_symbolic_trees::{ClassHead, Ty, Tys};
use bcj_typing_node::Chosen;
use std::marker::Model;

/// The declared units around a class or interface that is typed; contracts see it as these units, the number of the unit that is
/// typed, and the type.
#[derive(Drop)]
pub struct World<'a> {
    decls: &'a Decls<'a>,
    decl: &'a TypeDecl,
}

impl<'a> Model for World<'a> {
    ghost use Rattle.bcj_parser_trees.specs.contracts.unit.Unit as unit;
    ghost use Rattle.bcj_parser_trees.specs.contracts.unit.TypeDecl as type_decl;
    ghost use Rattle.std.specs.Coded.{codes};
    ghost use Rattle.bcj_typing_scope.specs.Surroundings.{IsAround, Surroundings};

    ghost Value = { Surroundings };

    ghost coded = { Prim.hlevel (codes, unit.the_row.coded, type_decl.the_row.coded) };

    ghost view = { λ w. record { units = w.decls.now.units; own = w.decls.now.own; decl = w.decl.now } };

    ghost invariant = { λ w. IsAround w.decls.now w.decl.now };
}

impl<'a> World<'a> {
    /// The world around a type of the unit that is to be typed. It takes no memory.
    pub fn new(decls: &'a Decls<'a>, decl: &'a TypeDecl) -> World<'a>
        requires declared { IsDeclared (units_in decls.now) }
        requires own { IsOfUnit (units_in decls.now) decls.now.own (type_of decl.now) }
        ensures { result ≡ record { units = decls.entry.now.units; own = decls.entry.now.own; decl = decl.entry.now } }
    {
        World { decls, decl }
    }

    /// The class or interface. It takes no memory.
    pub fn decl(&self) -> &TypeDecl
        ensures { result.now ≡ self.now.decl }
    {
        self.decl
    }

    /// The head of the type of a name, where there is one. It takes no memory.
    pub fn head(&self, name: &Name) -> Option<&ClassHead>
        ensures { option_copied result ≡ option_map head_of (type_named (world_around self.now) name.now) }
    {
        self.decls.head(name)
    }

    /// Whether a type is a subtype of another (JLS 4.10). It takes no memory.
    pub fn subtype(&self, s: &Ty, t: &Ty) -> bool
        ensures { result ≡ (answers_at self.now).subtype (ty_of s.now) (ty_of t.now) }
    {
        self.decls.subtype(s, t)
    }

    /// The field that a name means in a type (JLS 8.2, 8.3, 9.3). It takes no memory.
    pub fn field(&self, class: &Name, name: &Name) -> Option<&FieldInfo>
        ensures value { option_map field_of_info (option_copied result) ≡ field_of (world_around self.now) class.now name.now }
        ensures worth { IfSome (option_copied result) (IsWorth (answers_at self.now)) }
    {
        match self.decls.lookup_field(class, name) {
            None => None,
            Some(field) => Some(self.decls.field(field)),
        }
    }

    /// Whether a field of the type has no initialiser (JLS 8.3.2). It takes no memory.
    pub fn is_blank(&self, field: &FieldInfo) -> bool
        requires { bytes_eq field.now.class self.now.decl.name ≡ true }
        ensures { result ≡ is_absent (initialiser_of (units_at self.now) (field_of_info field.now)) }
    {
        is_blank_in(self.decl.members.as_slice(), &field.name)
    }

    /// The method that a call in the type takes of another one, for arguments of these types (JLS 15.12.2). It takes no memory.
    pub fn choose(&self, class: &Name, name: &Name, args: &Tys) -> Chosen<'_>
        ensures { choice_of result ≡ (answers_at self.now).choose self.now.decl.name class.now name.now (args_of args.now) }
    {
        match self.decls.most_specific(&self.decl.name, class, name, args) {
            Choice::One(method) => Chosen::One(self.decls.method(method)),
            Choice::NoneApplies => Chosen::NoneApplies,
            Choice::Ambiguous => Chosen::Ambiguous,
        }
    }
}

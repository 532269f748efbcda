#![tactic(auto, using(crate::proofs::Facts::ready_rules))]

ghost use Rattle.std.specs.Prelude.{◌≡◌, ◌↔◌, Some, IsSome, IsTrue, IfOk};
ghost use Rattle.std.specs.Option.{option_and_then, option_map, option_copied};
ghost use Rattle.bcj_symbolic_trees.specs.Types.{ty_of, args_of};
ghost use Rattle.bcj_decl_rules.specs.World.{Method, type_named, world_of};
ghost use Rattle.bcj_decl_rules.specs.Faults.{IsDeclared};
ghost use Rattle.bcj_decl_rules.specs.Members.{field_of};
ghost use Rattle.bcj_decl_rules.specs.Methods.{IsApplicable, MostSpecific};
ghost use Rattle.bcj_decl_rules.specs.Subtypes.{Subtype};
ghost use Rattle.bcj_decl_table.specs.Views.{field_of_info, method_of_info, world_in};
ghost use Rattle.bcj_decl_fields.specs.FieldSearch.{field_at};
ghost use Rattle.bcj_decl_methods.specs.Search.{choice_of, method_at};
ghost use Rattle.bcj_decl_orders.specs.Orders.{AreOrders};
ghost use Rattle.bcj_decl.specs.Ready.{HasConstants};
ghost use Rattle.bcj_decl.specs.Worlds.{IsConstantFound, IsConstantOf, head_of, units_in, units_of, world_seen};

use crate::filling::filled;
use crate::search::Search;
use bcj_decl_constants::constants;
use bcj_decl_fields::{FieldId, lookup_field, subtype};
use bcj_decl_listing::Listing;
use bcj_decl_methods::{Choice, MethodId, is_applicable, most_specific};
use bcj_decl_orders::{Orders, orders};
use bcj_decl_table::{FieldInfo, MethodInfo};
use bcj_names::Name;
use bcj_parser_trees::Unit;
use bcj_symbolic_trees::{ClassHead, Ty, Tys};
use std::alloc::{AllocError, Global};
use std::marker::Model;

/// The declared world of a list of units, of which one is to be typed; contracts see it as these units and the number of that one.
/// Only `declare` makes one.
#[derive(Drop)]
pub struct Decls<'a> {
    units: &'a [Unit],
    own: u32,
    listing: Listing,
    orders: Orders,
}

impl<'a> Model for Decls<'a> {
    ghost use Rattle.bcj_parser_trees.specs.contracts.unit.Unit as unit;
    ghost use Rattle.std.specs.Coded.{codes};
    ghost use Rattle.bcj_decl.specs.Worlds.{DeclaredUnits, units_of};
    ghost use Rattle.bcj_decl.specs.Ready.{IsReady};

    ghost Value = { DeclaredUnits };

    ghost coded = { Prim.hlevel (codes, unit.the_row.coded) };

    ghost view = { λ d. record { units = d.units.now; own = d.own } };

    ghost invariant = { λ d. IsReady (units_of d.units.now) d.listing.types d.orders };
}

impl<'a> Decls<'a> {
    /// The same world with another of the units to be typed. It takes no memory.
    pub fn with_own(self, own: u32) -> Decls<'a>
        ensures { result ≡ record { units = self.entry.units; own = own } }
    {
        Decls { own, ..self }
    }

    /// Nothing of the units is refused.
    pub fn is_declared(&self)
        ensures { IsDeclared (units_in self.now) }
    {
        let _units = self.units;
    }
}

impl Decls<'_> {
    /// The head of the type of a name, where there is one. It takes no memory.
    pub fn head(&self, name: &Name) -> Option<&ClassHead>
        ensures { option_copied result ≡ option_map head_of (type_named (world_seen self.now) name.now) }
    {
        match self.listing.find(name) {
            None => None,
            Some(info) => Some(&info.head),
        }
    }

    /// Whether a type is a subtype of another (JLS 4.10). It takes no memory.
    pub fn subtype(&self, s: &Ty, t: &Ty) -> bool
        ensures { IsTrue result ↔ Subtype (world_seen self.now) (ty_of s.now) (ty_of t.now) }
    {
        subtype(&self.listing, &self.orders, s, t)
    }

    /// The field that a name means in a type, declared there or inherited (JLS 8.2, 8.3, 9.3). It takes no memory.
    pub fn lookup_field(&self, class: &Name, name: &Name) -> Option<FieldId>
        ensures value { option_and_then (field_at (world_seen self.now)) result ≡ field_of (world_seen self.now) class.now name.now }
        ensures found { IsSome result ↔ IsSome (field_of (world_seen self.now) class.now name.now) }
    {
        lookup_field(&self.listing, &self.orders, class, name)
    }

    /// A field that a call on this value gave. It takes no memory.
    pub fn field(&self, field: FieldId) -> &FieldInfo
        requires { IsSome (field_at (world_seen self.now) field) }
        ensures value { Some (field_of_info result.now) ≡ field_at (world_seen self.now) field }
        ensures constant { IsConstantOf (units_in self.now) (field_of_info result.now) result.now.constant }
    {
        &self.listing.as_slice()[field.class].fields.as_slice()[field.at]
    }

    /// The value of the constant variable that a name means in a type (JLS 4.12.4), a boolean one as 0 or 1. It takes no memory.
    pub fn constant_of(&self, class: &Name, field: &Name) -> Option<i32>
        ensures { IsConstantFound (units_in self.now) (field_of (world_seen self.now) class.now field.now) result }
    {
        match self.lookup_field(class, field) {
            None => None,
            Some(id) => self.field(id).constant,
        }
    }
    /// The method that a call in the type `from` takes, of the name and for arguments of these types, among the methods that a type has;
    /// `<init>` asks for its constructors (JLS 15.12.2). It takes no memory.
    pub fn most_specific(&self, from: &Name, class: &Name, name: &Name, args: &Tys) -> Choice
        ensures { (c : _) × (choice_of (world_seen self.now) result ≡ Some c) × MostSpecific (world_seen self.now) from.now class.now name.now (args_of args.now) c }
    {
        most_specific(
            &self.listing,
            &self.orders,
            from,
            class,
            name,
            args.as_slice(),
        )
    }

    /// A method that a call on this value gave. It takes no memory.
    pub fn method(&self, method: MethodId) -> &MethodInfo
        requires { IsSome (method_at (world_seen self.now) method) }
        ensures { Some (method_of_info result.now) ≡ method_at (world_seen self.now) method }
    {
        &self.listing.as_slice()[method.class].methods.as_slice()[method.at]
    }

    /// Whether a method that a call on this value gave applies to arguments of these types where the type `from` calls it
    /// (JLS 6.6.1, 15.12.2.2). It takes no memory.
    pub fn applicable(&self, from: &Name, method: MethodId, args: &Tys) -> bool
        requires { IsSome (method_at (world_seen self.now) method) }
        ensures { (m : Method) → method_at (world_seen self.now) method ≡ Some m → (IsTrue result ↔ IsApplicable (world_seen self.now) from.now m (args_of args.now)) }
    {
        is_applicable(
            &self.listing,
            &self.orders,
            from,
            self.method(method),
            args.as_slice(),
        )
    }
}

/// The types with their constants, which change neither what the types are nor where they stand.
fn with_constants(
    alloc: Global,
    units: &[Unit],
    listing: Listing,
    orders: &Orders,
) -> Result<Listing, AllocError>
    requires world { world_in listing.types ≡ world_of (units_of units.now) }
    requires declared { IsDeclared (units_of units.now) }
    requires orders { AreOrders (world_in listing.types) orders.now }
    ensures same { IfOk result (λ l. world_in l.types ≡ world_in listing.types) }
    ensures constants { IfOk result (λ l. HasConstants (units_of units.now) l.types) }
{
    let values = constants(
        alloc,
        &listing,
        units,
        &Search {
            listing: &listing,
            orders,
        },
    )?;
    let Listing {
        types,
        index,
        members,
    } = listing;
    let types = filled(alloc, types, values.as_slice());
    Ok(Listing {
        types,
        index,
        members,
    })
}

/// The declared world of units that declare one, whose types are listed.
pub fn decls_of<'a>(
    alloc: Global,
    units: &'a [Unit],
    own: u32,
    listing: Listing,
) -> Result<Decls<'a>, AllocError>
    requires world { world_in listing.types ≡ world_of (units_of units.now) }
    requires declared { IsDeclared (units_of units.now) }
    ensures { IfOk result (λ d. d ≡ record { units = units.entry.now; own = own }) }
{
    let orders = orders(alloc, &listing)?;
    let listing = with_constants(alloc, units, listing, &orders)?;
    Ok(Decls {
        units,
        own,
        listing,
        orders,
    })
}

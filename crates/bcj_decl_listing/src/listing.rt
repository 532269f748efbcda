ghost use Rattle.std.specs.Prelude.{◌≡◌, ◌≤◌, ◌↔◌, List, [], ℕ, None, length, slice_get, IfOk};
ghost use Rattle.std.specs.HashMap.{get_by_text};
ghost use Rattle.std.specs.Option.{option_and_then, option_copied, option_map, option_map_or};
ghost use Rattle.bcj_decl_rules.specs.World.{type_named};
ghost use Rattle.bcj_decl_table.specs.Views.{declared_of, world_in};
ghost use Rattle.bcj_decl_listing.specs.Places.{place_of, field_position, method_positions};
ghost use Rattle.bcj_decl_listing.specs.Agreement.{listed};

use crate::index::{Index, index_of, place_in};
use crate::members::{MemberIndices, field_in, members_of, methods_in};
use bcj_decl_table::{TypeInfo, TypeInfos};
use bcj_names::Name;
use std::alloc::{AllocError, Global};

/// The types of a world in their order, with the first place of each name and the members of each type by name.
#[derive(Drop)]
pub struct Listing {
    pub types: TypeInfos,
    pub index: Index,
    pub members: MemberIndices,
    ghost indexed: { (q : List ℕ) → get_by_text index q ≡ place_of (world_in types) q },
    ghost fields_known: { (k : ℕ) (q : List ℕ) → option_and_then (λ m. get_by_text m.fields q) (slice_get members.items k) ≡ field_position (world_in types) k q },
    ghost methods_known: { (k : ℕ) (q : List ℕ) → option_map_or (λ m. listed m q) (slice_get members.items k) [] ≡ method_positions (world_in types) k q },
}

impl Listing {
    /// The listing of these types, with an index of their names and of their members' names.
    pub fn of(alloc: Global, types: TypeInfos) -> Result<Listing, AllocError>
        ensures { IfOk result (λ l. l.types ≡ types) }
    {
        let index = index_of(alloc, types.as_slice())?;
        let members = members_of(alloc, types.as_slice())?;
        Ok(Listing {
            types,
            index,
            members,
        })
    }

    /// The number of types. It takes no memory.
    pub fn len(&self) -> usize
        ensures { result ≡ length self.now.types }
    {
        self.types.len()
    }

    /// The types in their order. It takes no memory.
    pub fn as_slice(&self) -> &[TypeInfo]
        ensures { result.now ≡ self.now.types }
    {
        self.types.as_slice()
    }

    /// The place of the first type of a name. It takes no memory.
    pub fn place(&self, name: &Name) -> Option<usize>
        ensures { result ≡ place_of (world_in self.now.types) name.now }
    {
        place_in(&self.index, name)
    }

    /// The type that a name means. It takes no memory.
    pub fn find(&self, name: &Name) -> Option<&TypeInfo>
        ensures { option_map declared_of (option_copied result) ≡ type_named (world_in self.now.types) name.now }
    {
        match self.place(name) {
            None => None,
            Some(place) => self.types.get(place),
        }
    }

    /// The type at a place. It takes no memory.
    pub fn type_at(&self, place: usize) -> Option<&TypeInfo>
        ensures value { option_copied result ≡ slice_get self.now.types place }
        ensures absent { result ≡ None ↔ length self.now.types ≤ place }
    {
        self.types.get(place)
    }

    /// The position of the first field of a name in the type at a place. It takes no memory.
    pub fn field_position(&self, place: usize, name: &Name) -> Option<usize>
        ensures { result ≡ field_position (world_in self.now.types) place name.now }
    {
        field_in(self.members.as_slice(), place, name)
    }

    /// The positions of the methods of a name in the type at a place, in their order. It takes no memory.
    pub fn method_positions(&self, place: usize, name: &Name) -> &[usize]
        ensures { result.now ≡ method_positions (world_in self.now.types) place name.now }
    {
        methods_in(self.members.as_slice(), place, name)
    }
}

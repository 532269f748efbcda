//! The numbers of array types.
#![tactic(auto, using(crate::proofs::Rules::row_rules))]

ghost use Rattle.std.specs.Prelude.{◌≡◌, ◌≤◌, ◌^◌, position, length, map, IfOk};
ghost use Rattle.std.specs.List.{IsDistinct};
ghost use Rattle.bcj_symbolic_trees.specs.Types.{ty_of, types_of};
ghost use Rattle.bcj_symbolic_trees.specs.Same.{same_type};

use crate::keys::TypeKey;
use bcj_symbolic_trees::{Ty, Types};
use indexmap::IndexSet;
use std::alloc::{AllocError, Global};

/// Types, each once, that are found by a hash.
#[derive(Drop)]
pub struct ArrayRows<'a> {
    types: IndexSet<TypeKey<'a>>,
    ghost few: { length types.keys ≤ 2 ^ 32 },
}

impl<'a> ArrayRows<'a> {
    ghost use Rattle.std.specs.Prelude.{[], fold, OnOk};
    ghost use Rattle.bcj_layout_rules.specs.Rows.{with_type};
    ghost use Rattle.bcj_layout_rows.specs.Keys.{type_in};
    ghost use Rattle.bcj_layout_rows.specs.Found.{rows_in};

    fn put(found: &mut IndexSet<TypeKey<'a>>, ty: &'a Ty) -> Result<(), AllocError>
        ensures { OnOk result (map type_in found.new.keys ≡ with_type (map type_in found.old.keys) (ty_of ty.entry.now)) }
    {
        found.insert(TypeKey { ty })?;
        Ok(())
    }

    fn keys(alloc: Global, types: &'a [Ty]) -> Result<IndexSet<TypeKey<'a>>, AllocError>
        ensures { IfOk result (λ found. map type_in found.keys ≡ fold with_type [] (types_of types.entry.now)) }
    {
        let mut found = IndexSet::new(alloc);
        for ty in types {
            ArrayRows::put(&mut found, ty)?;
        }
        Ok(found)
    }

    /// The numbers of these types, each by its place.
    pub fn new(alloc: Global, types: &'a Types) -> Result<ArrayRows<'a>, AllocError>
        requires distinct { IsDistinct same_type (types_of types.now) }
        ensures { IfOk result (λ r. rows_in r ≡ types_of types.entry.now) }
    {
        if u32::try_from(types.len()).is_err() {
            return Err(AllocError);
        }
        Ok(ArrayRows {
            types: ArrayRows::keys(alloc, types.as_slice())?,
        })
    }

    /// The number of a type, from 0. It takes no memory.
    pub fn number(&self, ty: &Ty) -> Option<u32>
        ensures { result ≡ position (same_type (ty_of ty.now)) (rows_in self.now) }
    {
        match self.types.get_index_of(&TypeKey { ty }) {
            None => None,
            Some(k) => Some(k as u32),
        }
    }
}

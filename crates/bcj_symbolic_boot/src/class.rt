#![tactic(auto, using(crate::proofs::Rules::boot_rules))]

ghost use Rattle.std.specs.Prelude.{◌≡◌, [], ◌∷◌, IfOk};
ghost use Rattle.std.specs.Option.{option_copied};
ghost use Rattle.bcj_symbolic_trees.specs.Types.{class_type, ty_of, types_of};
ghost use Rattle.bcj_symbolic_trees.specs.Units.{class_of};
ghost use Rattle.bcj_symbolic_boot.specs.BootUnit.{class_with};

use bcj_symbolic_trees::{ClassHead, Name, Sequence, SymClass, SymInit, Ty, Types};
use sqlite_items::Items;
use std::alloc::{AllocError, Global};

/// The type of a class by its name.
pub fn class_named(alloc: Global, name: &str) -> Result<Ty, AllocError>
    ensures { IfOk result (λ t. ty_of t ≡ class_type name.now) }
{
    Ok(Ty::Class(Name::from_str(alloc, name)?))
}

/// The locals of a method without parameters: `this` alone.
pub fn locals_of_this(alloc: Global, class: &str) -> Result<Types, AllocError>
    ensures { IfOk result (λ l. types_of l ≡ class_type class.now ∷ []) }
{
    let mut locals = Sequence::new(alloc);
    locals.push(class_named(alloc, class)?)?;
    Ok(locals)
}

/// A class without members.
pub fn bare(alloc: Global, name: &str, superclass: Option<&str>) -> Result<SymClass, AllocError>
    ensures { IfOk result (λ c. class_of c ≡ class_with name.now (option_copied superclass.entry) [] [] []) }
{
    let superclass = match superclass {
        None => None,
        Some(text) => Some(Name::from_str(alloc, text)?),
    };
    Ok(SymClass {
        head: ClassHead {
            name: Name::from_str(alloc, name)?,
            interface: false,
            is_abstract: false,
            superclass,
            interfaces: Sequence::new(alloc),
        },
        fields: Sequence::new(alloc),
        init: SymInit {
            locals: Sequence::new(alloc),
            body: Items::new(alloc),
        },
        methods: Sequence::new(alloc),
        pairs: Sequence::new(alloc),
    })
}

//! The methods that calls take (JLS 15.12.2).

ghost use Rattle.std.specs.Prelude.{◌≡◌, map, IfOk};
ghost use Rattle.bcj_symbolic_trees.specs.Types.{args_of};
ghost use Rattle.bcj_symbolic_trees.specs.Names.{constructor_name};
ghost use Rattle.bcj_typing_rules.specs.function.Expressions as spec;
ghost use Rattle.bcj_typing_node.specs.Forms.{choice_of};
ghost use Rattle.bcj_typing_node.specs.Typings.{typings_of};
ghost use Rattle.bcj_typing_scope.specs.Scopes.{answers_in, context_of};

use crate::scope::Scope;
use bcj_names::Name;
use bcj_symbolic_trees::{Arg, CONSTRUCTOR, Sequence, Tys};
use bcj_typing_node::{Chosen, Typing};
use std::alloc::{AllocError, Global};

fn copy_arg(alloc: Global, arg: &Arg) -> Result<Arg, AllocError>
    ensures { IfOk result (λ a. a ≡ arg.now) }
{
    Ok(match arg {
        Arg::Given(ty) => Arg::Given(ty.copy(alloc)?),
        Arg::Null => Arg::Null,
    })
}

/// The types of arguments.
fn types_of(alloc: Global, args: &[Typing]) -> Result<Tys, AllocError>
    ensures { IfOk result (λ types. types ≡ map (λ t. t.ty) args.now) }
{
    let mut types = Sequence::new(alloc);
    for arg in args {
        types.push(copy_arg(alloc, &arg.ty)?)?;
    }
    Ok(types)
}

impl Scope<'_> {
    /// The method that a call takes of a type, for these arguments (JLS 15.12.2).
    pub fn choose(
        &self,
        alloc: Global,
        class: &Name,
        name: &Name,
        args: &[Typing],
    ) -> Result<Chosen<'_>, AllocError>
        ensures { IfOk result (λ m. choice_of m ≡ spec.chosen (answers_in self.now) (context_of self.now) class.now name.now (typings_of args.now)) }
    {
        let types = types_of(alloc, args)?;
        Ok(self.world.choose(class, name, &types))
    }

    /// The constructor that a call takes of a class, for these arguments (JLS 15.9.3).
    pub fn constructor(
        &self,
        alloc: Global,
        class: &Name,
        args: &[Typing],
    ) -> Result<Chosen<'_>, AllocError>
        ensures { IfOk result (λ m. choice_of m ≡ spec.chosen (answers_in self.now) (context_of self.now) class.now constructor_name (typings_of args.now)) }
    {
        let name = Name::from_str(alloc, CONSTRUCTOR)?;
        self.choose(alloc, class, &name, args)
    }
}

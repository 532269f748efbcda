use bcj_names::Name;
use std::alloc::AllocError;

/// Why a list of heads has no hierarchy.
#[derive(Drop)]
pub enum HierStop {
    /// The head with the number `second` is the first whose name an earlier one has, which is `first`.
    Duplicate { name: Name, first: u32, second: u32 },
    /// There are more types than a run may have.
    TooMany,
    /// There is no memory.
    NoMemory,
}

impl From<AllocError> for HierStop {
    ghost use Rattle.std.specs.Prelude.{◌≡◌};
    ghost use Rattle.bcj_hier.specs.declared.stop.HierStop.TheVariants.{NoMemory};

    ghost from_gives = { λ _ e. e ≡ NoMemory };

    fn from(_error: AllocError) -> HierStop {
        HierStop::NoMemory
    }
}

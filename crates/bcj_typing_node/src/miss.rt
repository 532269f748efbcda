ghost use Rattle.std.specs.Prelude.{◌≡◌};
ghost use Rattle.bcj_typing_node.specs.declared.miss.Miss.TheVariants.{NoMemory};

use bcj_typing_rules::Kind;
use std::alloc::AllocError;

/// Why a part of a body has no symbolic tree: the first byte of the first node at fault and what it lacks, or want of memory.
#[derive(Clone, Copy)]
pub enum Miss {
    Untyped { at: u32, kind: Kind },
    NoMemory,
}

impl From<AllocError> for Miss {
    ghost from_gives = { λ _ e. e ≡ NoMemory };

    fn from(_e: AllocError) -> Miss {
        Miss::NoMemory
    }
}

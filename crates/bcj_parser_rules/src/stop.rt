use std::alloc::{AllocError, AllocFailed};

/// What is known of the place where a token is refused, as far as the name of a refusal hangs on it.
#[derive(Clone, Copy)]
pub enum Site {
    Elsewhere,
    /// A member may begin here or behind the modifiers before.
    Member,
    /// A method or constructor that has `final` among its modifiers.
    FinalMember,
    /// Behind the name of a class or interface in its declaration.
    HeaderName,
    /// Behind an identifier that is or can be a type's name.
    TypeName,
    /// Behind an identifier that begins a statement or a declaration.
    DeclarationName,
    /// Behind an identifier that begins a statement, where no declaration can stand.
    StatementName,
    /// Behind a declared name or a list of parameters.
    DeclaredName,
    /// Behind the first name that a `for` declares.
    LoopName,
    /// Behind a comma between variables.
    Variable,
    /// Behind the arguments of the creation of an object.
    Creation,
    /// Behind the first `[` of the creation of an array.
    FirstBracket,
    /// Behind the `[` of a further pair of brackets of the creation of an array.
    Dimension,
    /// Behind the `(` of a catch.
    Catch,
    /// Behind the class of a catch.
    CatchClass,
    /// Behind the name of a catch.
    CatchName,
}

/// Why tokens aren't read; the place is where the reading stands.
#[derive(Drop)]
pub enum Stop {
    Refused(Site),
    TooDeep,
    TooMany,
    NoMemory,
}

impl From<AllocError> for Stop {
    ghost use Rattle.std.specs.Prelude.{◌≡◌};
    ghost use Rattle.bcj_parser_rules.specs.declared.stop.Stop.TheVariants.{NoMemory};

    ghost from_gives = { λ x r. r ≡ NoMemory };

    fn from(_error: AllocError) -> Stop {
        Stop::NoMemory
    }
}

impl<T: Drop> From<AllocFailed<T>> for Stop {
    ghost use Rattle.std.specs.Prelude.{◌≡◌};
    ghost use Rattle.bcj_parser_rules.specs.declared.stop.Stop.TheVariants.{NoMemory};

    ghost from_gives = { λ x r. r ≡ NoMemory };

    fn from(_error: AllocFailed<T>) -> Stop {
        Stop::NoMemory
    }
}

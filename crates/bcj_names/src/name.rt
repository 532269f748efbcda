ghost use Rattle.std.specs.Prelude.{◌≡◌, ◌↔◌, string_bytes, IsTrue, IfOk};
ghost use Rattle.std.specs.Str.{bytes_eq};

use std::alloc::{AllocError, Global};
use std::marker::Model;

/// The name of a class, field or method: an identifier (JLS 3.8), `<init>` or `<clinit>`.
/// Contracts see it as the list of its bytes.
#[derive(Drop)]
pub struct Name {
    text: String,
}

impl Model for Name {
    ghost use Rattle.std.specs.Prelude.{List, ℕ, string_bytes};

    ghost Value = { List ℕ };

    ghost view = { λ n. string_bytes n.text };
}

impl Name {
    /// The name that a text spells. It takes no memory.
    pub fn of(text: String) -> Name
        ensures { result ≡ string_bytes text }
    {
        Name { text }
    }

    /// The text of the name. It takes no memory.
    pub fn as_str(&self) -> &str
        ensures { result.now ≡ self.now }
    {
        self.text.as_str()
    }

    /// The name with the same bytes as `text`.
    pub fn from_str(alloc: Global, text: &str) -> Result<Name, AllocError>
        ensures { IfOk result (λ n. n ≡ text.now) }
    {
        Ok(Name {
            text: String::from_str(alloc, text)?,
        })
    }

    /// A copy in memory of its own.
    pub fn copy(&self, alloc: Global) -> Result<Name, AllocError>
        ensures { IfOk result (λ n. n ≡ self.now) }
    {
        Name::from_str(alloc, self.as_str())
    }

    /// Whether both have the same bytes. It takes no memory.
    pub fn same(&self, other: &Name) -> bool
        ensures test { result ≡ bytes_eq self.now other.now }
        ensures equal { IsTrue result ↔ (self.now ≡ other.now) }
    {
        self.as_str() == other.as_str()
    }
}

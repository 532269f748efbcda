use bcj_names::Name;

/// Where the reading of an expression begins: at its first token, or behind tokens of it that were taken to see what begins.
#[derive(Drop)]
pub enum Begin {
    Fresh,
    Name { at: u32, name: Name },
    /// Behind a name and `[`.
    Bracket { at: u32, name: Name },
    This { at: u32 },
    Super { at: u32 },
}

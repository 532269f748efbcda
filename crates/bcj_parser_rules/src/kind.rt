use bcj_parser_trees::{BinOp, UnaryOp};

/// A terminal that a production wants at its place.
#[derive(Clone, Copy)]
pub enum Mark {
    Identifier,
    LeftParen,
    RightParen,
    LeftBrace,
    RightBrace,
    LeftBracket,
    RightBracket,
    Semicolon,
    Comma,
    Dot,
    Colon,
    Assign,
    While,
    Else,
    Catch,
    Extends,
    Implements,
    Throws,
    Static,
    This,
    Super,
    Void,
}

/// What begins an operand (JLS 15.8 to 15.15).
#[derive(Clone, Copy)]
pub enum Beginning {
    Name,
    Int,
    Bool(bool),
    Null,
    This,
    Super,
    New,
    Paren,
    Signed(UnaryOp),
    /// `++` where true, else `--`.
    Stepped(bool),
    Nothing,
}

/// What goes on behind an operand (JLS 15.10 to 15.26).
#[derive(Clone, Copy)]
pub enum Joining {
    Assign(Option<BinOp>),
    Question,
    Binary(BinOp),
    InstanceOf,
    /// `++` where true, else `--`.
    Step(bool),
    Dot,
    Bracket,
    Nothing,
}

/// What begins a type's name (JLS 4).
#[derive(Clone, Copy)]
pub enum TypeBeginning {
    Int,
    Bool,
    Name,
    Nothing,
}

/// What begins a statement (JLS 14); `Other` has expressions and what begins none.
#[derive(Clone, Copy)]
pub enum Heading {
    Block,
    Empty,
    If,
    While,
    Do,
    For,
    Return,
    Throw,
    Break,
    Continue,
    Try,
    Other,
}

/// What begins a part of a unit (JLS 7.3).
#[derive(Clone, Copy)]
pub enum UnitBeginning {
    Semicolon,
    Public,
    Abstract,
    Class,
    Interface,
    Nothing,
}

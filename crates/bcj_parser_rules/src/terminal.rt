use crate::construct::Construct;
use bcj_parser_trees::BinOp;

/// What a token is to the grammar (JLS 3.8 to 3.12).
#[derive(Clone, Copy)]
pub enum Terminal {
    Identifier,
    /// An integer literal without suffix.
    Int,
    /// A token that only a left-out construct has.
    LeftOut(Construct),
    /// `goto` and `const`.
    Unused,
    Abstract,
    Boolean,
    Break,
    Catch,
    Class,
    Continue,
    Do,
    Else,
    Extends,
    False,
    Final,
    For,
    If,
    Implements,
    InstanceOf,
    IntType,
    Interface,
    New,
    Null,
    Private,
    Protected,
    Public,
    Return,
    Static,
    Super,
    This,
    Throw,
    Throws,
    True,
    Try,
    Void,
    While,
    LeftParen,
    RightParen,
    LeftBrace,
    RightBrace,
    LeftBracket,
    RightBracket,
    Semicolon,
    Comma,
    Dot,
    /// `=`
    Assign,
    /// A compound assignment, with its operator.
    Compound(BinOp),
    /// A binary operator; `+` and `-` stand before an operand too.
    Operator(BinOp),
    /// `!`
    Not,
    /// `~`
    Flip,
    Question,
    Colon,
    /// `++`
    Increment,
    /// `--`
    Decrement,
}

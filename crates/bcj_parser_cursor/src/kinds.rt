//! What terminals are for.

ghost use Rattle.std.specs.Prelude.{◌≡◌};
ghost use Rattle.bcj_parser_rules.specs.Grammar as grammar;
ghost use Rattle.bcj_parser_rules.specs.Marks as marks;
ghost use Rattle.bcj_parser_rules.specs.function.Kinds as spec;

use bcj_parser_rules::{Beginning, Heading, Joining, Mark, Terminal, TypeBeginning, UnitBeginning};
use bcj_parser_trees::{BinOp, UnaryOp};

/// Whether a terminal is the one of a mark.
pub fn is_mark(mark: Mark, terminal: Terminal) -> bool
    ensures { result ≡ marks.is_mark mark terminal }
{
    match mark {
        Mark::Identifier => matches!(terminal, Terminal::Identifier),
        Mark::LeftParen => matches!(terminal, Terminal::LeftParen),
        Mark::RightParen => matches!(terminal, Terminal::RightParen),
        Mark::LeftBrace => matches!(terminal, Terminal::LeftBrace),
        Mark::RightBrace => matches!(terminal, Terminal::RightBrace),
        Mark::LeftBracket => matches!(terminal, Terminal::LeftBracket),
        Mark::RightBracket => matches!(terminal, Terminal::RightBracket),
        Mark::Semicolon => matches!(terminal, Terminal::Semicolon),
        Mark::Comma => matches!(terminal, Terminal::Comma),
        Mark::Dot => matches!(terminal, Terminal::Dot),
        Mark::Colon => matches!(terminal, Terminal::Colon),
        Mark::Assign => matches!(terminal, Terminal::Assign),
        Mark::While => matches!(terminal, Terminal::While),
        Mark::Else => matches!(terminal, Terminal::Else),
        Mark::Catch => matches!(terminal, Terminal::Catch),
        Mark::Extends => matches!(terminal, Terminal::Extends),
        Mark::Implements => matches!(terminal, Terminal::Implements),
        Mark::Throws => matches!(terminal, Terminal::Throws),
        Mark::Static => matches!(terminal, Terminal::Static),
        Mark::This => matches!(terminal, Terminal::This),
        Mark::Super => matches!(terminal, Terminal::Super),
        Mark::Void => matches!(terminal, Terminal::Void),
    }
}

/// How a terminal begins an operand.
pub fn beginning(terminal: Terminal) -> Beginning
    ensures { result ≡ spec.beginning terminal }
{
    match terminal {
        Terminal::Identifier => Beginning::Name,
        Terminal::Int => Beginning::Int,
        Terminal::True => Beginning::Bool(true),
        Terminal::False => Beginning::Bool(false),
        Terminal::Null => Beginning::Null,
        Terminal::This => Beginning::This,
        Terminal::Super => Beginning::Super,
        Terminal::New => Beginning::New,
        Terminal::LeftParen => Beginning::Paren,
        Terminal::Operator(BinOp::Add) => Beginning::Signed(UnaryOp::Plus),
        Terminal::Operator(BinOp::Sub) => Beginning::Signed(UnaryOp::Minus),
        Terminal::Not => Beginning::Signed(UnaryOp::Not),
        Terminal::Flip => Beginning::Signed(UnaryOp::Flip),
        Terminal::Increment => Beginning::Stepped(true),
        Terminal::Decrement => Beginning::Stepped(false),
        _ => Beginning::Nothing,
    }
}

/// How a terminal goes on behind an operand.
pub fn joining(terminal: Terminal) -> Joining
    ensures { result ≡ spec.joining terminal }
{
    match terminal {
        Terminal::Assign => Joining::Assign(None),
        Terminal::Compound(o) => Joining::Assign(Some(o)),
        Terminal::Question => Joining::Question,
        Terminal::Operator(o) => Joining::Binary(o),
        Terminal::InstanceOf => Joining::InstanceOf,
        Terminal::Increment => Joining::Step(true),
        Terminal::Decrement => Joining::Step(false),
        Terminal::Dot => Joining::Dot,
        Terminal::LeftBracket => Joining::Bracket,
        _ => Joining::Nothing,
    }
}

/// How a terminal begins a type's name.
pub fn type_beginning(terminal: Terminal) -> TypeBeginning
    ensures { result ≡ spec.type_beginning terminal }
{
    match terminal {
        Terminal::IntType => TypeBeginning::Int,
        Terminal::Boolean => TypeBeginning::Bool,
        Terminal::Identifier => TypeBeginning::Name,
        _ => TypeBeginning::Nothing,
    }
}

/// How a terminal begins a statement.
pub fn heading_of(terminal: Terminal) -> Heading
    ensures { result ≡ spec.heading_of terminal }
{
    match terminal {
        Terminal::LeftBrace => Heading::Block,
        Terminal::Semicolon => Heading::Empty,
        Terminal::If => Heading::If,
        Terminal::While => Heading::While,
        Terminal::Do => Heading::Do,
        Terminal::For => Heading::For,
        Terminal::Return => Heading::Return,
        Terminal::Throw => Heading::Throw,
        Terminal::Break => Heading::Break,
        Terminal::Continue => Heading::Continue,
        Terminal::Try => Heading::Try,
        _ => Heading::Other,
    }
}

/// How a terminal begins a part of a unit.
pub fn unit_beginning(terminal: Terminal) -> UnitBeginning
    ensures { result ≡ spec.unit_beginning terminal }
{
    match terminal {
        Terminal::Semicolon => UnitBeginning::Semicolon,
        Terminal::Public => UnitBeginning::Public,
        Terminal::Abstract => UnitBeginning::Abstract,
        Terminal::Class => UnitBeginning::Class,
        Terminal::Interface => UnitBeginning::Interface,
        _ => UnitBeginning::Nothing,
    }
}

/// Whether an operand may begin so without `+`, `-`, `++` and `--`.
pub fn begins_unsigned(terminal: Terminal) -> bool
    ensures { result ≡ grammar.begins_unsigned terminal }
{
    match terminal {
        Terminal::Identifier | Terminal::Int | Terminal::True | Terminal::False => true,
        Terminal::Null | Terminal::This | Terminal::Super | Terminal::New => true,
        Terminal::LeftParen | Terminal::Not | Terminal::Flip => true,
        _ => false,
    }
}

/// Whether an expression may begin so.
pub fn begins_expression(terminal: Terminal) -> bool
    ensures { result ≡ grammar.begins_expression terminal }
{
    match terminal {
        Terminal::Operator(BinOp::Add) | Terminal::Operator(BinOp::Sub) => true,
        Terminal::Increment | Terminal::Decrement => true,
        _ => begins_unsigned(terminal),
    }
}

//! Units from texts of words.
//!
//! Each word stands before its operands. Names are written `'A`, class types `:A`, array types `@ I` or `dims 2 I`, lists
//! `( )` of expressions, `< >` of types, `{ }` of statements and `[ ]` of catches. A class takes the members behind it. The
//! words are read from the last to the first, so that each finds its operands on top of their stacks. In a text the words of
//! nodes stand in preorder.
//!
//! A piece between semicolons that begins with a number and `times` stands so often, and `%` at the end of a word is then
//! the number of its turn.

use crate::code::Code;
use crate::leaves::Leaves;
use crate::members::Members;
use bcj_symbolic::{MethodKind, PrintKind, SymUnit, boot};
use std::alloc::Global;

#[derive(Drop)]
struct Reader {
    alloc: Global,
    leaves: Leaves,
    code: Code,
    members: Members,
}

/// The boot unit, or what a text describes with others before and behind it.
pub fn unit_of(alloc: Global, before: &str, given: &str, behind: &str) -> Option<SymUnit> {
    if given == "boot" {
        return boot(alloc).ok();
    }
    let mut reader = Reader {
        alloc,
        leaves: Leaves::new(alloc),
        code: Code::new(alloc),
        members: Members::new(alloc),
    };
    reader.text(behind)?;
    for piece in given.rsplit(" ; ") {
        reader.piece(piece)?;
    }
    reader.text(before)?;
    reader.members.finish()
}

impl Reader {
    fn text(&mut self, text: &str) -> Option<()> {
        for word in text.rsplit(' ') {
            if !word.is_empty() {
                self.word(word)?;
            }
        }
        Some(())
    }

    fn piece(&mut self, piece: &str) -> Option<()> {
        match piece.split_once(" times ") {
            None => self.text(piece),
            Some((count, text)) => {
                let count: u32 = count.parse().ok()?;
                for before in 0..count {
                    self.turn(text, count - before)?;
                }
                Some(())
            }
        }
    }

    fn turn(&mut self, text: &str, number: u32) -> Option<()> {
        for word in text.rsplit(' ') {
            match word.strip_suffix('%') {
                None => self.word(word)?,
                Some(stem) => {
                    let numbered = format!(in self.alloc; "{stem}{number}").ok()?;
                    self.word(numbered.as_str())?;
                }
            }
        }
        Some(())
    }

    fn word(&mut self, word: &str) -> Option<()> {
        if is_operator(word) {
            return self.leaves.operator(word);
        }
        match word {
            "I" | "Z" | "V" => self.leaves.ty(word),
            "@" => self.leaves.array(1),
            "dims" => self.leaves.dims(),
            ">" => self.leaves.end_types(),
            "<" => self.leaves.begin_types(),
            _ => self.list(word),
        }
    }

    fn list(&mut self, word: &str) -> Option<()> {
        match word {
            ")" | "}" | "]" => self.code.end(word),
            "(" => self.code.begin_values(),
            "{" => self.code.begin_statements(),
            "[" => self.code.begin_catches(),
            "nothing" => Some(()),
            _ => self.simple_value(word),
        }
    }

    fn simple_value(&mut self, word: &str) -> Option<()> {
        match word {
            "true" | "false" | "null" => self.code.constant(word),
            "int" => self.code.int(&mut self.leaves),
            "local" => self.code.local(&mut self.leaves),
            "set" => self.code.set(&mut self.leaves),
            _ => self.joined_value(word),
        }
    }

    fn joined_value(&mut self, word: &str) -> Option<()> {
        match word {
            "neg" | "flip" | "not" | "length" => self.code.one_part(word),
            "and" | "or" | "elem" | "then" | "thennull" => self.code.two_parts(word),
            "cond" | "putelem" => self.code.three_parts(word),
            "binary" => self.code.binary(&mut self.leaves),
            _ => self.field_value(word),
        }
    }

    fn field_value(&mut self, word: &str) -> Option<()> {
        match word {
            "getstatic" => self.code.get_static(&mut self.leaves),
            "getfield" | "putstatic" => self.code.field_part(word, &mut self.leaves),
            "putfield" => self.code.put_field(&mut self.leaves),
            _ => self.made_value(word),
        }
    }

    fn made_value(&mut self, word: &str) -> Option<()> {
        match word {
            "newarray" | "cast" | "widen" | "instanceof" => {
                self.code.typed(word, &mut self.leaves)
            }
            "new" | "callstatic" | "callspecial" => self.code.call(word, &mut self.leaves),
            "callvirtual" | "callinterface" => self.code.call_on(word, &mut self.leaves),
            _ => self.updated(word),
        }
    }

    fn updated(&mut self, word: &str) -> Option<()> {
        match word {
            "update" => self.code.update(false, &mut self.leaves),
            "postupdate" => self.code.update(true, &mut self.leaves),
            "atlocal" => self.code.local_place(&mut self.leaves),
            "atstatic" => self.code.static_place(&mut self.leaves),
            _ => self.place_below(word),
        }
    }

    fn place_below(&mut self, word: &str) -> Option<()> {
        match word {
            "atfield" => self.code.field_place(&mut self.leaves),
            "atelem" => self.code.element_place(),
            _ => self.printed(word),
        }
    }

    fn printed(&mut self, word: &str) -> Option<()> {
        match word {
            "printint" => self.code.print(PrintKind::Int),
            "printbool" => self.code.print(PrintKind::Bool),
            "printline" => self.code.print(PrintKind::Line),
            "printbyte" => self.code.print(PrintKind::Byte),
            _ => self.statement(word),
        }
    }

    fn statement(&mut self, word: &str) -> Option<()> {
        match word {
            "break" | "continue" | "return" => self.code.step(word),
            "eval" | "returnvalue" | "throw" => self.code.step_with(word),
            "block" => self.code.block(),
            "try" => self.code.try_catch(),
            "catch" => self.code.catch(&mut self.leaves),
            _ => self.branch(word),
        }
    }

    fn branch(&mut self, word: &str) -> Option<()> {
        match word {
            "if" => self.code.choice(),
            "while" => self.code.repetition(false),
            "dowhile" => self.code.repetition(true),
            _ => self.class(word),
        }
    }

    fn class(&mut self, word: &str) -> Option<()> {
        match word {
            "class" => self.members.class(false, &mut self.leaves),
            "subinterface" => self.members.class(true, &mut self.leaves),
            "root" => self.members.root(false, &mut self.leaves),
            "interface" => self.members.root(true, &mut self.leaves),
            _ => self.head(word),
        }
    }

    fn head(&mut self, word: &str) -> Option<()> {
        match word {
            "implements" => self.members.implements(&mut self.leaves),
            "pair" => self.members.pair(&mut self.leaves),
            "init" => self.members.init(&mut self.leaves, &mut self.code),
            _ => match word.strip_prefix("private") {
                None => self.field(word, word, false),
                Some(name) => self.field(word, name, true),
            },
        }
    }

    fn field(&mut self, word: &str, name: &str, private: bool) -> Option<()> {
        match name {
            "field" => self.members.field(false, private, &mut self.leaves),
            "static" => self.members.field(true, private, &mut self.leaves),
            "constant" => self.members.constant(true, private, &mut self.leaves),
            "bound" => self.members.constant(false, private, &mut self.leaves),
            _ => self.method(word, name, private),
        }
    }

    fn method(&mut self, word: &str, name: &str, private: bool) -> Option<()> {
        match kind_of(name) {
            None => self.leaves.sign(word),
            Some(kind) => self
                .members
                .method(kind, private, &mut self.leaves, &mut self.code),
        }
    }
}

fn kind_of(name: &str) -> Option<MethodKind> {
    match name {
        "function" => Some(MethodKind::Static),
        "method" => Some(MethodKind::Instance),
        "abstract" => Some(MethodKind::Abstract),
        "constructor" => Some(MethodKind::Constructor),
        _ => None,
    }
}

const OPERATORS: [&str; 17] = [
    "|", "^", "&", "==", "!=", "lt", "gt", "<=", ">=", "<<", ">>", ">>>", "+", "-", "*", "/", "%",
];

fn is_operator(word: &str) -> bool {
    OPERATORS.iter().any(|operator| *operator == word)
}

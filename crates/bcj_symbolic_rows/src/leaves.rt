//! Names, numbers, operators and types of a unit's text, each kind on a stack.

use bcj_symbolic::{BinaryOp, FieldRef, MethodRef, Name, Sequence, Ty, Types};
use sqlite_items::{Boxed, Items};
use std::alloc::Global;

#[derive(Drop)]
pub struct Leaves {
    alloc: Global,
    pub numbers: Items<i32>,
    pub names: Items<Name>,
    pub operators: Items<BinaryOp>,
    pub types: Items<Ty>,
    pub type_lists: Items<Types>,
    marks: Items<usize>,
}

/// What stands on a stack above a mark, the top first.
pub fn sequence<T: Drop>(alloc: Global, stack: &mut Items<T>, mark: usize) -> Option<Sequence<T>> {
    let mut list = Sequence::new(alloc);
    for _ in mark..stack.len() {
        list.push(stack.pop()?).ok()?;
    }
    Some(list)
}

impl Leaves {
    pub fn new(alloc: Global) -> Leaves {
        Leaves {
            alloc,
            numbers: Items::new(alloc),
            names: Items::new(alloc),
            operators: Items::new(alloc),
            types: Items::new(alloc),
            type_lists: Items::new(alloc),
            marks: Items::new(alloc),
        }
    }

    /// A number that isn't negative.
    pub fn count(&mut self) -> Option<u32> {
        u32::try_from(self.numbers.pop()?).ok()
    }

    pub fn field_ref(&mut self) -> Option<FieldRef> {
        let class = self.names.pop()?;
        let name = self.names.pop()?;
        let ty = self.types.pop()?;
        Some(FieldRef { class, name, ty })
    }

    pub fn method_ref(&mut self) -> Option<MethodRef> {
        let class = self.names.pop()?;
        let name = self.names.pop()?;
        let params = self.type_lists.pop()?;
        let result_type = self.types.pop()?;
        Some(MethodRef {
            class,
            name,
            params,
            result: result_type,
        })
    }

    /// A name behind `'`, a class type behind `:`, or a number.
    pub fn sign(&mut self, word: &str) -> Option<()> {
        if let Some(name) = word.strip_prefix('\'') {
            let name = Name::from_str(self.alloc, name).ok()?;
            return self.names.push(name).ok();
        }
        if let Some(class) = word.strip_prefix(':') {
            let name = Name::from_str(self.alloc, class).ok()?;
            return self.types.push(Ty::Class(name)).ok();
        }
        let number = word.parse().ok()?;
        self.numbers.push(number).ok()
    }

    pub fn ty(&mut self, word: &str) -> Option<()> {
        let ty = match word {
            "I" => Ty::Int,
            "Z" => Ty::Bool,
            "V" => Ty::Void,
            _ => return None,
        };
        self.types.push(ty).ok()
    }

    /// An array type of so many dimensions.
    pub fn array(&mut self, dims: u32) -> Option<()> {
        let mut ty = self.types.pop()?;
        for _ in 0..dims {
            ty = Ty::Array(Boxed::new(self.alloc, ty).ok()?);
        }
        self.types.push(ty).ok()
    }

    pub fn dims(&mut self) -> Option<()> {
        let dims = self.count()?;
        self.array(dims)
    }

    pub fn end_types(&mut self) -> Option<()> {
        self.marks.push(self.types.len()).ok()
    }

    pub fn begin_types(&mut self) -> Option<()> {
        let mark = self.marks.pop()?;
        let list = sequence(self.alloc, &mut self.types, mark)?;
        self.type_lists.push(list).ok()
    }

    pub fn operator(&mut self, word: &str) -> Option<()> {
        let operator = match word {
            "|" => BinaryOp::Or,
            "^" => BinaryOp::Xor,
            "&" => BinaryOp::And,
            "==" => BinaryOp::Eq,
            "!=" => BinaryOp::Ne,
            "lt" => BinaryOp::Lt,
            "gt" => BinaryOp::Gt,
            "<=" => BinaryOp::Le,
            ">=" => BinaryOp::Ge,
            "<<" => BinaryOp::Shl,
            ">>" => BinaryOp::Shr,
            ">>>" => BinaryOp::Ushr,
            "+" => BinaryOp::Add,
            "-" => BinaryOp::Sub,
            "*" => BinaryOp::Mul,
            "/" => BinaryOp::Div,
            "%" => BinaryOp::Rem,
            _ => return None,
        };
        self.operators.push(operator).ok()
    }
}

//! Expressions and statements of a unit's text, each kind on a stack. The function of a word takes its operands from there.

use crate::leaves::Leaves;
use bcj_symbolic::{PrintKind, SymCatch, SymExpr, SymStmt, UnaryOp, UpdatePlace};
use sqlite_items::{Boxed, Items};
use std::alloc::Global;

#[derive(Drop)]
pub struct Code {
    alloc: Global,
    values: Items<SymExpr>,
    value_lists: Items<Items<SymExpr>>,
    places: Items<UpdatePlace>,
    statements: Items<SymStmt>,
    pub bodies: Items<Items<SymStmt>>,
    catches: Items<SymCatch>,
    catch_lists: Items<Items<SymCatch>>,
    marks: Items<usize>,
}

/// What stands on a stack above a mark, the top first.
fn items<T: Drop>(alloc: Global, stack: &mut Items<T>, mark: usize) -> Option<Items<T>> {
    let mut list = Items::new(alloc);
    for _ in mark..stack.len() {
        list.push(stack.pop()?).ok()?;
    }
    Some(list)
}

impl Code {
    pub fn new(alloc: Global) -> Code {
        Code {
            alloc,
            values: Items::new(alloc),
            value_lists: Items::new(alloc),
            places: Items::new(alloc),
            statements: Items::new(alloc),
            bodies: Items::new(alloc),
            catches: Items::new(alloc),
            catch_lists: Items::new(alloc),
            marks: Items::new(alloc),
        }
    }

    fn part(&mut self) -> Option<Boxed<SymExpr>> {
        let value = self.values.pop()?;
        Boxed::new(self.alloc, value).ok()
    }

    fn substatement(&mut self) -> Option<Boxed<SymStmt>> {
        let statement = self.statements.pop()?;
        Boxed::new(self.alloc, statement).ok()
    }

    /// The end of a list, where its items begin to be read.
    pub fn end(&mut self, word: &str) -> Option<()> {
        let mark = match word {
            ")" => self.values.len(),
            "}" => self.statements.len(),
            "]" => self.catches.len(),
            _ => return None,
        };
        self.marks.push(mark).ok()
    }

    pub fn begin_values(&mut self) -> Option<()> {
        let mark = self.marks.pop()?;
        let list = items(self.alloc, &mut self.values, mark)?;
        self.value_lists.push(list).ok()
    }

    pub fn begin_statements(&mut self) -> Option<()> {
        let mark = self.marks.pop()?;
        let list = items(self.alloc, &mut self.statements, mark)?;
        self.bodies.push(list).ok()
    }

    pub fn begin_catches(&mut self) -> Option<()> {
        let mark = self.marks.pop()?;
        let list = items(self.alloc, &mut self.catches, mark)?;
        self.catch_lists.push(list).ok()
    }

    // ---- expressions

    pub fn constant(&mut self, word: &str) -> Option<()> {
        let value = match word {
            "true" => SymExpr::Bool(true),
            "false" => SymExpr::Bool(false),
            "null" => SymExpr::Null,
            _ => return None,
        };
        self.values.push(value).ok()
    }

    pub fn int(&mut self, leaves: &mut Leaves) -> Option<()> {
        let number = leaves.numbers.pop()?;
        self.values.push(SymExpr::Int(number)).ok()
    }

    pub fn local(&mut self, leaves: &mut Leaves) -> Option<()> {
        let number = leaves.count()?;
        self.values.push(SymExpr::Local(number)).ok()
    }

    pub fn set(&mut self, leaves: &mut Leaves) -> Option<()> {
        let number = leaves.count()?;
        let value = self.part()?;
        self.values.push(SymExpr::SetLocal(number, value)).ok()
    }

    pub fn one_part(&mut self, word: &str) -> Option<()> {
        let part = self.part()?;
        let value = match word {
            "neg" => SymExpr::Unary(UnaryOp::Minus, part),
            "flip" => SymExpr::Unary(UnaryOp::Flip, part),
            "not" => SymExpr::Unary(UnaryOp::Not, part),
            "length" => SymExpr::Length(part),
            _ => return None,
        };
        self.values.push(value).ok()
    }

    pub fn two_parts(&mut self, word: &str) -> Option<()> {
        let first = self.part()?;
        let second = self.part()?;
        let value = match word {
            "and" => SymExpr::And(first, second),
            "or" => SymExpr::Or(first, second),
            "elem" => SymExpr::GetElem(first, second),
            "then" | "thennull" => SymExpr::Then {
                first,
                null_test: word == "thennull",
                second,
            },
            _ => return None,
        };
        self.values.push(value).ok()
    }

    pub fn three_parts(&mut self, word: &str) -> Option<()> {
        let first = self.part()?;
        let second = self.part()?;
        let third = self.part()?;
        let value = match word {
            "cond" => SymExpr::Cond(first, second, third),
            "putelem" => SymExpr::SetElem(first, second, third),
            _ => return None,
        };
        self.values.push(value).ok()
    }

    pub fn binary(&mut self, leaves: &mut Leaves) -> Option<()> {
        let operator = leaves.operators.pop()?;
        let first = self.part()?;
        let second = self.part()?;
        let value = SymExpr::Binary(operator, first, second);
        self.values.push(value).ok()
    }

    pub fn get_static(&mut self, leaves: &mut Leaves) -> Option<()> {
        let field = leaves.field_ref()?;
        self.values.push(SymExpr::GetStatic(field)).ok()
    }

    /// A field and one part.
    pub fn field_part(&mut self, word: &str, leaves: &mut Leaves) -> Option<()> {
        let field = leaves.field_ref()?;
        let part = self.part()?;
        let value = match word {
            "getfield" => SymExpr::GetField(part, field),
            "putstatic" => SymExpr::SetStatic(field, part),
            _ => return None,
        };
        self.values.push(value).ok()
    }

    pub fn put_field(&mut self, leaves: &mut Leaves) -> Option<()> {
        let field = leaves.field_ref()?;
        let target = self.part()?;
        let value = self.part()?;
        let value = SymExpr::SetField(target, field, value);
        self.values.push(value).ok()
    }

    pub fn typed(&mut self, word: &str, leaves: &mut Leaves) -> Option<()> {
        let ty = leaves.types.pop()?;
        let part = self.part()?;
        let value = match word {
            "newarray" => SymExpr::NewArray(ty, part),
            "cast" => SymExpr::Cast(ty, part),
            "widen" => SymExpr::Widen(ty, part),
            "instanceof" => SymExpr::InstanceOf(part, ty),
            _ => return None,
        };
        self.values.push(value).ok()
    }

    pub fn print(&mut self, kind: PrintKind) -> Option<()> {
        let values = self.value_lists.pop()?;
        self.values.push(SymExpr::Print(kind, values)).ok()
    }

    /// A call without a target.
    pub fn call(&mut self, word: &str, leaves: &mut Leaves) -> Option<()> {
        let method = leaves.method_ref()?;
        let arguments = self.value_lists.pop()?;
        let value = match word {
            "new" => SymExpr::New(method, arguments),
            "callstatic" => SymExpr::CallStatic(method, arguments),
            "callspecial" => SymExpr::CallSpecial(method, arguments),
            _ => return None,
        };
        self.values.push(value).ok()
    }

    pub fn call_on(&mut self, word: &str, leaves: &mut Leaves) -> Option<()> {
        let method = leaves.method_ref()?;
        let target = self.part()?;
        let arguments = self.value_lists.pop()?;
        let value = match word {
            "callvirtual" => SymExpr::CallVirtual(target, method, arguments),
            "callinterface" => SymExpr::CallInterface(target, method, arguments),
            _ => return None,
        };
        self.values.push(value).ok()
    }

    // ---- updates

    pub fn local_place(&mut self, leaves: &mut Leaves) -> Option<()> {
        let number = leaves.count()?;
        self.places.push(UpdatePlace::Local(number)).ok()
    }

    pub fn static_place(&mut self, leaves: &mut Leaves) -> Option<()> {
        let field = leaves.field_ref()?;
        self.places.push(UpdatePlace::Static(field)).ok()
    }

    pub fn field_place(&mut self, leaves: &mut Leaves) -> Option<()> {
        let field = leaves.field_ref()?;
        let target = self.part()?;
        self.places.push(UpdatePlace::Field(target, field)).ok()
    }

    pub fn element_place(&mut self) -> Option<()> {
        let array = self.part()?;
        let index = self.part()?;
        self.places.push(UpdatePlace::Elem(array, index)).ok()
    }

    pub fn update(&mut self, post: bool, leaves: &mut Leaves) -> Option<()> {
        let op = leaves.operators.pop()?;
        let place = self.places.pop()?;
        let value = self.part()?;
        let updated = SymExpr::Update {
            place,
            op,
            value,
            post,
        };
        self.values.push(updated).ok()
    }

    // ---- statements

    pub fn step(&mut self, word: &str) -> Option<()> {
        let statement = match word {
            "break" => SymStmt::Break,
            "continue" => SymStmt::Continue,
            "return" => SymStmt::Return(None),
            _ => return None,
        };
        self.statements.push(statement).ok()
    }

    pub fn step_with(&mut self, word: &str) -> Option<()> {
        let value = self.values.pop()?;
        let statement = match word {
            "eval" => SymStmt::Expr(value),
            "returnvalue" => SymStmt::Return(Some(value)),
            "throw" => SymStmt::Throw(value),
            _ => return None,
        };
        self.statements.push(statement).ok()
    }

    pub fn block(&mut self) -> Option<()> {
        let body = self.bodies.pop()?;
        self.statements.push(SymStmt::Block(body)).ok()
    }

    pub fn try_catch(&mut self) -> Option<()> {
        let body = self.bodies.pop()?;
        let catches = self.catch_lists.pop()?;
        self.statements.push(SymStmt::Try(body, catches)).ok()
    }

    pub fn catch(&mut self, leaves: &mut Leaves) -> Option<()> {
        let class = leaves.names.pop()?;
        let local = leaves.count()?;
        let body = self.bodies.pop()?;
        self.catches.push(SymCatch { class, local, body }).ok()
    }

    fn put_statement(&mut self, statement: SymStmt) -> Option<()> {
        self.statements.push(statement).ok()
    }

    pub fn choice(&mut self) -> Option<()> {
        let test = self.part();
        let branches = self.substatement().zip(self.substatement());
        match test.zip(branches) {
            None => None,
            Some((test, (first, second))) => {
                self.put_statement(SymStmt::If(test.into_inner(), first, second))
            }
        }
    }

    pub fn repetition(&mut self, test_last: bool) -> Option<()> {
        let cond = self.part();
        let behind = self.substatement().zip(self.value_lists.pop());
        match cond.zip(behind) {
            None => None,
            Some((cond, (body, update))) => self.put_statement(SymStmt::Loop {
                test_last,
                cond: cond.into_inner(),
                body,
                update,
            }),
        }
    }
}

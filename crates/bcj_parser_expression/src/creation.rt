//! Creations of objects and arrays (JLS 15.9, 15.10).

ghost use Rattle.std.specs.Prelude.{◌+◌, ◌-◌, ◌≤◌, ◌<◌, IfOk};
ghost use Rattle.bcj_parser_rules.specs.function.Steps.{Reads};
ghost use Rattle.bcj_parser_rules.specs.function.Expressions as rule;
ghost use Rattle.bcj_parser_rules.specs.function.Expressions.{room_bound};
ghost use Rattle.bcj_parser_expression.specs.function.Nests.{Nests, one_of};

use crate::begin::Begin;
use crate::grammar::Grammar;
use crate::types::brackets;
use bcj_names::Name;
use bcj_parser_cursor::Cursor;
use bcj_parser_cursor::level::ASSIGNMENT;
use bcj_parser_rules::{Mark, Site, Stop, TypeBeginning};
use bcj_parser_trees::{Base, Expr};
use sqlite_items::Boxed;
use std::alloc::Global;

impl<F: Fn(Global, &mut Cursor<'_>, u32, Begin, u8) -> Result<(Expr, u32), Stop>> Grammar<F> {
    /// Behind the first `[` of the creation of an array.
    #[tactic(auto, unfolding(bcj_parser_rules::specs::function::Expressions::first_length))]
    fn first_length(&self, cursor: &mut Cursor<'_>) -> Result<(Boxed<Expr>, u32), Stop>
        requires small { self.now.room < room_bound }
        requires nests { Nests self.now.room (F.pre self.now.reader) (F.post self.now.reader) }
        ensures reads { Reads one_of (rule.first_length (rule.expression self.now.room) cursor.old) result cursor.new }
        ensures low { IfOk result (λ p. p.1 ≤ self.now.room) }
    {
        if cursor.sees(Mark::RightBracket) {
            return Err(Stop::Refused(Site::FirstBracket));
        }
        self.part(cursor, Begin::Fresh, ASSIGNMENT)
    }

    /// Behind `new` and the type.
    #[tactic(auto, unfolding(bcj_parser_rules::specs::function::Expressions::array_creation), using(bcj_parser_trees::proofs::PlainLemmas::tree_rules))]
    fn array_creation(
        &self,
        cursor: &mut Cursor<'_>,
        at: u32,
        base: Base,
    ) -> Result<(Expr, u32), Stop>
        requires small { self.now.room < room_bound }
        requires nests { Nests self.now.room (F.pre self.now.reader) (F.post self.now.reader) }
        ensures reads { Reads one_of (rule.array_creation self.now.room (rule.expression self.now.room) at base cursor.old) result cursor.new }
        ensures low { IfOk result (λ p. p.1 ≤ self.now.room + 1) }
    {
        if self.room == 0 {
            return Err(if cursor.sees(Mark::LeftBracket) {
                Stop::TooDeep
            } else {
                Stop::Refused(Site::TypeName)
            });
        }
        cursor.expect(Mark::LeftBracket, Site::TypeName)?;
        let (length, height) = self.first_length(cursor)?;
        cursor.expect(Mark::RightBracket, Site::Elsewhere)?;
        let dims = brackets(cursor, Site::Dimension, self.room - 1, 0)? + 1;
        Ok((
            Expr::NewArray {
                at,
                base,
                length,
                dims,
            },
            height.max(dims) + 1,
        ))
    }

    #[tactic(auto, unfolding(bcj_parser_rules::specs::function::Expressions::primitive_creation))]
    fn primitive_creation(
        &self,
        cursor: &mut Cursor<'_>,
        at: u32,
        base: Base,
    ) -> Result<(Expr, u32), Stop>
        requires small { self.now.room < room_bound }
        requires nests { Nests self.now.room (F.pre self.now.reader) (F.post self.now.reader) }
        ensures reads { Reads one_of (rule.primitive_creation self.now.room (rule.expression self.now.room) at base cursor.old) result cursor.new }
        ensures low { IfOk result (λ p. p.1 ≤ self.now.room + 1) }
    {
        if self.room == 0 {
            return Err(Stop::TooDeep);
        }
        cursor.advance();
        self.array_creation(cursor, at, base)
    }

    #[tactic(auto, unfolding(bcj_parser_rules::specs::function::Expressions::object_creation), using(bcj_parser_trees::proofs::PlainLemmas::tree_rules))]
    fn object_creation(
        &self,
        cursor: &mut Cursor<'_>,
        at: u32,
        name: Name,
    ) -> Result<(Expr, u32), Stop>
        requires small { self.now.room < room_bound }
        requires nests { Nests self.now.room (F.pre self.now.reader) (F.post self.now.reader) }
        ensures reads { Reads one_of (rule.object_creation (rule.expression self.now.room) at name cursor.old) result cursor.new }
        ensures low { IfOk result (λ p. p.1 ≤ self.now.room + 1) }
    {
        let (args, height) = self.arguments(cursor)?;
        if cursor.sees(Mark::LeftBrace) {
            return Err(Stop::Refused(Site::Creation));
        }
        Ok((Expr::New { at, name, args }, height + 1))
    }

    #[tactic(auto, unfolding(bcj_parser_rules::specs::function::Expressions::named_creation))]
    fn named_creation(
        &self,
        cursor: &mut Cursor<'_>,
        at: u32,
        name: Name,
    ) -> Result<(Expr, u32), Stop>
        requires small { self.now.room < room_bound }
        requires nests { Nests self.now.room (F.pre self.now.reader) (F.post self.now.reader) }
        ensures reads { Reads one_of (rule.named_creation self.now.room (rule.expression self.now.room) at name cursor.old) result cursor.new }
        ensures low { IfOk result (λ p. p.1 ≤ self.now.room + 1) }
    {
        if cursor.sees(Mark::LeftParen) {
            self.object_creation(cursor, at, name)
        } else {
            self.array_creation(cursor, at, Base::Named(name))
        }
    }

    /// Behind `new`.
    #[tactic(auto, unfolding(bcj_parser_rules::specs::function::Expressions::creation))]
    pub fn creation(&self, cursor: &mut Cursor<'_>, at: u32) -> Result<(Expr, u32), Stop>
        requires small { self.now.room < room_bound }
        requires nests { Nests self.now.room (F.pre self.now.reader) (F.post self.now.reader) }
        ensures reads { Reads one_of (rule.creation self.now.room (rule.expression self.now.room) at cursor.old) result cursor.new }
        ensures low { IfOk result (λ p. p.1 ≤ self.now.room + 1) }
    {
        match cursor.type_beginning() {
            TypeBeginning::Int => self.primitive_creation(cursor, at, Base::Int),
            TypeBeginning::Bool => self.primitive_creation(cursor, at, Base::Bool),
            TypeBeginning::Name => {
                let name = cursor.name(self.alloc)?;
                cursor.advance();
                self.named_creation(cursor, at, name)
            }
            TypeBeginning::Nothing => Err(Stop::Refused(Site::Elsewhere)),
        }
    }
}

//! Casts, and expressions in parentheses (JLS 15.8.5, 15.16).

ghost use Rattle.std.specs.Prelude.{◌+◌, ◌-◌, ◌≤◌, ◌<◌, IfOk};
ghost use Rattle.bcj_parser_rules.specs.Lexemes.{terminal_at};
ghost use Rattle.bcj_parser_rules.specs.function.Kinds.{type_beginning};
ghost use Rattle.bcj_parser_rules.specs.function.Steps.{Reads};
ghost use Rattle.bcj_parser_rules.specs.Levels as level;
ghost use Rattle.bcj_parser_rules.specs.function.Expressions as rule;
ghost use Rattle.bcj_parser_rules.specs.function.Expressions.{room_bound};
ghost use Rattle.bcj_parser_expression.specs.function.Begin.{begin_of};
ghost use Rattle.bcj_parser_expression.specs.function.Nests.{Nests, one_of};

use crate::begin::Begin;
use crate::grammar::Grammar;
use crate::types::brackets;
use bcj_names::Name;
use bcj_parser_cursor::Cursor;
use bcj_parser_cursor::level::{ASSIGNMENT, UNARY};
use bcj_parser_rules::{Mark, Site, Stop, TypeBeginning};
use bcj_parser_trees::{Base, Expr, TypeName};
use sqlite_items::Boxed;
use std::alloc::Global;

impl<F: Fn(Global, &mut Cursor<'_>, u32, Begin, u8) -> Result<(Expr, u32), Stop>> Grammar<F> {
    /// Behind the `)` of a cast.
    #[tactic(auto, unfolding(bcj_parser_rules::specs::function::Expressions::cast_operand), using(bcj_parser_trees::proofs::PlainLemmas::tree_rules))]
    fn cast_operand(
        &self,
        cursor: &mut Cursor<'_>,
        at: u32,
        ty: TypeName,
    ) -> Result<(Expr, u32), Stop>
        requires small { self.now.room < room_bound }
        requires nests { Nests self.now.room (F.pre self.now.reader) (F.post self.now.reader) }
        requires low { ty.dims ≤ self.now.room }
        ensures reads { Reads one_of (rule.cast_operand (rule.expression self.now.room) at ty cursor.old) result cursor.new }
        ensures low { IfOk result (λ p. p.1 ≤ self.now.room + 1) }
    {
        let (part, height) = self.part(cursor, Begin::Fresh, UNARY)?;
        let high = ty.dims.max(height) + 1;
        Ok((Expr::Cast { at, ty, part }, high))
    }

    /// Behind `(int` or `(boolean`.
    #[tactic(auto, unfolding(bcj_parser_rules::specs::function::Expressions::primitive_cast))]
    fn primitive_cast(
        &self,
        cursor: &mut Cursor<'_>,
        at: u32,
        base: Base,
    ) -> Result<(Expr, u32), Stop>
        requires small { self.now.room < room_bound }
        requires nests { Nests self.now.room (F.pre self.now.reader) (F.post self.now.reader) }
        ensures reads { Reads one_of (rule.primitive_cast self.now.room (rule.expression self.now.room) at base cursor.old) result cursor.new }
        ensures low { IfOk result (λ p. p.1 ≤ self.now.room + 1) }
    {
        let dims = brackets(cursor, Site::Elsewhere, self.room, 0)?;
        cursor.expect(Mark::RightParen, Site::Elsewhere)?;
        self.cast_operand(cursor, at, TypeName { base, dims })
    }

    /// An expression and the `)` behind it.
    #[tactic(auto, unfolding(bcj_parser_rules::specs::function::Expressions::closed), using(bcj_parser_trees::proofs::PlainLemmas::tree_rules))]
    fn closed(&self, cursor: &mut Cursor<'_>, at: u32, begin: Begin) -> Result<(Expr, u32), Stop>
        requires small { self.now.room < room_bound }
        requires nests { Nests self.now.room (F.pre self.now.reader) (F.post self.now.reader) }
        ensures reads { Reads one_of (rule.closed at (rule.expression self.now.room (begin_of begin) level.assignment) cursor.old) result cursor.new }
        ensures low { IfOk result (λ p. p.1 ≤ self.now.room + 1) }
    {
        let (part, height) = self.part(cursor, begin, ASSIGNMENT)?;
        cursor.expect(Mark::RightParen, Site::Elsewhere)?;
        Ok((Expr::Paren { at, part }, height + 1))
    }

    /// Behind `(`, a name and `)`.
    #[tactic(auto, unfolding(bcj_parser_rules::specs::function::Expressions::class_cast), using(bcj_parser_trees::proofs::PlainLemmas::tree_rules))]
    fn class_cast(
        &self,
        cursor: &mut Cursor<'_>,
        at: u32,
        from: u32,
        name: Name,
    ) -> Result<(Expr, u32), Stop>
        requires small { self.now.room < room_bound }
        requires nests { Nests self.now.room (F.pre self.now.reader) (F.post self.now.reader) }
        requires some { 0 < self.now.room }
        ensures reads { Reads one_of (rule.class_cast (rule.expression self.now.room) at from name cursor.old) result cursor.new }
        ensures low { IfOk result (λ p. p.1 ≤ self.now.room + 1) }
    {
        if cursor.begins_unsigned() {
            let base = Base::Named(name);
            return self.cast_operand(cursor, at, TypeName { base, dims: 0 });
        }
        let part = Boxed::new(self.alloc, Expr::Name { at: from, name })?;
        Ok((Expr::Paren { at, part }, 2))
    }

    /// Behind `(`, a name and its first pair of brackets.
    #[tactic(auto, unfolding(bcj_parser_rules::specs::function::Expressions::array_cast))]
    fn array_cast(&self, cursor: &mut Cursor<'_>, at: u32, name: Name) -> Result<(Expr, u32), Stop>
        requires small { self.now.room < room_bound }
        requires nests { Nests self.now.room (F.pre self.now.reader) (F.post self.now.reader) }
        requires some { 0 < self.now.room }
        ensures reads { Reads one_of (rule.array_cast (self.now.room - 1) (rule.expression self.now.room) at name cursor.old) result cursor.new }
        ensures low { IfOk result (λ p. p.1 ≤ self.now.room + 1) }
    {
        let dims = brackets(cursor, Site::Elsewhere, self.room - 1, 1)?;
        cursor.expect(Mark::RightParen, Site::Elsewhere)?;
        if !cursor.begins_unsigned() {
            return Err(Stop::Refused(Site::Elsewhere));
        }
        let base = Base::Named(name);
        self.cast_operand(cursor, at, TypeName { base, dims })
    }

    /// Behind `(`, a name and `[`.
    #[tactic(auto, unfolding(bcj_parser_rules::specs::function::Expressions::bracket_paren))]
    fn bracket_paren(
        &self,
        cursor: &mut Cursor<'_>,
        at: u32,
        from: u32,
        name: Name,
    ) -> Result<(Expr, u32), Stop>
        requires small { self.now.room < room_bound }
        requires nests { Nests self.now.room (F.pre self.now.reader) (F.post self.now.reader) }
        requires some { 0 < self.now.room }
        ensures reads { Reads one_of (rule.bracket_paren (self.now.room - 1) (rule.expression self.now.room) at from name cursor.old) result cursor.new }
        ensures low { IfOk result (λ p. p.1 ≤ self.now.room + 1) }
    {
        if cursor.sees(Mark::RightBracket) {
            cursor.advance();
            self.array_cast(cursor, at, name)
        } else {
            self.closed(cursor, at, Begin::Bracket { at: from, name })
        }
    }

    /// Behind `(` and a name.
    #[tactic(auto, unfolding(bcj_parser_rules::specs::function::Expressions::named_paren))]
    fn named_paren(
        &self,
        cursor: &mut Cursor<'_>,
        at: u32,
        from: u32,
        name: Name,
    ) -> Result<(Expr, u32), Stop>
        requires small { self.now.room < room_bound }
        requires nests { Nests self.now.room (F.pre self.now.reader) (F.post self.now.reader) }
        requires some { 0 < self.now.room }
        ensures reads { Reads one_of (rule.named_paren (self.now.room - 1) (rule.expression self.now.room) at from name cursor.old) result cursor.new }
        ensures low { IfOk result (λ p. p.1 ≤ self.now.room + 1) }
    {
        if cursor.sees(Mark::RightParen) {
            cursor.advance();
            self.class_cast(cursor, at, from, name)
        } else if cursor.sees(Mark::LeftBracket) {
            cursor.advance();
            self.bracket_paren(cursor, at, from, name)
        } else {
            self.closed(cursor, at, Begin::Name { at: from, name })
        }
    }

    /// Behind `(`, which may begin a cast.
    fn paren_by(&self, cursor: &mut Cursor<'_>, at: u32) -> Result<(Expr, u32), Stop>
        requires small { self.now.room < room_bound }
        requires nests { Nests self.now.room (F.pre self.now.reader) (F.post self.now.reader) }
        requires some { 0 < self.now.room }
        ensures reads { Reads one_of (rule.paren_by (self.now.room - 1) (rule.expression self.now.room) at (type_beginning (terminal_at cursor.old)) cursor.old) result cursor.new }
        ensures low { IfOk result (λ p. p.1 ≤ self.now.room + 1) }
    {
        match cursor.type_beginning() {
            TypeBeginning::Int => {
                cursor.advance();
                self.primitive_cast(cursor, at, Base::Int)
            }
            TypeBeginning::Bool => {
                cursor.advance();
                self.primitive_cast(cursor, at, Base::Bool)
            }
            TypeBeginning::Name => {
                let from = cursor.at();
                let name = cursor.name(self.alloc)?;
                cursor.advance();
                self.named_paren(cursor, at, from, name)
            }
            TypeBeginning::Nothing => self.closed(cursor, at, Begin::Fresh),
        }
    }

    /// At `(`; what it begins may be a cast where `castable`.
    #[tactic(auto, unfolding(bcj_parser_rules::specs::function::Expressions::parenthesized))]
    pub fn parenthesized(
        &self,
        cursor: &mut Cursor<'_>,
        castable: bool,
        at: u32,
    ) -> Result<(Expr, u32), Stop>
        requires small { self.now.room < room_bound }
        requires nests { Nests self.now.room (F.pre self.now.reader) (F.post self.now.reader) }
        ensures reads { Reads one_of (rule.parenthesized self.now.room (rule.expression self.now.room) castable at cursor.old) result cursor.new }
        ensures low { IfOk result (λ p. p.1 ≤ self.now.room + 1) }
    {
        if self.room == 0 {
            return Err(Stop::TooDeep);
        }
        cursor.advance();
        if castable {
            self.paren_by(cursor, at)
        } else {
            self.closed(cursor, at, Begin::Fresh)
        }
    }
}

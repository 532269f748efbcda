//! Operands: names, calls, literals, unary operators.

ghost use Rattle.std.specs.Prelude.{Ok, ◌+◌, ◌≤◌, ◌<◌, length, map, IfOk};
ghost use Rattle.bcj_parser_trees.specs.Plain.{expr_of};
ghost use Rattle.bcj_parser_rules.specs.declared.kind.Beginning.TheVariants as begin;
ghost use Rattle.bcj_parser_rules.specs.function.Steps.{Reads, rest};
ghost use Rattle.bcj_parser_rules.specs.Levels as level;
ghost use Rattle.bcj_parser_rules.specs.function.Expressions as rule;
ghost use Rattle.bcj_parser_rules.specs.function.Expressions.{room_bound};
ghost use Rattle.bcj_parser_expression.specs.function.Begin.{begin_of};
ghost use Rattle.bcj_parser_expression.specs.function.Nests.{Nests, one_of, list_of, args_of};

use crate::begin::Begin;
use crate::grammar::Grammar;
use crate::literal::{int_value, is_decimal};
use crate::shape::is_place;
use bcj_names::Name;
use bcj_parser_cursor::Cursor;
use bcj_parser_cursor::level::{ASSIGNMENT, PRIMARY, UNARY};
use bcj_parser_rules::{Beginning, Mark, Site, Stop};
use bcj_parser_trees::{Expr, UnaryOp};
use sqlite_items::{Boxed, Items};
use std::alloc::Global;

/// A token that is an operand by itself.
pub fn leaf(cursor: &mut Cursor<'_>, expr: Expr) -> Result<(Expr, u32), Stop>
    ensures reads { Reads one_of (Ok (expr_of expr, 1), rest cursor.old) result cursor.new }
    ensures low { IfOk result (λ p. p.1 ≤ 1) }
{
    cursor.advance();
    Ok((expr, 1))
}

impl<F: Fn(Global, &mut Cursor<'_>, u32, Begin, u8) -> Result<(Expr, u32), Stop>> Grammar<F> {
    /// Further items, each behind a comma.
    #[tactic(auto, unfolding(bcj_parser_rules::specs::function::Expressions::separated), using(bcj_parser_trees::proofs::PlainLemmas::tree_rules))]
    fn separated(
        &self,
        cursor: &mut Cursor<'_>,
        mut found: Items<Expr>,
        mut high: u32,
    ) -> Result<(Items<Expr>, u32), Stop>
        requires small { self.now.room < room_bound }
        requires nests { Nests self.now.room (F.pre self.now.reader) (F.post self.now.reader) }
        requires low { high ≤ self.now.room }
        ensures reads { Reads list_of (rule.separated (rule.expression self.now.room rule.fresh level.assignment) (length cursor.old) (map expr_of found) high cursor.old) result cursor.new }
        ensures low { IfOk result (λ p. p.1 ≤ self.now.room) }
    {
        for _turn in 0..cursor.len() {
            if !cursor.sees(Mark::Comma) {
                return Ok((found, high));
            }
            cursor.advance();
            let (next, height) = self.inner(cursor, Begin::Fresh, ASSIGNMENT)?;
            found.push(next)?;
            high = high.max(height);
        }
        Ok((found, high))
    }

    /// A first item, and further ones.
    #[tactic(auto, unfolding(bcj_parser_rules::specs::function::Expressions::listed), using(bcj_parser_trees::proofs::PlainLemmas::tree_rules))]
    fn listed(&self, cursor: &mut Cursor<'_>) -> Result<(Items<Expr>, u32), Stop>
        requires small { self.now.room < room_bound }
        requires nests { Nests self.now.room (F.pre self.now.reader) (F.post self.now.reader) }
        ensures reads { Reads list_of (rule.listed (rule.expression self.now.room rule.fresh level.assignment) (rule.expression self.now.room rule.fresh level.assignment) cursor.old) result cursor.new }
        ensures low { IfOk result (λ p. p.1 ≤ self.now.room) }
    {
        let (first, height) = self.inner(cursor, Begin::Fresh, ASSIGNMENT)?;
        let mut found = Items::new(self.alloc);
        found.push(first)?;
        self.separated(cursor, found, height)
    }

    /// Arguments in parentheses, with the height of the highest.
    #[tactic(auto, unfolding(bcj_parser_rules::specs::function::Expressions::arguments), using(bcj_parser_trees::proofs::PlainLemmas::tree_rules))]
    pub fn arguments(&self, cursor: &mut Cursor<'_>) -> Result<(Items<Expr>, u32), Stop>
        requires small { self.now.room < room_bound }
        requires nests { Nests self.now.room (F.pre self.now.reader) (F.post self.now.reader) }
        ensures reads { Reads args_of (rule.arguments (rule.expression self.now.room) cursor.old) result cursor.new }
        ensures low { IfOk result (λ p. p.1 ≤ self.now.room) }
    {
        cursor.expect(Mark::LeftParen, Site::Elsewhere)?;
        if cursor.sees(Mark::RightParen) {
            cursor.advance();
            return Ok((Items::new(self.alloc), 0));
        }
        let found = self.listed(cursor)?;
        cursor.expect(Mark::RightParen, Site::Elsewhere)?;
        Ok(found)
    }

    /// Behind a name.
    #[tactic(auto, unfolding(bcj_parser_rules::specs::function::Expressions::named_operand), using(bcj_parser_trees::proofs::PlainLemmas::tree_rules))]
    fn named_operand(
        &self,
        cursor: &mut Cursor<'_>,
        at: u32,
        name: Name,
    ) -> Result<(Expr, u32), Stop>
        requires small { self.now.room < room_bound }
        requires nests { Nests self.now.room (F.pre self.now.reader) (F.post self.now.reader) }
        ensures reads { Reads one_of (rule.named_operand (rule.expression self.now.room) at name cursor.old) result cursor.new }
        ensures low { IfOk result (λ p. p.1 ≤ self.now.room + 1) }
    {
        if !cursor.sees(Mark::LeftParen) {
            return Ok((Expr::Name { at, name }, 1));
        }
        let (args, height) = self.arguments(cursor)?;
        Ok((Expr::Call { at, name, args }, height + 1))
    }

    #[tactic(auto, unfolding(bcj_parser_rules::specs::function::Expressions::super_member), using(bcj_parser_trees::proofs::PlainLemmas::tree_rules))]
    fn super_member(
        &self,
        cursor: &mut Cursor<'_>,
        at: u32,
        name: Name,
    ) -> Result<(Expr, u32), Stop>
        requires small { self.now.room < room_bound }
        requires nests { Nests self.now.room (F.pre self.now.reader) (F.post self.now.reader) }
        ensures reads { Reads one_of (rule.super_member (rule.expression self.now.room) at name cursor.old) result cursor.new }
        ensures low { IfOk result (λ p. p.1 ≤ self.now.room + 1) }
    {
        if !cursor.sees(Mark::LeftParen) {
            return Ok((Expr::SuperField { at, name }, 1));
        }
        let (args, height) = self.arguments(cursor)?;
        Ok((Expr::SuperCall { at, name, args }, height + 1))
    }

    /// Behind `super`.
    #[tactic(auto, unfolding(bcj_parser_rules::specs::function::Expressions::super_operand))]
    fn super_operand(&self, cursor: &mut Cursor<'_>, at: u32) -> Result<(Expr, u32), Stop>
        requires small { self.now.room < room_bound }
        requires nests { Nests self.now.room (F.pre self.now.reader) (F.post self.now.reader) }
        ensures reads { Reads one_of (rule.super_operand (rule.expression self.now.room) at cursor.old) result cursor.new }
        ensures low { IfOk result (λ p. p.1 ≤ self.now.room + 1) }
    {
        cursor.expect(Mark::Dot, Site::Elsewhere)?;
        let name = cursor.named(self.alloc, Site::Elsewhere)?;
        self.super_member(cursor, at, name)
    }

    /// Behind a name and `[`.
    #[tactic(auto, unfolding(bcj_parser_rules::specs::function::Expressions::element_operand), using(bcj_parser_trees::proofs::PlainLemmas::tree_rules))]
    fn element_operand(
        &self,
        cursor: &mut Cursor<'_>,
        at: u32,
        name: Name,
    ) -> Result<(Expr, u32), Stop>
        requires small { self.now.room < room_bound }
        requires nests { Nests self.now.room (F.pre self.now.reader) (F.post self.now.reader) }
        ensures reads { Reads one_of (rule.element_operand (rule.expression self.now.room) at name cursor.old) result cursor.new }
        ensures low { IfOk result (λ p. p.1 ≤ self.now.room + 1) }
    {
        let (index, height) = self.part(cursor, Begin::Fresh, ASSIGNMENT)?;
        cursor.expect(Mark::RightBracket, Site::Elsewhere)?;
        let array = Boxed::new(self.alloc, Expr::Name { at, name })?;
        Ok((Expr::Elem { at, array, index }, height.max(1) + 1))
    }

    /// At a unary operator.
    #[tactic(auto, unfolding(bcj_parser_rules::specs::function::Expressions::signed), using(bcj_parser_trees::proofs::PlainLemmas::tree_rules))]
    fn signed(&self, cursor: &mut Cursor<'_>, at: u32, op: UnaryOp) -> Result<(Expr, u32), Stop>
        requires small { self.now.room < room_bound }
        requires nests { Nests self.now.room (F.pre self.now.reader) (F.post self.now.reader) }
        ensures reads { Reads one_of (rule.signed self.now.room (rule.expression self.now.room) at op cursor.old) result cursor.new }
        ensures low { IfOk result (λ p. p.1 ≤ self.now.room + 1) }
    {
        if self.room == 0 {
            return Err(Stop::TooDeep);
        }
        cursor.advance();
        let (part, height) = self.part(cursor, Begin::Fresh, UNARY)?;
        Ok((Expr::Unary { at, op, part }, height + 1))
    }

    /// At `++` or `--` before a place.
    #[tactic(auto, unfolding(bcj_parser_rules::specs::function::Expressions::stepped), using(bcj_parser_trees::proofs::PlainLemmas::tree_rules))]
    fn stepped(&self, cursor: &mut Cursor<'_>, at: u32, plus: bool) -> Result<(Expr, u32), Stop>
        requires small { self.now.room < room_bound }
        requires nests { Nests self.now.room (F.pre self.now.reader) (F.post self.now.reader) }
        ensures reads { Reads one_of (rule.stepped self.now.room (rule.expression self.now.room) at plus cursor.old) result cursor.new }
        ensures low { IfOk result (λ p. p.1 ≤ self.now.room + 1) }
    {
        if self.room == 0 {
            return Err(Stop::TooDeep);
        }
        cursor.advance();
        let (place, height) = self.part(cursor, Begin::Fresh, PRIMARY)?;
        if !is_place(place.get()) {
            return Err(Stop::Refused(Site::Elsewhere));
        }
        let post = false;
        Ok((
            Expr::Step {
                at,
                plus,
                post,
                place,
            },
            height + 1,
        ))
    }

    #[tactic(auto, using(bcj_parser_trees::proofs::PlainLemmas::tree_rules))]
    fn integer(&self, cursor: &mut Cursor<'_>, at: u32) -> Result<(Expr, u32), Stop>
        ensures reads { Reads one_of (rule.operand_by self.now.room (rule.expression self.now.room) level.assignment at begin.Int cursor.old) result cursor.new }
        ensures low { IfOk result (λ p. p.1 ≤ 1) }
    {
        let word = cursor.word();
        let value = int_value(word);
        let decimal = is_decimal(word);
        leaf(cursor, Expr::Int { at, value, decimal })
    }

    /// An operand of a least level.
    #[tactic(auto, unfolding(bcj_parser_rules::specs::function::Expressions::operand), using(bcj_parser_trees::proofs::PlainLemmas::tree_rules))]
    pub fn operand(&self, cursor: &mut Cursor<'_>, least: u8, at: u32) -> Result<(Expr, u32), Stop>
        requires small { self.now.room < room_bound }
        requires nests { Nests self.now.room (F.pre self.now.reader) (F.post self.now.reader) }
        ensures reads { Reads one_of (rule.operand self.now.room (rule.expression self.now.room) least at cursor.old) result cursor.new }
        ensures low { IfOk result (λ p. p.1 ≤ self.now.room + 1) }
    {
        match cursor.beginning() {
            Beginning::Name => {
                let name = cursor.name(self.alloc)?;
                cursor.advance();
                self.named_operand(cursor, at, name)
            }
            Beginning::Int => self.integer(cursor, at),
            Beginning::Bool(value) => leaf(cursor, Expr::Bool { at, value }),
            Beginning::Null => leaf(cursor, Expr::Null { at }),
            Beginning::This => leaf(cursor, Expr::This { at }),
            Beginning::Super => {
                cursor.advance();
                self.super_operand(cursor, at)
            }
            Beginning::New => {
                cursor.advance();
                self.creation(cursor, at)
            }
            Beginning::Paren => self.parenthesized(cursor, least <= UNARY, at),
            Beginning::Signed(op) if least <= UNARY => self.signed(cursor, at, op),
            Beginning::Stepped(plus) if least <= UNARY => self.stepped(cursor, at, plus),
            _ => Err(Stop::Refused(Site::Elsewhere)),
        }
    }

    /// An operand of which tokens may have been taken.
    #[tactic(auto, using(bcj_parser_trees::proofs::PlainLemmas::tree_rules))]
    pub fn operand_from(
        &self,
        cursor: &mut Cursor<'_>,
        least: u8,
        at: u32,
        begin: Begin,
    ) -> Result<(Expr, u32), Stop>
        requires small { self.now.room < room_bound }
        requires nests { Nests self.now.room (F.pre self.now.reader) (F.post self.now.reader) }
        ensures reads { Reads one_of (rule.operand_from self.now.room (rule.expression self.now.room) least at (begin_of begin) cursor.old) result cursor.new }
        ensures low { IfOk result (λ p. p.1 ≤ self.now.room + 1) }
    {
        match begin {
            Begin::Fresh => self.operand(cursor, least, at),
            Begin::Name { at: _, name } => self.named_operand(cursor, at, name),
            Begin::Bracket { at: _, name } => self.element_operand(cursor, at, name),
            Begin::This { at: _ } => Ok((Expr::This { at }, 1)),
            Begin::Super { at: _ } => self.super_operand(cursor, at),
        }
    }
}

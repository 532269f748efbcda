//! What follows an operand.

ghost use Rattle.std.specs.Prelude.{suc, max, ◌≡◌, ◌+◌, ◌≤◌, ◌<◌, IfOk};
ghost use Rattle.bcj_parser_trees.specs.Trees as tree;
ghost use Rattle.bcj_parser_trees.specs.Plain.{expr_of};
ghost use Rattle.bcj_parser_rules.specs.declared.kind.Joining.TheVariants as join;
ghost use Rattle.bcj_parser_rules.specs.function.Steps.{Reads, then_read, pure};
ghost use Rattle.bcj_parser_rules.specs.Levels as level;
ghost use Rattle.bcj_parser_rules.specs.function.Expressions as rule;
ghost use Rattle.bcj_parser_rules.specs.function.Expressions.{room_bound};
ghost use Rattle.bcj_parser_expression.specs.function.Nests.{Nests, one_of};

use crate::begin::Begin;
use crate::grammar::Grammar;
use crate::shape::allows;
use crate::types::type_name;
use bcj_names::Name;
use bcj_parser_cursor::Cursor;
use bcj_parser_cursor::level::{ASSIGNMENT, CONDITIONAL, binds, level_behind};
use bcj_parser_rules::{Joining, Mark, Site, Stop};
use bcj_parser_trees::{BinOp, Expr};
use sqlite_items::Boxed;
use std::alloc::Global;

impl<F: Fn(Global, &mut Cursor<'_>, u32, Begin, u8) -> Result<(Expr, u32), Stop>> Grammar<F> {
    #[tactic(auto, using(bcj_parser_trees::proofs::PlainLemmas::tree_rules))]
    fn assigned(
        &self,
        cursor: &mut Cursor<'_>,
        at: u32,
        left: Boxed<Expr>,
        high: u32,
        op: Option<BinOp>,
    ) -> Result<(Expr, u32), Stop>
        requires small { self.now.room < room_bound }
        requires nests { Nests self.now.room (F.pre self.now.reader) (F.post self.now.reader) }
        requires low { high ≤ self.now.room }
        ensures reads { Reads one_of (rule.joined_by self.now.room (rule.expression self.now.room) at (expr_of left, high) (join.Assign op) cursor.old) result cursor.new }
        ensures low { IfOk result (λ p. p.1 ≤ self.now.room + 1) }
    {
        cursor.advance();
        let (value, height) = self.part(cursor, Begin::Fresh, level_behind(Joining::Assign(op)))?;
        let place = left;
        Ok((
            Expr::Assign {
                at,
                op,
                place,
                value,
            },
            high.max(height) + 1,
        ))
    }

    /// Behind the `:` of a conditional.
    #[tactic(auto, using(bcj_parser_trees::proofs::PlainLemmas::tree_rules))]
    fn otherwise(
        &self,
        cursor: &mut Cursor<'_>,
        at: u32,
        test: Boxed<Expr>,
        first: Boxed<Expr>,
        high: u32,
        first_high: u32,
    ) -> Result<(Expr, u32), Stop>
        requires small { self.now.room < room_bound }
        requires nests { Nests self.now.room (F.pre self.now.reader) (F.post self.now.reader) }
        requires low { high ≤ self.now.room }
        requires first_low { first_high ≤ self.now.room }
        ensures reads { Reads one_of (then_read (rule.expression self.now.room rule.fresh level.conditional cursor.old) (λ r. pure (tree.conditional at (expr_of test) (expr_of first) r.0, suc (max high (max first_high r.1))))) result cursor.new }
        ensures low { IfOk result (λ p. p.1 ≤ self.now.room + 1) }
    {
        let (second, height) = self.part(cursor, Begin::Fresh, CONDITIONAL)?;
        let high = high.max(first_high.max(height)) + 1;
        let conditional = Expr::Cond {
            at,
            test,
            first,
            second,
        };
        Ok((conditional, high))
    }

    /// Behind a condition and `?`.
    #[tactic(auto, unfolding(bcj_parser_rules::specs::function::Expressions::chosen), using(bcj_parser_trees::proofs::PlainLemmas::tree_rules))]
    fn chosen(
        &self,
        cursor: &mut Cursor<'_>,
        at: u32,
        left: Boxed<Expr>,
        high: u32,
    ) -> Result<(Expr, u32), Stop>
        requires small { self.now.room < room_bound }
        requires nests { Nests self.now.room (F.pre self.now.reader) (F.post self.now.reader) }
        requires low { high ≤ self.now.room }
        ensures reads { Reads one_of (rule.chosen (rule.expression self.now.room) at (expr_of left, high) cursor.old) result cursor.new }
        ensures low { IfOk result (λ p. p.1 ≤ self.now.room + 1) }
    {
        let (first, first_high) = self.part(cursor, Begin::Fresh, ASSIGNMENT)?;
        cursor.expect(Mark::Colon, Site::Elsewhere)?;
        self.otherwise(cursor, at, left, first, high, first_high)
    }

    /// At a binary operator.
    #[tactic(auto, using(bcj_parser_trees::proofs::PlainLemmas::tree_rules))]
    fn operated(
        &self,
        cursor: &mut Cursor<'_>,
        at: u32,
        left: Boxed<Expr>,
        high: u32,
        op: BinOp,
    ) -> Result<(Expr, u32), Stop>
        requires small { self.now.room < room_bound }
        requires nests { Nests self.now.room (F.pre self.now.reader) (F.post self.now.reader) }
        requires low { high ≤ self.now.room }
        ensures reads { Reads one_of (rule.joined_by self.now.room (rule.expression self.now.room) at (expr_of left, high) (join.Binary op) cursor.old) result cursor.new }
        ensures low { IfOk result (λ p. p.1 ≤ self.now.room + 1) }
    {
        cursor.advance();
        let (right, height) = self.part(cursor, Begin::Fresh, level_behind(Joining::Binary(op)))?;
        Ok((
            Expr::Binary {
                at,
                op,
                left,
                right,
            },
            high.max(height) + 1,
        ))
    }

    /// At `instanceof`.
    #[tactic(auto, using(bcj_parser_trees::proofs::PlainLemmas::tree_rules))]
    fn tested(
        &self,
        cursor: &mut Cursor<'_>,
        at: u32,
        left: Boxed<Expr>,
        high: u32,
    ) -> Result<(Expr, u32), Stop>
        requires small { self.now.room < room_bound }
        requires nests { Nests self.now.room (F.pre self.now.reader) (F.post self.now.reader) }
        requires low { high ≤ self.now.room }
        ensures reads { Reads one_of (rule.joined_by self.now.room (rule.expression self.now.room) at (expr_of left, high) join.InstanceOf cursor.old) result cursor.new }
        ensures low { IfOk result (λ p. p.1 ≤ self.now.room + 1) }
    {
        cursor.advance();
        let ty = type_name(self.alloc, cursor, self.room, Site::Elsewhere)?;
        let part = left;
        let high = high.max(ty.dims) + 1;
        Ok((Expr::InstanceOf { at, part, ty }, high))
    }

    /// At `++` or `--` behind a place.
    #[tactic(auto, using(bcj_parser_trees::proofs::PlainLemmas::tree_rules))]
    fn stepped_behind(
        &self,
        cursor: &mut Cursor<'_>,
        at: u32,
        left: Boxed<Expr>,
        high: u32,
        plus: bool,
    ) -> Result<(Expr, u32), Stop>
        requires small { self.now.room < room_bound }
        requires nests { Nests self.now.room (F.pre self.now.reader) (F.post self.now.reader) }
        requires low { high ≤ self.now.room }
        ensures reads { Reads one_of (rule.joined_by self.now.room (rule.expression self.now.room) at (expr_of left, high) (join.Step plus) cursor.old) result cursor.new }
        ensures low { IfOk result (λ p. p.1 ≤ self.now.room + 1) }
    {
        cursor.advance();
        let place = left;
        let post = true;
        Ok((
            Expr::Step {
                at,
                plus,
                post,
                place,
            },
            high + 1,
        ))
    }

    /// Behind a dot and a name.
    #[tactic(auto, unfolding(bcj_parser_rules::specs::function::Expressions::dotted), using(bcj_parser_trees::proofs::PlainLemmas::tree_rules))]
    fn dotted(
        &self,
        cursor: &mut Cursor<'_>,
        at: u32,
        left: Boxed<Expr>,
        high: u32,
        name: Name,
    ) -> Result<(Expr, u32), Stop>
        requires small { self.now.room < room_bound }
        requires nests { Nests self.now.room (F.pre self.now.reader) (F.post self.now.reader) }
        requires low { high ≤ self.now.room }
        ensures reads { Reads one_of (rule.dotted (rule.expression self.now.room) at (expr_of left, high) name cursor.old) result cursor.new }
        ensures low { IfOk result (λ p. p.1 ≤ self.now.room + 1) }
    {
        if !cursor.sees(Mark::LeftParen) {
            let target = left;
            return Ok((Expr::Dot { at, target, name }, high + 1));
        }
        let (args, height) = self.arguments(cursor)?;
        let target = left;
        Ok((
            Expr::DotCall {
                at,
                target,
                name,
                args,
            },
            high.max(height) + 1,
        ))
    }

    /// At the `[` before an index.
    #[tactic(auto, using(bcj_parser_trees::proofs::PlainLemmas::tree_rules))]
    fn element(
        &self,
        cursor: &mut Cursor<'_>,
        at: u32,
        left: Boxed<Expr>,
        high: u32,
    ) -> Result<(Expr, u32), Stop>
        requires small { self.now.room < room_bound }
        requires nests { Nests self.now.room (F.pre self.now.reader) (F.post self.now.reader) }
        requires low { high ≤ self.now.room }
        ensures reads { Reads one_of (rule.joined_by self.now.room (rule.expression self.now.room) at (expr_of left, high) join.Bracket cursor.old) result cursor.new }
        ensures low { IfOk result (λ p. p.1 ≤ self.now.room + 1) }
    {
        cursor.advance();
        let (index, height) = self.part(cursor, Begin::Fresh, ASSIGNMENT)?;
        cursor.expect(Mark::RightBracket, Site::Elsewhere)?;
        let array = left;
        Ok((Expr::Elem { at, array, index }, high.max(height) + 1))
    }

    /// At what follows an operand.
    fn joined_by(
        &self,
        cursor: &mut Cursor<'_>,
        at: u32,
        left: Boxed<Expr>,
        high: u32,
        joining: Joining,
    ) -> Result<(Expr, u32), Stop>
        requires small { self.now.room < room_bound }
        requires nests { Nests self.now.room (F.pre self.now.reader) (F.post self.now.reader) }
        requires low { high ≤ self.now.room }
        ensures reads { Reads one_of (rule.joined_by self.now.room (rule.expression self.now.room) at (expr_of left, high) joining cursor.old) result cursor.new }
        ensures low { IfOk result (λ p. p.1 ≤ self.now.room + 1) }
    {
        match joining {
            Joining::Assign(op) => self.assigned(cursor, at, left, high, op),
            Joining::Question => {
                cursor.advance();
                self.chosen(cursor, at, left, high)
            }
            Joining::Binary(op) => self.operated(cursor, at, left, high, op),
            Joining::InstanceOf => self.tested(cursor, at, left, high),
            Joining::Step(plus) => self.stepped_behind(cursor, at, left, high, plus),
            Joining::Dot => {
                cursor.advance();
                let name = cursor.named(self.alloc, Site::Elsewhere)?;
                self.dotted(cursor, at, left, high, name)
            }
            Joining::Bracket => self.element(cursor, at, left, high),
            Joining::Nothing => Err(Stop::Refused(Site::Elsewhere)),
        }
    }

    /// What follows an operand, where it may.
    #[tactic(auto, unfolding(bcj_parser_rules::specs::function::Expressions::joined))]
    pub fn joined(
        &self,
        cursor: &mut Cursor<'_>,
        at: u32,
        left: Expr,
        high: u32,
        joining: Joining,
    ) -> Result<(Expr, u32), Stop>
        requires small { self.now.room < room_bound }
        requires nests { Nests self.now.room (F.pre self.now.reader) (F.post self.now.reader) }
        requires low { high ≤ self.now.room + 1 }
        ensures reads { Reads one_of (rule.joined self.now.room (rule.expression self.now.room) at (expr_of left, high) joining cursor.old) result cursor.new }
        ensures low { IfOk result (λ p. p.1 ≤ self.now.room + 1) }
    {
        if !allows(joining, &left) {
            return Err(Stop::Refused(Site::Elsewhere));
        }
        if high > self.room {
            return Err(Stop::TooDeep);
        }
        let left = Boxed::new(self.alloc, left)?;
        self.joined_by(cursor, at, left, high, joining)
    }

    /// What follows an operand, as long as it binds as tight as the least level.
    #[tactic(auto, unfolding(bcj_parser_rules::specs::function::Expressions::climb))]
    pub fn climb(
        &self,
        cursor: &mut Cursor<'_>,
        least: u8,
        at: u32,
        mut left: Expr,
        mut high: u32,
    ) -> Result<(Expr, u32), Stop>
        requires small { self.now.room < room_bound }
        requires nests { Nests self.now.room (F.pre self.now.reader) (F.post self.now.reader) }
        requires low { high ≤ self.now.room + 1 }
        ensures reads { Reads one_of (rule.climb self.now.room (rule.expression self.now.room) (suc self.now.room) least at (expr_of left, high) cursor.old) result cursor.new }
        ensures low { IfOk result (λ p. p.1 ≤ self.now.room + 1) }
    {
        for _turn in 0..self.room + 1 {
            let joining = cursor.joining();
            if binds(joining) < least {
                return Ok((left, high));
            }
            (left, high) = self.joined(cursor, at, left, high, joining)?;
        }
        Ok((left, high))
    }
}

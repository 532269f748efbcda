//! Statements that hold other statements.

ghost use Rattle.std.specs.Prelude.{◌≡◌, ◌+◌, ◌≤◌, ◌<◌, [], ◌∷◌, map, length, IfOk};
ghost use Rattle.bcj_parser_trees.specs.Plain.{expr_of, stmt_of, catch_of};
ghost use Rattle.bcj_parser_rules.specs.declared.kind.Mark.TheVariants as mark;
ghost use Rattle.bcj_parser_rules.specs.function.Expressions as expr;
ghost use Rattle.bcj_parser_rules.specs.function.Statements as rule;
ghost use Rattle.bcj_parser_rules.specs.Marks.{is_mark};
ghost use Rattle.bcj_parser_rules.specs.function.Steps.{Reads};
ghost use Rattle.bcj_parser_statement.specs.function.Nests.{Nests};
ghost use Rattle.bcj_parser_rules.specs.function.Expressions.{room_bound};

use crate::grammar::Grammar;
use crate::part::{condition, for_init, for_update, maybe_expression};
use bcj_parser_cursor::Cursor;
use bcj_parser_rules::{Mark, Site, Stop};
use bcj_parser_trees::{Catch, Expr, Stmt};
use sqlite_items::{Boxed, Items};
use std::alloc::Global;

impl<F: Fn(Global, &mut Cursor<'_>, u32) -> Result<(Stmt, u32), Stop>> Grammar<F> {
    /// Behind the first part of an `if`, which takes the `else` that stands there.
    #[tactic(auto, unfolding(bcj_parser_rules::specs::function::Statements::otherwise), using(bcj_parser_trees::proofs::PlainLemmas::tree_rules))]
    fn otherwise(
        &self,
        cursor: &mut Cursor<'_>,
        at: u32,
        condition: (Expr, u32),
        first: (Stmt, u32),
    ) -> Result<(Stmt, u32), Stop>
        requires nests { Nests self.now.room (F.pre self.now.inner) (F.post self.now.inner) }
        requires room { self.now.room < room_bound }
        requires condition { condition.1 ≤ self.now.room }
        requires first { first.1 ≤ self.now.room }
        ensures reads { Reads (λ p. (stmt_of p.0, p.1)) (rule.otherwise (rule.statement self.now.room) at (expr_of condition.0, condition.1) (stmt_of first.0, first.1) cursor.old) result cursor.new }
        ensures low { IfOk result (λ p. p.1 ≤ self.now.room + 1) }
    {
        let (cond, cond_height) = condition;
        let (first, first_height) = first;
        let first = Boxed::new(self.alloc, first)?;
        if !cursor.sees(Mark::Else) {
            let second = None;
            let height = cond_height.max(first_height) + 1;
            let node = Stmt::If {
                at,
                cond,
                first,
                second,
            };
            return Ok((node, height));
        }
        cursor.advance();
        let (second, second_height) = self.statement(cursor)?;
        let second = Some(Boxed::new(self.alloc, second)?);
        let height = cond_height.max(first_height.max(second_height)) + 1;
        let node = Stmt::If {
            at,
            cond,
            first,
            second,
        };
        Ok((node, height))
    }

    #[tactic(auto, unfolding(bcj_parser_rules::specs::function::Statements::if_statement))]
    pub fn if_statement(&self, cursor: &mut Cursor<'_>, at: u32) -> Result<(Stmt, u32), Stop>
        requires nests { Nests self.now.room (F.pre self.now.inner) (F.post self.now.inner) }
        requires room { self.now.room < room_bound }
        ensures reads { Reads (λ p. (stmt_of p.0, p.1)) (rule.if_statement self.now.room (rule.statement self.now.room) at cursor.old) result cursor.new }
        ensures low { IfOk result (λ p. p.1 ≤ self.now.room + 1) }
    {
        if self.room == 0 {
            return Err(Stop::TooDeep);
        }
        cursor.advance();
        let condition = condition(self.alloc, cursor, self.room)?;
        let first = self.statement(cursor)?;
        self.otherwise(cursor, at, condition, first)
    }

    #[tactic(auto, unfolding(bcj_parser_rules::specs::function::Statements::while_statement), using(bcj_parser_trees::proofs::PlainLemmas::tree_rules))]
    pub fn while_statement(&self, cursor: &mut Cursor<'_>, at: u32) -> Result<(Stmt, u32), Stop>
        requires nests { Nests self.now.room (F.pre self.now.inner) (F.post self.now.inner) }
        requires room { self.now.room < room_bound }
        ensures reads { Reads (λ p. (stmt_of p.0, p.1)) (rule.while_statement self.now.room (rule.statement self.now.room) at cursor.old) result cursor.new }
        ensures low { IfOk result (λ p. p.1 ≤ self.now.room + 1) }
    {
        if self.room == 0 {
            return Err(Stop::TooDeep);
        }
        cursor.advance();
        let (cond, cond_height) = condition(self.alloc, cursor, self.room)?;
        let (body, body_height) = self.statement(cursor)?;
        let body = Boxed::new(self.alloc, body)?;
        Ok((
            Stmt::While { at, cond, body },
            cond_height.max(body_height) + 1,
        ))
    }

    #[tactic(auto, unfolding(bcj_parser_rules::specs::function::Statements::do_statement), using(bcj_parser_trees::proofs::PlainLemmas::tree_rules))]
    pub fn do_statement(&self, cursor: &mut Cursor<'_>, at: u32) -> Result<(Stmt, u32), Stop>
        requires nests { Nests self.now.room (F.pre self.now.inner) (F.post self.now.inner) }
        requires room { self.now.room < room_bound }
        ensures reads { Reads (λ p. (stmt_of p.0, p.1)) (rule.do_statement self.now.room (rule.statement self.now.room) at cursor.old) result cursor.new }
        ensures low { IfOk result (λ p. p.1 ≤ self.now.room + 1) }
    {
        if self.room == 0 {
            return Err(Stop::TooDeep);
        }
        cursor.advance();
        let (body, body_height) = self.statement(cursor)?;
        cursor.expect(Mark::While, Site::Elsewhere)?;
        let (cond, cond_height) = condition(self.alloc, cursor, self.room)?;
        cursor.expect(Mark::Semicolon, Site::Elsewhere)?;
        let body = Boxed::new(self.alloc, body)?;
        Ok((
            Stmt::Do { at, body, cond },
            body_height.max(cond_height) + 1,
        ))
    }

    #[tactic(auto, unfolding(bcj_parser_rules::specs::function::Statements::for_statement), using(bcj_parser_trees::proofs::PlainLemmas::tree_rules))]
    pub fn for_statement(&self, cursor: &mut Cursor<'_>, at: u32) -> Result<(Stmt, u32), Stop>
        requires nests { Nests self.now.room (F.pre self.now.inner) (F.post self.now.inner) }
        requires room { self.now.room < room_bound }
        ensures reads { Reads (λ p. (stmt_of p.0, p.1)) (rule.for_statement self.now.room (rule.statement self.now.room) at cursor.old) result cursor.new }
        ensures low { IfOk result (λ p. p.1 ≤ self.now.room + 1) }
    {
        if self.room == 0 {
            return Err(Stop::TooDeep);
        }
        cursor.advance();
        cursor.expect(Mark::LeftParen, Site::Elsewhere)?;
        let (init, init_height) = for_init(self.alloc, cursor, self.room - 1)?;
        let (cond, cond_height) = maybe_expression(self.alloc, cursor, self.room)?;
        let (update, update_height) = for_update(self.alloc, cursor, self.room)?;
        let (body, body_height) = self.statement(cursor)?;
        let init = Items::from_vec(init);
        let body = Boxed::new(self.alloc, body)?;
        let high = init_height.max(cond_height.max(update_height.max(body_height)));
        Ok((
            Stmt::For {
                at,
                init,
                cond,
                update,
                body,
            },
            high + 1,
        ))
    }

    /// A catch with its block's height.
    #[tactic(auto, unfolding(bcj_parser_rules::specs::function::Statements::catch_clause))]
    fn catch_clause(&self, cursor: &mut Cursor<'_>) -> Result<(Catch, u32), Stop>
        requires nests { Nests self.now.room (F.pre self.now.inner) (F.post self.now.inner) }
        requires room { self.now.room < room_bound }
        ensures reads { Reads (λ p. (catch_of p.0 ∷ [], p.1)) (rule.catch_clause self.now.room (rule.statement self.now.room) cursor.old) result cursor.new }
        ensures low { IfOk result (λ p. p.1 ≤ self.now.room) }
    {
        cursor.expect(Mark::Catch, Site::Elsewhere)?;
        cursor.expect(Mark::LeftParen, Site::Elsewhere)?;
        let class = cursor.named(self.alloc, Site::Catch)?;
        let name = cursor.named(self.alloc, Site::CatchClass)?;
        cursor.expect(Mark::RightParen, Site::CatchName)?;
        let (body, high) = self.block(cursor, Site::Elsewhere)?;
        let body = Items::from_vec(body);
        Ok((Catch { class, name, body }, high))
    }

    /// The catches that follow, appended to `found`, of which the highest block is `high` high.
    fn further_catches(
        &self,
        cursor: &mut Cursor<'_>,
        mut found: Vec<Catch>,
        mut high: u32,
    ) -> Result<(Vec<Catch>, u32), Stop>
        requires nests { Nests self.now.room (F.pre self.now.inner) (F.post self.now.inner) }
        requires room { self.now.room < room_bound }
        requires high { high ≤ self.now.room }
        ensures reads { Reads (λ p. (map catch_of p.0.items, p.1)) (expr.many (is_mark mark.Catch) (rule.catch_clause self.now.room (rule.statement self.now.room)) (length cursor.old) (map catch_of found.items) high cursor.old) result cursor.new }
        ensures low { IfOk result (λ p. p.1 ≤ self.now.room) }
    {
        for _turn in 0..cursor.len() {
            if !cursor.sees(Mark::Catch) {
                return Ok((found, high));
            }
            let (next, height) = self.catch_clause(cursor)?;
            found.push(next)?;
            high = high.max(height);
        }
        Ok((found, high))
    }

    /// One or more catches, with the height of the highest block.
    #[tactic(auto, unfolding(bcj_parser_rules::specs::function::Statements::catch_clauses))]
    fn catch_clauses(&self, cursor: &mut Cursor<'_>) -> Result<(Vec<Catch>, u32), Stop>
        requires nests { Nests self.now.room (F.pre self.now.inner) (F.post self.now.inner) }
        requires room { self.now.room < room_bound }
        ensures reads { Reads (λ p. (map catch_of p.0.items, p.1)) (rule.catch_clauses self.now.room (rule.statement self.now.room) cursor.old) result cursor.new }
        ensures low { IfOk result (λ p. p.1 ≤ self.now.room) }
    {
        let (first, height) = self.catch_clause(cursor)?;
        let first = vec![in self.alloc; first]?;
        self.further_catches(cursor, first, height)
    }

    #[tactic(auto, unfolding(bcj_parser_rules::specs::function::Statements::try_statement), using(bcj_parser_trees::proofs::PlainLemmas::tree_rules))]
    pub fn try_statement(&self, cursor: &mut Cursor<'_>, at: u32) -> Result<(Stmt, u32), Stop>
        requires nests { Nests self.now.room (F.pre self.now.inner) (F.post self.now.inner) }
        requires room { self.now.room < room_bound }
        ensures reads { Reads (λ p. (stmt_of p.0, p.1)) (rule.try_statement self.now.room (rule.statement self.now.room) at cursor.old) result cursor.new }
        ensures low { IfOk result (λ p. p.1 ≤ self.now.room + 1) }
    {
        cursor.advance();
        let (body, body_height) = self.block(cursor, Site::Elsewhere)?;
        let (catches, catches_height) = self.catch_clauses(cursor)?;
        let body = Items::from_vec(body);
        let catches = Items::from_vec(catches);
        Ok((
            Stmt::Try { at, body, catches },
            body_height.max(catches_height) + 1,
        ))
    }
}

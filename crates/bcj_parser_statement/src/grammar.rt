//! The rules that hold statements take the parser of those as a parameter, so that each is proved by itself.

ghost use Rattle.std.specs.Prelude.{◌≡◌, ◌+◌, ◌≤◌, ◌<◌, suc, [], ◌∷◌, map, length, IfOk};
ghost use Rattle.bcj_parser_trees.specs.Plain.{stmt_of};
ghost use Rattle.bcj_parser_rules.specs.function.Statements as rule;
ghost use Rattle.bcj_parser_rules.specs.function.Steps.{Reads};
ghost use Rattle.bcj_parser_rules.specs.declared.kind.Heading.TheVariants as heading;
ghost use Rattle.bcj_parser_expression.specs.function.Begin.{begin_of};
ghost use Rattle.bcj_parser_statement.specs.function.Nests.{Nests};
ghost use Rattle.bcj_parser_rules.specs.function.Expressions.{room_bound};

use crate::evaluation::evaluated;
use crate::measured::Measured;
use crate::opening::{Opening, local_opening};
use crate::part::maybe_expression;
use bcj_parser_cursor::Cursor;
use bcj_parser_cursor::level::ASSIGNMENT;
use bcj_parser_expression::{Begin, expression};
use bcj_parser_rules::{Beginning, Heading, Mark, Site, Stop, TypeBeginning};
use bcj_parser_trees::Stmt;
use sqlite_items::Items;
use std::alloc::Global;

#[derive(Clone, Copy)]
pub struct Grammar<F> {
    pub alloc: Global,
    /// How high statements may be.
    pub room: u32,
    pub inner: F,
}

/// Why no statement is read where there is no room for one.
#[tactic(auto, unfolding(bcj_parser_rules::specs::function::Statements::statement))]
pub fn roomless(cursor: &Cursor<'_>) -> Result<(Stmt, u32), Stop>
    ensures reads { Reads (λ p. (stmt_of p.0, p.1)) (rule.statement 0 cursor.now) result cursor.now }
    ensures low { IfOk result (λ p. p.1 ≤ 0) }
{
    match cursor.heading() {
        Heading::Other => match cursor.beginning() {
            Beginning::Nothing | Beginning::Signed(_) => Err(Stop::Refused(Site::Elsewhere)),
            _ => Err(Stop::TooDeep),
        },
        _ => Err(Stop::TooDeep),
    }
}

/// A statement that is no declaration, at most `room` high; with its height.
pub fn statement(alloc: Global, cursor: &mut Cursor<'_>, room: u32) -> Result<(Stmt, u32), Stop>
    requires { room < room_bound }
    ensures reads { Reads (λ p. (stmt_of p.0, p.1)) (rule.statement room cursor.old) result cursor.new }
    ensures low { IfOk result (λ p. p.1 ≤ room) }
{
    if room == 0 {
        return roomless(cursor);
    }
    let grammar = Grammar {
        alloc,
        room: room - 1,
        inner: statement,
    };
    grammar.headed(cursor)
}

#[tactic(auto, unfolding(bcj_parser_rules::specs::function::Statements::throw_statement), using(bcj_parser_trees::proofs::PlainLemmas::tree_rules))]
fn throw_statement(
    alloc: Global,
    cursor: &mut Cursor<'_>,
    room: u32,
    at: u32,
) -> Result<(Stmt, u32), Stop>
    requires { room < room_bound }
    ensures reads { Reads (λ p. (stmt_of p.0, p.1)) (rule.throw_statement room at cursor.old) result cursor.new }
    ensures low { IfOk result (λ p. p.1 ≤ room + 1) }
{
    if room == 0 {
        return Err(Stop::TooDeep);
    }
    cursor.advance();
    let (value, height) = expression(alloc, cursor, room, Begin::Fresh, ASSIGNMENT)?;
    let thrown = Measured { value, height };
    cursor.expect(Mark::Semicolon, Site::Elsewhere)?;
    let high = thrown.height + 1;
    let value = thrown.into_value();
    Ok((Stmt::Throw { at, value }, high))
}

impl<F: Fn(Global, &mut Cursor<'_>, u32) -> Result<(Stmt, u32), Stop>> Grammar<F> {
    pub fn statement(&self, cursor: &mut Cursor<'_>) -> Result<(Stmt, u32), Stop>
        requires { Nests self.now.room (F.pre self.now.inner) (F.post self.now.inner) }
        ensures reads { Reads (λ p. (stmt_of p.0, p.1)) (rule.statement self.now.room cursor.old) result cursor.new }
        ensures low { IfOk result (λ p. p.1 ≤ self.now.room) }
    {
        (self.inner)(self.alloc, cursor, self.room)
    }

    /// A statement or a declaration where there is no room for one.
    #[tactic(auto, unfolding(bcj_parser_rules::specs::function::Statements::block_statement))]
    fn roomless_local(&self, cursor: &mut Cursor<'_>) -> Result<(Vec<Stmt>, u32), Stop>
        requires nests { Nests self.now.room (F.pre self.now.inner) (F.post self.now.inner) }
        requires room { self.now.room ≡ 0 }
        ensures reads { Reads (λ p. (map stmt_of p.0.items, p.1)) (rule.block_statement 0 (rule.statement 0) cursor.old) result cursor.new }
        ensures low { IfOk result (λ p. p.1 ≤ 0) }
    {
        match cursor.type_beginning() {
            TypeBeginning::Nothing => {
                let (node, height) = self.statement(cursor)?;
                Ok((vec![in self.alloc; node]?, height))
            }
            _ => Err(Stop::TooDeep),
        }
    }

    /// What begins a block's statement that is no declaration; in a room of one more than `below`.
    fn block_evaluation(
        &self,
        cursor: &mut Cursor<'_>,
        below: u32,
        begin: Begin,
    ) -> Result<(Vec<Stmt>, u32), Stop>
        requires nests { Nests self.now.room (F.pre self.now.inner) (F.post self.now.inner) }
        requires room { self.now.room < room_bound }
        requires below { below < self.now.room }
        ensures reads { Reads (λ p. (map stmt_of p.0.items, p.1)) (rule.block_evaluation below (rule.statement self.now.room) (begin_of begin) cursor.old) result cursor.new }
        ensures low { IfOk result (λ p. p.1 ≤ self.now.room) }
    {
        match begin {
            Begin::Fresh => {
                let (node, height) = self.statement(cursor)?;
                Ok((vec![in self.alloc; node]?, height))
            }
            begin => {
                let site = Site::DeclarationName;
                let (node, height) = evaluated(self.alloc, cursor, below, begin, site)?;
                Ok((vec![in self.alloc; node]?, height))
            }
        }
    }

    /// A statement of a block or a declaration; with the height of the highest.
    #[tactic(auto, unfolding(bcj_parser_rules::specs::function::Statements::block_statement), using(crate::proofs::Openings::local_or_is))]
    fn block_statement(&self, cursor: &mut Cursor<'_>) -> Result<(Vec<Stmt>, u32), Stop>
        requires nests { Nests self.now.room (F.pre self.now.inner) (F.post self.now.inner) }
        requires room { self.now.room < room_bound }
        ensures reads { Reads (λ p. (map stmt_of p.0.items, p.1)) (rule.block_statement self.now.room (rule.statement self.now.room) cursor.old) result cursor.new }
        ensures low { IfOk result (λ p. p.1 ≤ self.now.room) }
    {
        if self.room == 0 {
            return self.roomless_local(cursor);
        }
        let below = self.room - 1;
        match local_opening(self.alloc, cursor, below, Site::DeclaredName)? {
            Opening::Declared(nodes, high) => Ok((nodes, high)),
            Opening::Begun(begin) => self.block_evaluation(cursor, below, begin),
        }
    }

    /// Statements up to a closing brace, appended to `found`, of which the highest is `high` high.
    pub fn statements_from(
        &self,
        cursor: &mut Cursor<'_>,
        mut found: Vec<Stmt>,
        mut high: u32,
    ) -> Result<(Vec<Stmt>, u32), Stop>
        requires nests { Nests self.now.room (F.pre self.now.inner) (F.post self.now.inner) }
        requires room { self.now.room < room_bound }
        requires high { high ≤ self.now.room }
        ensures reads { Reads (λ p. (map stmt_of p.0.items, p.1)) (rule.statements_from self.now.room (rule.statement self.now.room) (map stmt_of found.items) high cursor.old) result cursor.new }
        ensures low { IfOk result (λ p. p.1 ≤ self.now.room) }
    {
        for _turn in 0..cursor.len() {
            if cursor.sees(Mark::RightBrace) {
                return Ok((found, high));
            }
            let (mut nodes, height) = self.block_statement(cursor)?;
            found.append(&mut nodes)?;
            high = high.max(height);
        }
        Ok((found, high))
    }

    /// A block with its braces. `site` is that of a token refused in the place of the opening brace.
    #[tactic(auto, unfolding(bcj_parser_rules::specs::function::Statements::block))]
    pub fn block(&self, cursor: &mut Cursor<'_>, site: Site) -> Result<(Vec<Stmt>, u32), Stop>
        requires nests { Nests self.now.room (F.pre self.now.inner) (F.post self.now.inner) }
        requires room { self.now.room < room_bound }
        ensures reads { Reads (λ p. (map stmt_of p.0.items, p.1)) (rule.block self.now.room (rule.statement self.now.room) site cursor.old) result cursor.new }
        ensures low { IfOk result (λ p. p.1 ≤ self.now.room) }
    {
        cursor.expect(Mark::LeftBrace, site)?;
        let (found, high) = self.statements_from(cursor, Vec::new(self.alloc), 0)?;
        cursor.expect(Mark::RightBrace, Site::Elsewhere)?;
        Ok((found, high))
    }

    #[tactic(auto, using(bcj_parser_trees::proofs::PlainLemmas::tree_rules))]
    fn nested_block(&self, cursor: &mut Cursor<'_>, at: u32) -> Result<(Stmt, u32), Stop>
        requires nests { Nests self.now.room (F.pre self.now.inner) (F.post self.now.inner) }
        requires room { self.now.room < room_bound }
        ensures reads { Reads (λ p. (stmt_of p.0, p.1)) (rule.statement_by self.now.room (rule.statement self.now.room) at heading.Block cursor.old) result cursor.new }
        ensures low { IfOk result (λ p. p.1 ≤ self.now.room + 1) }
    {
        let (body, high) = self.block(cursor, Site::Elsewhere)?;
        let body = Items::from_vec(body);
        Ok((Stmt::Block { at, body }, high + 1))
    }

    #[tactic(auto, using(bcj_parser_trees::proofs::PlainLemmas::tree_rules))]
    fn return_statement(&self, cursor: &mut Cursor<'_>, at: u32) -> Result<(Stmt, u32), Stop>
        requires room { self.now.room < room_bound }
        ensures reads { Reads (λ p. (stmt_of p.0, p.1)) (rule.statement_by self.now.room (rule.statement self.now.room) at heading.Return cursor.old) result cursor.new }
        ensures low { IfOk result (λ p. p.1 ≤ self.now.room + 1) }
    {
        cursor.advance();
        let (value, height) = maybe_expression(self.alloc, cursor, self.room)?;
        Ok((Stmt::Return { at, value }, height + 1))
    }

    /// A statement one higher than the room.
    #[tactic(auto, unfolding(bcj_parser_rules::specs::function::Statements::statement), using(bcj_parser_trees::proofs::PlainLemmas::tree_rules))]
    pub fn headed(&self, cursor: &mut Cursor<'_>) -> Result<(Stmt, u32), Stop>
        requires nests { Nests self.now.room (F.pre self.now.inner) (F.post self.now.inner) }
        requires room { self.now.room < room_bound }
        ensures reads { Reads (λ p. (stmt_of p.0, p.1)) (rule.statement (suc self.now.room) cursor.old) result cursor.new }
        ensures low { IfOk result (λ p. p.1 ≤ self.now.room + 1) }
    {
        let at = cursor.at();
        match cursor.heading() {
            Heading::Block => self.nested_block(cursor, at),
            Heading::Empty => {
                cursor.advance();
                Ok((Stmt::Empty { at }, 1))
            }
            Heading::If => self.if_statement(cursor, at),
            Heading::While => self.while_statement(cursor, at),
            Heading::Do => self.do_statement(cursor, at),
            Heading::For => self.for_statement(cursor, at),
            Heading::Return => self.return_statement(cursor, at),
            Heading::Throw => throw_statement(self.alloc, cursor, self.room, at),
            Heading::Break => {
                cursor.advance();
                cursor.expect(Mark::Semicolon, Site::Elsewhere)?;
                Ok((Stmt::Break { at }, 1))
            }
            Heading::Continue => {
                cursor.advance();
                cursor.expect(Mark::Semicolon, Site::Elsewhere)?;
                Ok((Stmt::Continue { at }, 1))
            }
            Heading::Try => self.try_statement(cursor, at),
            Heading::Other => {
                let site = Site::StatementName;
                evaluated(self.alloc, cursor, self.room, Begin::Fresh, site)
            }
        }
    }
}

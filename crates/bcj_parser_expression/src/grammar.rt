//! The rules that hold expressions take the reader of those as a parameter, so that each is proved by itself.

ghost use Rattle.std.specs.Prelude.{◌≤◌, IfOk};
ghost use Rattle.bcj_parser_rules.specs.function.Steps.{Reads};
ghost use Rattle.bcj_parser_rules.specs.function.Expressions as rule;
ghost use Rattle.bcj_parser_expression.specs.function.Begin.{begin_of};
ghost use Rattle.bcj_parser_expression.specs.function.Nests.{Nests, one_of};

use crate::begin::Begin;
use bcj_parser_cursor::Cursor;
use bcj_parser_rules::Stop;
use bcj_parser_trees::Expr;
use sqlite_items::Boxed;
use std::alloc::Global;

#[derive(Clone, Copy)]
pub struct Grammar<F> {
    pub alloc: Global,
    /// How high the parts of an expression may be.
    pub room: u32,
    pub reader: F,
}

impl<F: Fn(Global, &mut Cursor<'_>, u32, Begin, u8) -> Result<(Expr, u32), Stop>> Grammar<F> {
    pub fn inner(
        &self,
        cursor: &mut Cursor<'_>,
        begin: Begin,
        least: u8,
    ) -> Result<(Expr, u32), Stop>
        requires nests { Nests self.now.room (F.pre self.now.reader) (F.post self.now.reader) }
        ensures reads { Reads one_of (rule.expression self.now.room (begin_of begin) least cursor.old) result cursor.new }
        ensures low { IfOk result (λ p. p.1 ≤ self.now.room) }
    {
        (self.reader)(self.alloc, cursor, self.room, begin, least)
    }

    /// A part of an expression in the box in which a node holds it, which is cheap to give up where what follows is refused.
    pub fn part(
        &self,
        cursor: &mut Cursor<'_>,
        begin: Begin,
        least: u8,
    ) -> Result<(Boxed<Expr>, u32), Stop>
        requires nests { Nests self.now.room (F.pre self.now.reader) (F.post self.now.reader) }
        ensures reads { Reads one_of (rule.expression self.now.room (begin_of begin) least cursor.old) result cursor.new }
        ensures low { IfOk result (λ p. p.1 ≤ self.now.room) }
    {
        let (part, height) = self.inner(cursor, begin, least)?;
        Ok((Boxed::new(self.alloc, part)?, height))
    }
}

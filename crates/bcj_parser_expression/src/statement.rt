//! Expressions that may be statements (JLS 14.8).

ghost use Rattle.std.specs.Prelude.{◌+◌, ◌≤◌, ◌<◌, IfOk};
ghost use Rattle.bcj_parser_trees.specs.Plain.{expr_of};
ghost use Rattle.bcj_parser_rules.specs.function.Steps.{Reads};
ghost use Rattle.bcj_parser_rules.specs.function.Expressions as rule;
ghost use Rattle.bcj_parser_rules.specs.function.Expressions.{room_bound};
ghost use Rattle.bcj_parser_expression.specs.function.Nests.{Nests, one_of};

use crate::begin::Begin;
use crate::grammar::Grammar;
use crate::shape::{is_statement_expression, site_behind};
use bcj_parser_cursor::Cursor;
use bcj_parser_rules::{Joining, Site, Stop};
use bcj_parser_trees::Expr;
use std::alloc::Global;

impl<F: Fn(Global, &mut Cursor<'_>, u32, Begin, u8) -> Result<(Expr, u32), Stop>> Grammar<F> {
    /// Behind a primary that begins a statement.
    #[tactic(auto, unfolding(bcj_parser_rules::specs::function::Expressions::ended))]
    pub fn ended(
        &self,
        cursor: &mut Cursor<'_>,
        at: u32,
        site: Site,
        left: Expr,
        high: u32,
    ) -> Result<(Expr, u32), Stop>
        requires small { self.now.room < room_bound }
        requires nests { Nests self.now.room (F.pre self.now.reader) (F.post self.now.reader) }
        requires low { high ≤ self.now.room + 1 }
        ensures reads { Reads one_of (rule.ended self.now.room (rule.expression self.now.room) at site (expr_of left, high) cursor.old) result cursor.new }
        ensures low { IfOk result (λ p. p.1 ≤ self.now.room + 1) }
    {
        let joining = cursor.joining();
        if matches!(joining, Joining::Assign(_) | Joining::Step(_)) {
            return self.joined(cursor, at, left, high, joining);
        }
        if is_statement_expression(&left) {
            return Ok((left, high));
        }
        Err(Stop::Refused(site_behind(site, &left)))
    }
}

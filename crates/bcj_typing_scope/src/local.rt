//! What names mean where a variable may stand.

ghost use Rattle.std.specs.Prelude.{◌≡◌, ◌&&◌, option_map};
ghost use Rattle.std.specs.Option.{option_copied};
ghost use Rattle.bcj_parser_trees.specs.Plain.{expr_of};
ghost use Rattle.bcj_decl_rules.specs.World.{has_type};
ghost use Rattle.bcj_typing_rules.specs.Context as spec;
ghost use Rattle.bcj_typing_node.specs.Forms.{local_of, locals_of, meaning_of};
ghost use Rattle.bcj_typing_scope.specs.Scopes.{MeansWorth, answers_in, context_of};

use crate::scope::Scope;
use bcj_names::Name;
use bcj_parser_trees::Expr;
use bcj_typing_node::{Meaning, Variable};

/// The innermost local of a name, where the innermost stands last.
fn local_named<'v>(locals: &'v [Variable], name: &Name) -> Option<&'v Variable>
    ensures { option_map local_of (option_copied result) ≡ spec.local_named (locals_of locals.entry.now) name.now }
{
    let mut found = None;
    for variable in locals {
        if variable.name.same(name) {
            found = Some(variable);
        }
    }
    found
}

impl Scope<'_> {
    fn local(&self, name: &Name) -> Option<&Variable>
        ensures { option_map local_of (option_copied result) ≡ spec.local_named (context_of self.now).locals name.now }
    {
        local_named(self.locals.as_slice(), name)
    }

    /// Whether no local in scope has the name (JLS 6.4). It takes no memory.
    pub fn is_new_local(&self, name: &Name) -> bool
        ensures { result ≡ spec.is_new_local (context_of self.now) name.now }
    {
        self.local(name).is_none()
    }

    /// What a simple name means where a variable may stand; a local hides a field (JLS 6.4.1, 6.5.6.1). It takes no memory.
    pub fn meaning(&self, name: &Name) -> Meaning<'_>
        ensures value { meaning_of result ≡ spec.meaning_of (context_of self.now) name.now }
        ensures worth { MeansWorth (answers_in self.now) result }
    {
        match self.local(name) {
            Some(variable) => Meaning::Local(variable),
            None => match self.field(self.class(), name) {
                Some(field) => Meaning::Field(field),
                None => Meaning::Nothing,
            },
        }
    }

    fn is_type(&self, name: &Name) -> bool
        ensures { result ≡ (spec.is_no_variable (spec.meaning_of (context_of self.now) name.now) && has_type (spec.world_at (context_of self.now)) name.now) }
    {
        match self.meaning(name) {
            Meaning::Nothing => self.has_type(name),
            Meaning::Local(_) | Meaning::Field(_) => false,
        }
    }

    /// The type that an expression before a dot names: a simple name that means no variable (JLS 6.5.2). It takes no memory.
    #[tactic(auto, using(bcj_parser_trees::proofs::PlainLemmas::tree_rules))]
    pub fn type_before_dot<'e>(&self, e: &'e Expr) -> Option<&'e Name>
        ensures { option_copied result ≡ spec.type_before_dot (context_of self.now) (expr_of e.entry.now) }
    {
        match e {
            Expr::Name { at: _, name } => { if self.is_type(name) { Some(name) } else { None } }
            Expr::Int { .. }
            | Expr::Bool { .. }
            | Expr::Null { .. }
            | Expr::This { .. }
            | Expr::Paren { .. }
            | Expr::Dot { .. }
            | Expr::SuperField { .. }
            | Expr::Call { .. }
            | Expr::DotCall { .. }
            | Expr::SuperCall { .. }
            | Expr::New { .. }
            | Expr::NewArray { .. }
            | Expr::Elem { .. }
            | Expr::Unary { .. }
            | Expr::Step { .. }
            | Expr::Cast { .. }
            | Expr::Binary { .. }
            | Expr::InstanceOf { .. }
            | Expr::Cond { .. }
            | Expr::Assign { .. } => None,
        }
    }
}

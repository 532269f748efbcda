ghost use Rattle.std.specs.Prelude.{◌≡◌, ◌+◌, ◌≤◌, ◌<◌, [], ◌∷◌, false, IfOk, map, length};
ghost use Rattle.bcj_parser_trees.specs.Plain.{member_of};
ghost use Rattle.bcj_parser_rules.specs.function.Declarations as rule;
ghost use Rattle.bcj_parser_rules.specs.function.Expressions.{room_bound, many};
ghost use Rattle.bcj_parser_rules.specs.function.Statements.{is_inside};
ghost use Rattle.bcj_parser_rules.specs.function.Steps.{Reads};
ghost use Rattle.bcj_parser_declaration.specs.function.Views as view;
ghost use Rattle.bcj_parser_rules.specs.function.Declarations.{levels_above};

use crate::body::{constructor_body, method_body};
use crate::field::fields;
use crate::modifiers::{modifiers, no_mods};
use crate::names::names_behind;
use crate::parameters::parameters;
use bcj_names::Name;
use bcj_parser_cursor::Cursor;
use bcj_parser_expression::{brackets, type_name};
use bcj_parser_rules::{Mark, Site, Stop, TypeBeginning};
use bcj_parser_statement::{block, variables_behind};
use bcj_parser_trees::{Base, Member, Mods, TypeName};
use sqlite_items::Items;
use std::alloc::{AllocError, Global};

/// How members are read: with room for parts that are `room + 1` high, and in an interface or in a class.
#[derive(Clone, Copy)]
pub struct Grammar {
    pub alloc: Global,
    pub room: u32,
    pub interface: bool,
}

/// The place of a token that is refused behind the names of what is thrown.
fn site_behind_throws(throws: &[Name]) -> Site
    ensures { result ≡ rule.site_behind_throws throws.now }
{
    match throws {
        [] => Site::DeclaredName,
        _ => Site::TypeName,
    }
}

fn alone(alloc: Global, member: Member) -> Result<Vec<Member>, AllocError>
    ensures { IfOk result (λ ms. ms.items ≡ member ∷ []) }
{
    let mut found = Vec::new(alloc);
    found.push(member)?;
    Ok(found)
}

impl Grammar {
    /// A method behind its name.
    #[tactic(auto, unfolding(bcj_parser_rules::specs::function::Declarations::method_rest))]
    fn method_rest(
        self,
        cursor: &mut Cursor<'_>,
        at: u32,
        mods: Mods,
        result_type: TypeName,
        name: Name,
    ) -> Result<(Vec<Member>, u32), Stop>
        requires room { self.room + levels_above < room_bound }
        requires dims { result_type.dims ≤ self.room + 1 }
        ensures reads { Reads (λ p. (map member_of p.0.items, p.1)) (rule.method_rest self.room self.interface at mods result_type name cursor.old) result cursor.new }
        ensures low { IfOk result (λ p. p.1 ≤ self.room + 2) }
    {
        let (params, params_high) = parameters(self.alloc, cursor, self.room + 1)?;
        let throws = names_behind(self.alloc, cursor, Mark::Throws)?;
        let site = site_behind_throws(throws.as_slice());
        let (body, body_high) = method_body(self.alloc, cursor, self.room, self.interface, site)?;
        let high = result_type.dims.max(params_high.max(body_high)) + 1;
        let method = Member::Method {
            at,
            mods,
            result: result_type,
            name,
            params,
            throws,
            body,
        };
        Ok((alone(self.alloc, method)?, high))
    }

    /// A constructor behind its name.
    #[tactic(auto, unfolding(bcj_parser_rules::specs::function::Declarations::constructor))]
    fn constructor(
        self,
        cursor: &mut Cursor<'_>,
        at: u32,
        mods: Mods,
        name: Name,
    ) -> Result<(Vec<Member>, u32), Stop>
        requires { self.room + levels_above < room_bound }
        ensures reads { Reads (λ p. (map member_of p.0.items, p.1)) (rule.constructor self.room at mods name cursor.old) result cursor.new }
        ensures low { IfOk result (λ p. p.1 ≤ self.room + 2) }
    {
        let (params, params_high) = parameters(self.alloc, cursor, self.room + 1)?;
        let throws = names_behind(self.alloc, cursor, Mark::Throws)?;
        let site = site_behind_throws(throws.as_slice());
        cursor.expect(Mark::LeftBrace, site)?;
        let body = constructor_body(self.alloc, cursor, self.room)?;
        cursor.expect(Mark::RightBrace, Site::Elsewhere)?;
        let high = params_high.max(body.first_high.max(body.high)) + 1;
        let constructor = Member::Constructor {
            at,
            mods,
            name,
            params,
            throws,
            first: body.first,
            body: Items::from_vec(body.statements),
        };
        Ok((alone(self.alloc, constructor)?, high))
    }

    /// Fields behind the type and the name of the first one.
    fn field_list(
        self,
        cursor: &mut Cursor<'_>,
        at: u32,
        mods: Mods,
        ty: TypeName,
        name: Name,
    ) -> Result<(Vec<Member>, u32), Stop>
        requires room { self.room + levels_above < room_bound }
        requires dims { ty.dims ≤ self.room + 1 }
        ensures reads { Reads (λ p. (map member_of p.0.items, p.1)) (view.fields_behind self.room at mods ty name cursor.old) result cursor.new }
        ensures low { IfOk result (λ p. p.1 ≤ self.room + 2) }
    {
        let (variables, high) = variables_behind(
            self.alloc,
            cursor,
            self.room + 1,
            Site::DeclaredName,
            name,
        )?;
        let found = fields(self.alloc, at, mods, &ty, variables)?;
        Ok((found, ty.dims.max(high) + 1))
    }

    /// Fields or a method, behind the type and a name.
    #[tactic(auto, unfolding(bcj_parser_rules::specs::function::Declarations::field_or_method))]
    fn field_or_method(
        self,
        cursor: &mut Cursor<'_>,
        at: u32,
        mods: Mods,
        ty: TypeName,
        name: Name,
    ) -> Result<(Vec<Member>, u32), Stop>
        requires room { self.room + levels_above < room_bound }
        requires dims { ty.dims ≤ self.room + 1 }
        ensures reads { Reads (λ p. (map member_of p.0.items, p.1)) (rule.field_or_method self.room self.interface at mods ty name cursor.old) result cursor.new }
        ensures low { IfOk result (λ p. p.1 ≤ self.room + 2) }
    {
        if !cursor.sees(Mark::LeftParen) {
            return self.field_list(cursor, at, mods, ty, name);
        }
        if mods.is_final {
            return Err(Stop::Refused(Site::FinalMember));
        }
        self.method_rest(cursor, at, mods, ty, name)
    }

    /// Fields or a method, from the type on.
    #[tactic(auto, unfolding(bcj_parser_rules::specs::function::Declarations::typed_member))]
    fn typed_member(
        self,
        cursor: &mut Cursor<'_>,
        at: u32,
        mods: Mods,
    ) -> Result<(Vec<Member>, u32), Stop>
        requires { self.room + levels_above < room_bound }
        ensures reads { Reads (λ p. (map member_of p.0.items, p.1)) (rule.typed_member self.room self.interface at mods cursor.old) result cursor.new }
        ensures low { IfOk result (λ p. p.1 ≤ self.room + 2) }
    {
        let ty = type_name(self.alloc, cursor, self.room + 1, Site::Elsewhere)?;
        let name = cursor.named(self.alloc, Site::TypeName)?;
        self.field_or_method(cursor, at, mods, ty, name)
    }

    /// A constructor behind its name, where one may stand.
    fn constructor_or_refused(
        self,
        cursor: &mut Cursor<'_>,
        at: u32,
        mods: Mods,
        name: Name,
    ) -> Result<(Vec<Member>, u32), Stop>
        requires { self.room + levels_above < room_bound }
        ensures reads { Reads (λ p. (map member_of p.0.items, p.1)) (rule.constructor_or_refused self.room self.interface at mods name cursor.old) result cursor.new }
        ensures low { IfOk result (λ p. p.1 ≤ self.room + 2) }
    {
        if self.interface {
            return Err(Stop::Refused(Site::Elsewhere));
        }
        if mods.is_final {
            return Err(Stop::Refused(Site::FinalMember));
        }
        self.constructor(cursor, at, mods, name)
    }

    /// A member behind a name that is a type's or a constructor's.
    #[tactic(auto, unfolding(bcj_parser_rules::specs::function::Declarations::named_member))]
    fn named_member(
        self,
        cursor: &mut Cursor<'_>,
        at: u32,
        mods: Mods,
        name: Name,
    ) -> Result<(Vec<Member>, u32), Stop>
        requires { self.room + levels_above < room_bound }
        ensures reads { Reads (λ p. (map member_of p.0.items, p.1)) (rule.named_member self.room self.interface at mods name cursor.old) result cursor.new }
        ensures low { IfOk result (λ p. p.1 ≤ self.room + 2) }
    {
        if cursor.sees(Mark::LeftParen) {
            return self.constructor_or_refused(cursor, at, mods, name);
        }
        let dims = brackets(cursor, Site::Elsewhere, self.room + 1, 0)?;
        let declared = cursor.named(self.alloc, Site::TypeName)?;
        let base = Base::Named(name);
        self.field_or_method(cursor, at, mods, TypeName { base, dims }, declared)
    }

    /// A method without a result, from `void` on.
    #[tactic(auto, unfolding(bcj_parser_rules::specs::function::Declarations::void_method))]
    fn void_method(
        self,
        cursor: &mut Cursor<'_>,
        at: u32,
        mods: Mods,
    ) -> Result<(Vec<Member>, u32), Stop>
        requires { self.room + levels_above < room_bound }
        ensures reads { Reads (λ p. (map member_of p.0.items, p.1)) (rule.void_method self.room self.interface at mods cursor.old) result cursor.new }
        ensures low { IfOk result (λ p. p.1 ≤ self.room + 2) }
    {
        if mods.is_final {
            return Err(Stop::Refused(Site::FinalMember));
        }
        cursor.advance();
        let name = cursor.named(self.alloc, Site::Elsewhere)?;
        let base = Base::Void;
        self.method_rest(cursor, at, mods, TypeName { base, dims: 0 }, name)
    }

    /// A member behind its modifiers.
    #[tactic(auto, unfolding(bcj_parser_rules::specs::function::Declarations::member_behind))]
    fn member_behind(
        self,
        cursor: &mut Cursor<'_>,
        at: u32,
        mods: Mods,
    ) -> Result<(Vec<Member>, u32), Stop>
        requires { self.room + levels_above < room_bound }
        ensures reads { Reads (λ p. (map member_of p.0.items, p.1)) (rule.member_behind self.room self.interface at mods cursor.old) result cursor.new }
        ensures low { IfOk result (λ p. p.1 ≤ self.room + 2) }
    {
        if cursor.sees(Mark::Void) {
            return self.void_method(cursor, at, mods);
        }
        match cursor.type_beginning() {
            TypeBeginning::Int => self.typed_member(cursor, at, mods),
            TypeBeginning::Bool => self.typed_member(cursor, at, mods),
            TypeBeginning::Name => {
                let name = cursor.name(self.alloc)?;
                cursor.advance();
                self.named_member(cursor, at, mods, name)
            }
            TypeBeginning::Nothing => Err(Stop::Refused(Site::Member)),
        }
    }

    /// A member behind the modifiers that stand first.
    #[tactic(auto, unfolding(bcj_parser_rules::specs::function::Declarations::modified_member))]
    fn modified_member(
        self,
        cursor: &mut Cursor<'_>,
        at: u32,
        before: Mods,
    ) -> Result<(Vec<Member>, u32), Stop>
        requires { self.room + levels_above < room_bound }
        ensures reads { Reads (λ p. (map member_of p.0.items, p.1)) (rule.modified_member self.room self.interface at before cursor.old) result cursor.new }
        ensures low { IfOk result (λ p. p.1 ≤ self.room + 2) }
    {
        let mods = modifiers(cursor, before);
        self.member_behind(cursor, at, mods)
    }

    /// A static initialiser or a static member of a class, behind `static`.
    #[tactic(auto, unfolding(bcj_parser_rules::specs::function::Declarations::static_member))]
    fn static_member(self, cursor: &mut Cursor<'_>, at: u32) -> Result<(Vec<Member>, u32), Stop>
        requires room { self.room + levels_above < room_bound }
        requires class { self.interface ≡ false }
        ensures reads { Reads (λ p. (map member_of p.0.items, p.1)) (rule.static_member self.room at cursor.old) result cursor.new }
        ensures low { IfOk result (λ p. p.1 ≤ self.room + 2) }
    {
        if !cursor.sees(Mark::LeftBrace) {
            let mods = Mods {
                is_static: true,
                ..no_mods()
            };
            return self.modified_member(cursor, at, mods);
        }
        let (statements, high) = block(self.alloc, cursor, self.room + 1, Site::Elsewhere)?;
        let body = Items::from_vec(statements);
        let initialiser = alone(self.alloc, Member::Static { at, body })?;
        Ok((initialiser, high + 1))
    }

    /// The members that one declaration has; a semicolon is none.
    #[tactic(auto, unfolding(bcj_parser_rules::specs::function::Declarations::member))]
    fn member(self, cursor: &mut Cursor<'_>) -> Result<(Vec<Member>, u32), Stop>
        requires { self.room + levels_above < room_bound }
        ensures reads { Reads (λ p. (map member_of p.0.items, p.1)) (rule.member self.room self.interface cursor.old) result cursor.new }
        ensures low { IfOk result (λ p. p.1 ≤ self.room + 2) }
    {
        let at = cursor.at();
        if cursor.sees(Mark::Semicolon) {
            cursor.advance();
            return Ok((Vec::new(self.alloc), 0));
        }
        if cursor.sees(Mark::Static) && !self.interface {
            cursor.advance();
            return self.static_member(cursor, at);
        }
        self.modified_member(cursor, at, no_mods())
    }

    /// Members up to a closing brace.
    fn inside(self, cursor: &mut Cursor<'_>) -> Result<(Vec<Member>, u32), Stop>
        requires { self.room + levels_above < room_bound }
        ensures reads { Reads (λ p. (map member_of p.0.items, p.1)) (many is_inside (rule.member self.room self.interface) (length cursor.old) [] 0 cursor.old) result cursor.new }
        ensures low { IfOk result (λ p. p.1 ≤ self.room + 2) }
    {
        let mut found = Vec::new(self.alloc);
        let mut high = 0;
        for _turn in 0..cursor.len() {
            if cursor.sees(Mark::RightBrace) {
                return Ok((found, high));
            }
            let (mut more, more_high) = self.member(cursor)?;
            found.append(&mut more)?;
            high = high.max(more_high);
        }
        Ok((found, high))
    }

    /// The members of a type, up to the closing brace and with it.
    #[tactic(auto, unfolding(bcj_parser_rules::specs::function::Declarations::members))]
    pub fn members(self, cursor: &mut Cursor<'_>) -> Result<(Items<Member>, u32), Stop>
        requires { self.room + levels_above < room_bound }
        ensures reads { Reads (λ p. (map member_of p.0, p.1)) (rule.members self.room self.interface cursor.old) result cursor.new }
        ensures low { IfOk result (λ p. p.1 ≤ self.room + 2) }
    {
        let (found, high) = self.inside(cursor)?;
        cursor.expect(Mark::RightBrace, Site::Elsewhere)?;
        Ok((Items::from_vec(found), high))
    }
}

//! Whether a field of a type's text has an initialiser.

ghost use Rattle.std.specs.Prelude.{◌≡◌, map};
ghost use Rattle.bcj_parser_trees.specs.Plain.{member_of};
ghost use Rattle.bcj_decl_rules.specs.World.{initialiser_in};
ghost use Rattle.bcj_typing_rules.specs.Context.{is_absent};
ghost use Rattle.bcj_typing_scope.specs.Initials.{blank_there};

use bcj_names::Name;
use bcj_parser_trees::Member;

/// Whether a member that declares the field has no initialiser.
fn blank_there(member: &Member, name: &Name) -> Option<bool>
    ensures { result ≡ blank_there name.now (member_of member.now) }
{
    match member {
        Member::Field {
            at: _,
            mods: _,
            ty: _,
            name: other,
            init,
        } => {
            if other.same(name) {
                Some(init.is_none())
            } else {
                None
            }
        }
        Member::Method { .. } | Member::Constructor { .. } | Member::Static { .. } => None,
    }
}

/// The same of the first of these members that declares the field.
pub fn is_blank_in(members: &[Member], name: &Name) -> bool
    ensures { result ≡ is_absent (initialiser_in name.now (map member_of members.now)) }
{
    for member in members {
        if let Some(blank) = blank_there(member, name) {
            return blank;
        }
    }
    true
}

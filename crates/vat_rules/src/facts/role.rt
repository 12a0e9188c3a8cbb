//! In which role a number stands in a record.

ghost use Rattle.std.specs.Prelude.{◌≡◌, Some};
ghost use Rattle.std.specs.Option.{option_copied};
ghost use Rattle.vat_rules.specs.Glue.Roles.{view_in_role};

use vat_view::View;

/// Which number of a record stands for a view, where it is neither a reference nor a descriptor.
#[derive(Clone, Copy)]
pub(crate) enum Role {
    /// The question that it returns or finishes.
    Question,
    /// The promise that it resolves.
    Promise,
    /// Its target.
    Target,
    /// The number that it releases.
    Released,
}

/// The view of the number in a role, if it is in this one.
pub(crate) fn view_in_role(role: Role, view: &View, wanted: Role) -> Option<&View>
    ensures { option_copied result ≡ view_in_role (Some (role, view.now)) wanted }
{
    match (role, wanted) {
        (Role::Question, Role::Question) => Some(view),
        (Role::Promise, Role::Promise) => Some(view),
        (Role::Target, Role::Target) => Some(view),
        (Role::Released, Role::Released) => Some(view),
        _ => None,
    }
}

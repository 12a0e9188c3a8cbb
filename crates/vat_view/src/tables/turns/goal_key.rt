//! The short form of goals.

ghost use Rattle.std.specs.Prelude.{◌≡◌};
ghost use Rattle.std.specs.Option.{option_copied};
ghost use Rattle.vat_view.specs.Glue.Queues.{digest_step, digest_of, goal_key_of};

use decoded_records::View;

/// A call's goal with a digest in the place of a path, so that it takes no memory. Goals that are one have one
/// heading. Two goals with one heading differ in their paths at most, and no two paths of up to three fields have one
/// digest.
#[derive(Clone, Copy, PartialEq, Eq, PartialOrd, Ord)]
pub(crate) enum GoalKey {
    /// Of a call without a goal.
    Nowhere,
    /// To an own object.
    ToObject(u64),
    /// To an own promise.
    ToPromise(u64),
    /// To a result of a call, by the digest of its path.
    ToField(u64, u64),
    /// To an import.
    ToImport(usize, usize),
}

/// The digest of a path that goes on with this field.
fn digest_step(digest: u64, field: u16) -> u64
    ensures { result ≡ digest_step digest field }
{
    digest
        .wrapping_mul(1_000_003)
        .wrapping_add(u64::from(field) + 1)
}

/// The digest of a path.
pub(crate) fn digest(path: &[u16]) -> u64
    ensures { result ≡ digest_of path.now }
{
    path.iter()
        .fold(0, |digest, field| digest_step(digest, *field))
}

/// The heading of a call with this goal.
pub(crate) fn goal_key_of(goal: Option<&View>) -> GoalKey
    ensures { result ≡ goal_key_of (option_copied goal.entry) }
{
    match goal {
        Some(View::Object(object)) => GoalKey::ToObject(*object),
        Some(View::Promise(reference)) => GoalKey::ToPromise(*reference),
        Some(View::Field(call, path)) => GoalKey::ToField(*call, digest(path.as_slice())),
        Some(View::Import(number, place)) => GoalKey::ToImport(*number, *place),
        None => GoalKey::Nowhere,
    }
}

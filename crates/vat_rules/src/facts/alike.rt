//! Whether two numbers stand for the same.

ghost use Rattle.std.specs.Prelude.{◌≡◌, ◌↔◌, IsTrue};

use vat_view::View;

/// Whether two numbers stand for one view, or both for nothing.
fn same(a: &Option<View>, b: &Option<View>) -> bool
    ensures { IsTrue result ↔ (a.now ≡ b.now) }
{
    match (a, b) {
        (Some(a), Some(b)) => a.is_same(b),
        (None, None) => true,
        _ => false,
    }
}

/// Whether these are one number and one number, which stand for the same.
pub(crate) fn are_one(some: &[Option<View>], others: &[Option<View>]) -> bool
    ensures { IsTrue result → others.now ≡ some.now }
{
    match (some, others) {
        ([one], [other]) => same(one, other),
        _ => false,
    }
}

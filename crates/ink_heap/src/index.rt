//! Where a name stands among pairs.
ghost use Rattle.std.specs.Prelude.{◌≡◌, Option, MatchOption};
ghost use Rattle.std.specs.FinMap.{get, from_entries};
ghost use Rattle.std.specs.Ordering.{eq_by_cmp};
ghost use Rattle.ink_base.specs.Ident.{id_cmp};
ghost use Rattle.ink_heap.specs.Pairs.{AreApart, HoldsName};

use ink_base::{Object, ObjectId};

/// Whether two names are one.
fn is_same(one: &ObjectId, other: &ObjectId) -> bool
    ensures { result ≡ eq_by_cmp id_cmp one.now other.now }
{
    one.compare(other).is_eq()
}

/// The index at which a name stands.
pub(crate) fn index_of(pairs: &[(ObjectId, Object)], id: &ObjectId) -> Option<usize>
    requires { AreApart pairs.now }
    ensures { MatchOption result (get (from_entries {R = id_cmp} pairs.now) id.now ≡ Option.None)
        (λ index. HoldsName pairs.now index id.now) }
{
    for (index, pair) in pairs.iter().enumerate() {
        if is_same(id, &pair.0) {
            return Some(index);
        }
    }
    None
}

//! What is armed.
ghost use Rattle.std.specs.Prelude.{◌≡◌, ◌↔◌, IsTrue};
ghost use Rattle.ls_standing.specs.Standing.{kept_arming};

use ls_arming::Arming;

/// Whether two lists of users are the same.
fn are_same(a: &[u32], b: &[u32]) -> bool
    ensures same { IsTrue result ↔ (a.now ≡ b.now) }
{
    a == b
}

/// Whether this is the arming.
fn is_arming(armed: &Arming, arming: &Option<Arming>) -> bool
    ensures same { IsTrue result ↔ (arming.now ≡ Some armed.now) }
{
    match arming {
        None => false,
        Some(arming) => {
            arming.boot == armed.boot && are_same(arming.users.as_slice(), armed.users.as_slice())
        }
    }
}

/// Whether two armings are the same, or nothing is armed in both.
fn are_same_armings(armed: &Option<Arming>, arming: &Option<Arming>) -> bool
    ensures same { IsTrue result ↔ (arming.now ≡ armed.now) }
{
    match armed {
        None => arming.is_none(),
        Some(armed) => is_arming(armed, arming),
    }
}

/// Whether the arming is what the record says, as long as the cell holds a key, and else none.
pub(crate) fn is_arming_of(
    armed: &Option<Arming>,
    cell: &Option<[u8; 32]>,
    arming: &Option<Arming>,
) -> bool
    ensures decided { IsTrue result ↔ (arming.now ≡ kept_arming armed.now cell.now) }
{
    match cell {
        None => arming.is_none(),
        Some(_) => are_same_armings(armed, arming),
    }
}

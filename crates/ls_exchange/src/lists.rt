//! Lists of values that have to be spent.
ghost use Rattle.std.specs.Prelude.{◌≡◌, ◌+◌, ◌∷◌, [], MatchOption, vec_len};

use ls_protector::{Draft, Staged};

/// Takes the first off a list, if there is one.
pub(crate) fn take_first<T>(list: &mut Vec<T>) -> Option<T>
    ensures taken { MatchOption result ((list.old.items ≡ []) × (list.new.items ≡ []))
        (λ first. list.old.items ≡ first ∷ list.new.items) }
    ensures len { MatchOption result (vec_len list.new ≡ 0)
        (λ _. vec_len list.new + 1 ≡ vec_len list.old) }
{
    if list.is_empty() {
        return None;
    }
    Some(list.remove(0))
}

/// Lets each go, with nothing done.
pub(crate) fn discard_all(mut drafts: Vec<Draft>) {
    while let Some(draft) = drafts.pop() {
        draft.discard();
    }
    drafts.destroy_empty();
}

/// Lets each go, where an action of their change failed.
pub(crate) fn abandon_all(mut staged: Vec<Staged>) {
    while let Some(one) = staged.pop() {
        one.abandon();
    }
    staged.destroy_empty();
}

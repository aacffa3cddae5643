//! Protectors of a user that go.
ghost use Rattle.std.specs.Prelude.{◌≡◌, ◌≤◌, ◌+◌, ◌∷◌, [], IfOk, OnOk, OnErr, MatchOption, length, vec_len, vec_capacity};
ghost use Rattle.ls_removals.specs.Going.{goes_of, goes, staying, leaving};

use ls_bytes::Memory;
use ls_protector::Named;
use std::alloc::Global;

/// Some of the protectors of a user, by their ids.
#[derive(Clone, Copy)]
pub(crate) enum Which {
    /// That of this id alone.
    One(u64),
    /// All but that of this id.
    AllBut(u64),
    /// Each.
    All,
}

/// Some of the protectors of one user.
#[derive(Clone, Copy)]
pub(crate) struct Going {
    /// The number of the user.
    pub(crate) user: u32,
    pub(crate) which: Which,
}

impl Which {
    /// Whether it is one of these.
    fn takes(&self, id: u64) -> bool
        ensures same { result ≡ goes_of self.now id }
    {
        match self {
            Which::One(one) => id == *one,
            Which::AllBut(one) => id != *one,
            Which::All => true,
        }
    }
}

impl Going {
    /// Whether it is one of these.
    pub(crate) fn takes(&self, user: u32, id: u64) -> bool
        ensures same { result ≡ goes self.now user id }
    {
        user == self.user && self.which.takes(id)
    }
}

/// Takes the first off a list, if there is one.
fn take_first<T>(list: &mut Vec<T>) -> Option<T>
    ensures taken { MatchOption result ((list.old.items ≡ []) × (list.new.items ≡ []))
        (λ first. list.old.items ≡ first ∷ list.new.items) }
    ensures len { MatchOption result (vec_len list.new ≡ 0)
        (λ _. vec_len list.new + 1 ≡ vec_len list.old) }
{
    if list.is_empty() {
        return None;
    }
    Some(list.remove(0))
}

/// Parts a list: those that stay, and those that go. There is a place for each in both.
fn part(all: &mut Vec<Named>, going: &Going, stays: &mut Vec<Named>, gone: &mut Vec<Named>)
    requires empty { (stays.old.items ≡ []) × (gone.old.items ≡ []) }
    requires stays_room { vec_len stays.old + length all.old.items ≤ vec_capacity stays.old }
    requires gone_room { vec_len gone.old + length all.old.items ≤ vec_capacity gone.old }
    ensures stays { stays.new.items ≡ staying going.now all.old.items }
    ensures gone { gone.new.items ≡ leaving going.now all.old.items }
{
    while let Some(one) = take_first(all) {
        if going.takes(one.parts().user, one.parts().id) {
            gone.push_reserved(one);
        } else {
            stays.push_reserved(one);
        }
    }
}

/// Takes these out of a list of protectors. Without memory for it none is taken out.
pub(crate) fn take_going(
    alloc: Global,
    named: &mut Vec<Named>,
    going: &Going,
) -> Result<Vec<Named>, Memory>
    ensures stays { OnOk result (named.new.items ≡ staying going.now named.old.items) }
    ensures gone { IfOk result (λ gone. gone.items ≡ leaving going.now named.old.items) }
    ensures kept { OnErr result (named.new.items ≡ named.old.items) }
{
    let mut gone = Vec::with_capacity(alloc, named.len())?;
    let mut stays = Vec::with_capacity(alloc, named.len())?;
    part(named, going, &mut stays, &mut gone);
    *named = stays;
    Ok(gone)
}

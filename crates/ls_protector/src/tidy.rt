//! The files of a retired protector, one at a time.
ghost use Rattle.std.specs.Prelude.{◌≡◌, ◌≤◌, ◌∷◌, ◌↔◌, [], ℕ, List, length, IsTrue, IfOk, IfErr, OnOk, OnErr};
ghost use Rattle.std.specs.List.{Contains};
ghost use Rattle.ls_board.specs.Acts.{Sight};
ghost use Rattle.ls_board.specs.Keeping.{Keeps};
ghost use Rattle.ls_board.specs.Reach.{SameBut};
ghost use Rattle.ls_board.specs.Runs.{CanRun, Did, FailedIn, LeavesOnly, PlanImage};
ghost use Rattle.ls_protector.specs.Parts.{first_removed, without_first, reach_of_names};
ghost use Rattle.ls_protector.specs.Clear.{AreUnnamedOn, KeepsVaults};
ghost use Rattle.ls_protector.specs.Steps.{Steps};

use crate::act::act_one;
use crate::states::Retired;
use ls_board::{Action, Board, Part};
use ls_bytes::{Name, NameList, RowsBehind};
use std::alloc::Global;
use std::mem;

/// How a removal ended, and the names of the files that are left.
struct Left {
    names: NameList,
    done: Result<(), Part>,
}

/// The list with the name of a removal at its front again.
fn put_back(behind: RowsBehind<Name>, removal: Action) -> NameList
    ensures first { (n : List ℕ) → removal ≡ Action.Remove n → result ≡ n ∷ behind }
{
    match removal.into_file() {
        Some(name) => behind.put_back(name),
        None => behind.without_first(),
    }
}

/// Removes the file of a name that was taken off its list.
fn remove_file<B: Board>(board: &mut B, alloc: Global, name: Name, behind: RowsBehind<Name>) -> Left
    requires run { CanRun (B.sight board.old) (Action.Remove name ∷ []) }
    ensures steps { Steps (B.sight board.old) (Action.Remove name ∷ []) result.done
        (B.sight board.new) }
    ensures gone { OnOk result.done (result.names ≡ behind) }
    ensures kept { OnErr result.done (result.names ≡ name ∷ behind) }
{
    let action = Action::Remove { name };
    match act_one(board, alloc, &action) {
        Ok(()) => Left {
            names: behind.without_first(),
            done: Ok(()),
        },
        Err(part) => Left {
            names: put_back(behind, action),
            done: Err(part),
        },
    }
}

/// Removes the file of the first name, if there is one.
fn remove_first<B: Board>(board: &mut B, alloc: Global, names: NameList) -> Left
    requires run { CanRun (B.sight board.old) (first_removed names) }
    ensures steps { Steps (B.sight board.old) (first_removed names) result.done
        (B.sight board.new) }
    ensures gone { OnOk result.done (result.names ≡ without_first names) }
    ensures kept { OnErr result.done (result.names ≡ names) }
{
    match names.take_first() {
        Ok((name, behind)) => remove_file(board, alloc, name, behind),
        Err(names) => Left {
            names,
            done: Ok(()),
        },
    }
}

/// Removes the first file that is left of a retired protector, and answers whether none is left
/// then. Where none was left it does nothing. It takes no memory. What is named is changed at no
/// moment and in no image. After a fault the same files are left as before.
pub fn tidy_step<B: Board>(board: &mut B, retired: &mut Retired) -> Result<bool, Part>
    // A later protector may have its slot by now, so of its parts this asks for the files alone.
    requires unnamed { AreUnnamedOn (B.sight board.old) retired.old.names }
    requires action { 1 ≤ (B.sight board.old).actions }
    requires bytes { (n : List ℕ) → Contains retired.old.names n
        → length n ≤ (B.sight board.old).bytes }
    ensures empty { IfOk result (λ none. IsTrue none ↔ (retired.new.names ≡ [])) }
    ensures rest { OnOk result
        (retired.new ≡ record retired.old { names = without_first retired.old.names }) }
    ensures kept { OnErr result (retired.new ≡ retired.old) }
    ensures did { OnOk result
        (Did (B.sight board.old) (first_removed retired.old.names) (B.sight board.new)) }
    ensures failed { IfErr result (λ part.
        FailedIn (B.sight board.old) (first_removed retired.old.names) part (B.sight board.new)) }
    ensures keeps { Keeps (λ part. part) (B.sight board.old) (B.sight board.new) result }
    ensures crash { IsTrue (B.sight board.old).told
        → LeavesOnly (B.sight board.old) (B.sight board.new)
        (PlanImage (B.sight board.old).world (first_removed retired.old.names)) }
    // Whatever it answers, all but its files stays.
    ensures but { IsTrue (B.sight board.old).told
        → SameBut (reach_of_names retired.old.names) (B.sight board.old).world
        (B.sight board.new).world }
    ensures stands { KeepsVaults (B.sight board.old) (B.sight board.new) }
{
    let alloc = retired.parts.names.allocator();
    let names = mem::replace(&mut retired.parts.names, NameList::new(alloc));
    let Left { names, done } = remove_first(board, alloc, names);
    let none = names.len() == 0;
    retired.parts.names = names;
    match done {
        Ok(()) => Ok(none),
        Err(part) => Err(part),
    }
}

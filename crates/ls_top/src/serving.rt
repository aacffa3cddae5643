//! One line, from its command to its reply.
ghost use Rattle.std.specs.Prelude.{◌≡◌, ◌≤◌, ◌+◌, ◌++◌, ◌∷◌, [], ℕ, List, length, take, IsTrue, OnOk, IfErr};
ghost use Rattle.ls_board.specs.Keeping.{Keeps};
ghost use Rattle.ls_board.specs.declared.action.BoardFault.TheVariants as board_fault;
ghost use Rattle.ls_board.specs.Acts.{Sight, CanAct};
ghost use Rattle.ls_board.specs.Effect.{weight_of};
ghost use Rattle.ls_top.specs.Script.{served, users_after};
ghost use Rattle.ls_top.specs.Serving.{Serving, Settled, CutShort, ComesNext, CanPutAndSay};
ghost use Rattle.ls_top.specs.UsersFile.{settings_0, file_of};
ghost use Rattle.ls_top.specs.Vault.{IsVault};

use crate::opening::settings_name;
use crate::reply::{printed, reply_to};
use crate::users_file::print;
use crate::vault::{Reply, Users};
use ls_board::{Action, Board, BoardFault};
use ls_bytes::Bytes;
use std::alloc::Global;

/// The room that a put of the settings file needs, for its name and its bytes.
const PUT_ROOM: u64 = 10 + 4096;

/// Serves one line, of which the first 4,097 bytes are given: what it changes is put and synced,
/// and then its reply is said.
pub fn serve_line<B: Board>(
    alloc: Global,
    board: &mut B,
    users: &mut Users,
    line: &[u8],
    out: &mut Vec<u8>,
) -> Result<(), BoardFault>
    ensures keeps { Keeps board_fault.Failed (B.sight board.old) (B.sight board.new) result }
    ensures input { IsTrue (B.sight board.old).told
        → (B.sight board.new).world.input ≡ (B.sight board.old).world.input }
    ensures served { IsTrue (B.sight board.old).told
        → (start : Sight) (first : List ℕ) (lines : List (List ℕ)) (whole : List ℕ)
        → line.now ≡ take 4097 whole → ComesNext start lines whole
        → Serving start (B.sight board.old) first lines users.old
        → OnOk result
        (Serving start (B.sight board.new) first (lines ++ whole ∷ []) users.new) }
    ensures cut { IsTrue (B.sight board.old).told
        → (start : Sight) (first : List ℕ) (lines : List (List ℕ)) (whole : List ℕ)
        → line.now ≡ take 4097 whole → ComesNext start lines whole
        → Serving start (B.sight board.old) first lines users.old
        → IfErr result (CutShort start (B.sight board.new) first) }
{
    let reply = reply_to(users, line)?;
    let text = printed(reply);
    if reply == Some(Reply::Fine) {
        put_and_say(alloc, board, users, text, out)
    } else {
        say(alloc, board, text, out)
    }
}

/// Says the reply to a line whose change is on the disk.
fn say<B: Board>(
    alloc: Global,
    board: &mut B,
    text: &[u8],
    out: &mut Vec<u8>,
) -> Result<(), BoardFault>
    requires short { length text.now ≤ 64 }
    ensures keeps { Keeps board_fault.Failed (B.sight board.old) (B.sight board.new) result }
    ensures input { IsTrue (B.sight board.old).told
        → (B.sight board.new).world.input ≡ (B.sight board.old).world.input }
    ensures served { IsTrue (B.sight board.old).told
        → (start : Sight) (first : List ℕ) (lines : List (List ℕ)) (whole users : List ℕ)
        → Settled start (B.sight board.old) first lines whole users
        → text.now ≡ (served (users_after first lines) whole).printed
        → OnOk result (Serving start (B.sight board.new) first (lines ++ whole ∷ []) users) }
    ensures cut { IsTrue (B.sight board.old).told
        → (start : Sight) (first : List ℕ) (lines : List (List ℕ)) (whole users : List ℕ)
        → Settled start (B.sight board.old) first lines whole users
        → text.now ≡ (served (users_after first lines) whole).printed
        → IfErr result (CutShort start (B.sight board.new) first) }
{
    let say = Action::Say {
        bytes: Bytes::of(alloc, text)?,
    };
    board.ready(alloc, 1, text.len() as u64)?;
    say_ready(board, &say, out)
}

/// Says a reply for which room is made.
fn say_ready<B: Board>(board: &mut B, say: &Action, out: &mut Vec<u8>) -> Result<(), BoardFault>
    requires can { CanAct (B.sight board.old) say.now }
    ensures keeps { Keeps board_fault.Failed (B.sight board.old) (B.sight board.new) result }
    ensures input { IsTrue (B.sight board.old).told → (text : List ℕ)
        → say.now ≡ Action.Say text
        → (B.sight board.new).world.input ≡ (B.sight board.old).world.input }
    ensures served { IsTrue (B.sight board.old).told → (text : List ℕ)
        → say.now ≡ Action.Say text
        → (start : Sight) (first : List ℕ) (lines : List (List ℕ)) (whole users : List ℕ)
        → Settled start (B.sight board.old) first lines whole users
        → text ≡ (served (users_after first lines) whole).printed
        → OnOk result (Serving start (B.sight board.new) first (lines ++ whole ∷ []) users) }
    ensures cut { IsTrue (B.sight board.old).told → (text : List ℕ)
        → say.now ≡ Action.Say text
        → (start : Sight) (first : List ℕ) (lines : List (List ℕ)) (whole users : List ℕ)
        → Settled start (B.sight board.old) first lines whole users
        → text ≡ (served (users_after first lines) whole).printed
        → IfErr result (CutShort start (B.sight board.new) first) }
{
    board.act(say, out)?;
    Ok(())
}

/// Puts the users' file, syncs, and says the reply. All room is made before the first action.
fn put_and_say<B: Board>(
    alloc: Global,
    board: &mut B,
    users: &Users,
    text: &[u8],
    out: &mut Vec<u8>,
) -> Result<(), BoardFault>
    requires short { length text.now ≤ 64 }
    ensures keeps { Keeps board_fault.Failed (B.sight board.old) (B.sight board.new) result }
    ensures input { IsTrue (B.sight board.old).told
        → (B.sight board.new).world.input ≡ (B.sight board.old).world.input }
    ensures served { IsTrue (B.sight board.old).told
        → (start : Sight) (first : List ℕ) (lines : List (List ℕ)) (whole before : List ℕ)
        → ComesNext start lines whole → Serving start (B.sight board.old) first lines before
        → users.now ≡ (served before whole).users → text.now ≡ (served before whole).printed
        → OnOk result (Serving start (B.sight board.new) first (lines ++ whole ∷ []) users.now) }
    ensures cut { IsTrue (B.sight board.old).told
        → (start : Sight) (first : List ℕ) (lines : List (List ℕ)) (whole before : List ℕ)
        → ComesNext start lines whole → Serving start (B.sight board.old) first lines before
        → users.now ≡ (served before whole).users → text.now ≡ (served before whole).printed
        → IfErr result (CutShort start (B.sight board.new) first) }
{
    let put = Action::Put {
        name: settings_name(alloc)?,
        bytes: print(alloc, users)?,
    };
    let sync = Action::Sync;
    let say = Action::Say {
        bytes: Bytes::of(alloc, text)?,
    };
    board.ready(alloc, 3, PUT_ROOM + text.len() as u64)?;
    put_synced(board, &put, &sync, &say, out)?;
    say_ready(board, &say, out)
}

/// Puts the users' file and syncs. Room is left for what is said then.
fn put_synced<B: Board>(
    board: &mut B,
    put: &Action,
    sync: &Action,
    say: &Action,
    out: &mut Vec<u8>,
) -> Result<(), BoardFault>
    requires can { CanPutAndSay (B.sight board.old) put.now sync.now say.now }
    ensures keeps { Keeps board_fault.Failed (B.sight board.old) (B.sight board.new) result }
    ensures can { OnOk result (CanAct (B.sight board.new) say.now) }
    ensures input { IsTrue (B.sight board.old).told
        → (B.sight board.new).world.input ≡ (B.sight board.old).world.input }
    ensures settled { IsTrue (B.sight board.old).told
        → (start : Sight) (first : List ℕ) (lines : List (List ℕ)) (whole before users : List ℕ)
        → ComesNext start lines whole → Serving start (B.sight board.old) first lines before
        → users ≡ (served before whole).users → IsVault users
        → put.now ≡ Action.Put settings_0 (file_of users)
        → OnOk result (Settled start (B.sight board.new) first lines whole users) }
    ensures cut { IsTrue (B.sight board.old).told
        → (start : Sight) (first : List ℕ) (lines : List (List ℕ)) (whole before users : List ℕ)
        → ComesNext start lines whole → Serving start (B.sight board.old) first lines before
        → users ≡ (served before whole).users → IsVault users
        → put.now ≡ Action.Put settings_0 (file_of users)
        → IfErr result (CutShort start (B.sight board.new) first) }
{
    board.act(put, out)?;
    board.act(sync, out)?;
    Ok(())
}

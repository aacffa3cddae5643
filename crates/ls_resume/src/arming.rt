//! The plan that arms users.
ghost use Rattle.std.specs.Prelude.{◌≡◌, ◌≤◌, ◌+◌, ◌*◌, ◌++◌, ◌∷◌, [], length, IfOk, OnOk};
ghost use Rattle.ls_board.specs.declared.action.Action.TheVariants.{Put};
ghost use Rattle.ls_formats.specs.PartNames.{part_name_text};
ghost use Rattle.ls_sealing.specs.Draws.{piece};
ghost use Rattle.ls_edits.specs.Arming.{resume_of};
ghost use Rattle.ls_resume.specs.Sealing.{arm_draw_size, sealed_file, arming_of};
ghost use Rattle.ls_resume.specs.Pushing.{put_files};

use crate::secrets::{SecretRow, SecretRows};
use ls_board::{Action, Plan};
use ls_bytes::{Bytes, Memory, joined};
use ls_formats::FilePart;
use ls_gcm::seal;
use ls_retiring::put_own_plan;
use ls_secret::Secret;
use std::alloc::Global;

/// The N bytes from a place on.
fn piece_at<const N: usize>(drawn: &[u8], at: usize) -> [u8; N]
    requires { at + N ≤ length drawn.now }
    ensures same { result ≡ piece at N drawn.now }
{
    let mut array = [0; N];
    array.copy_from_slice(&drawn[at..at + N]);
    array
}

/// The `resume` file of a secret, with the two ivs that stand at a place. The outer layer is sealed
/// under the key of alias 0, the inner one under the key that is used once.
fn sealed_file(alloc: Global, drawn: &[u8], at: usize, secret: &Secret) -> Result<Bytes, Memory>
    requires keys { 64 ≤ length drawn.now }
    requires ivs { at + 24 ≤ length drawn.now }
    ensures sealed { IfOk result (λ file. file ≡ sealed_file drawn.now at secret.now) }
{
    let inner = seal(
        alloc,
        &piece_at(drawn, 0),
        &piece_at(drawn, at),
        secret.sp_text(),
    )?;
    let outer = seal(
        alloc,
        &piece_at(drawn, 32),
        &piece_at(drawn, at + 12),
        inner.as_slice(),
    )?;
    joined(alloc, &[1], outer.as_slice())
}

/// Puts the file of one secret.
fn push_file(
    alloc: Global,
    plan: &mut Plan,
    drawn: &[u8],
    at: usize,
    row: &SecretRow,
) -> Result<(), Memory>
    requires keys { 64 ≤ length drawn.now }
    requires ivs { at + 24 ≤ length drawn.now }
    ensures pushed { OnOk result (plan.new ≡ plan.old
        ++ Put (part_name_text (resume_of row.now.user)) (sealed_file drawn.now at row.now.secret) ∷ []) }
{
    let bytes = sealed_file(alloc, drawn, at, &row.secret)?;
    plan.append(put_own_plan(alloc, row.user, FilePart::Resume, bytes)?)
}

/// Puts the files of these secrets, with the ivs that stand from a place on.
fn push_files(
    alloc: Global,
    plan: &mut Plan,
    drawn: &[u8],
    at: usize,
    rows: &[SecretRow],
) -> Result<(), Memory>
    requires keys { 64 ≤ length drawn.now }
    requires ivs { at + 24 * length rows.now ≤ length drawn.now }
    ensures pushed { OnOk result (plan.new ≡ plan.old ++ put_files drawn.now at rows.now) }
{
    match rows {
        [] => Ok(()),
        [row, rest @ ..] => {
            push_file(alloc, plan, drawn, at, row)?;
            push_files(alloc, plan, drawn, at + 24, rest)
        }
    }
}

/// The plan that arms these users: it puts a new key of alias 0, the `resume` file of each user,
/// and the key that is used once into the cell. What is drawn has 64 bytes, and 24 for each user.
pub fn arm_plan(alloc: Global, secrets: &SecretRows, drawn: &[u8]) -> Result<Plan, Memory>
    requires drawn { length drawn.now ≡ arm_draw_size (length secrets.now) }
    ensures arms { IfOk result (λ plan. plan ≡ arming_of drawn.now secrets.now) }
{
    let key = piece_at(drawn, 32);
    let once = piece_at(drawn, 0);
    let mut plan = Plan::new(alloc);
    plan.push(Action::KeyPut { alias: 0, key })?;
    push_files(alloc, &mut plan, drawn, 64, secrets.as_slice())?;
    plan.push(Action::ResumeStore { key: once })?;
    plan.push(Action::Sync)?;
    Ok(plan)
}

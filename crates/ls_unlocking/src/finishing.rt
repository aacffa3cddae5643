//! What a session knows behind an attempt.
ghost use Rattle.std.specs.Prelude.{◌≡◌, ◌<◌, IfOk, OnOk, OnErr};
ghost use Rattle.ls_unlocking.specs.Finishing.{Finishes, OpensUser, Captures, corrupt_at, spot_id};

use crate::ending::Ending;
use crate::entries::put_entry;
use ls_board::BoardFault;
use ls_bytes::{Memory, Name};
use ls_chain::{ChainFault, Spot, spot_name};
use ls_drawing::stop_by;
use ls_formats::FilePart;
use ls_script::{Refusal, Reply};
use ls_secret::Secret;
use ls_turn::{Opened, Session, Stop};
use std::alloc::Global;

/// The same secret once more.
fn copy_secret(alloc: Global, secret: &Secret) -> Result<Secret, Memory>
    ensures same { IfOk result (λ copy. copy ≡ secret.now) }
{
    match Secret::of(alloc, secret.version(), secret.sp_text()) {
        Ok(copy) => Ok(copy),
        Err(_) => Err(Memory),
    }
}

/// The same entry once more.
fn copy_entry(alloc: Global, one: &Opened) -> Result<Opened, Memory>
    ensures same { IfOk result (λ copy. copy ≡ one.now) }
{
    match copy_secret(alloc, &one.secret) {
        Ok(secret) => Ok(Opened {
            user: one.user,
            secret,
            metrics: one.metrics,
        }),
        Err(_) => Err(Memory),
    }
}

/// Captures a user, where an arming is prepared.
fn capture_user(x: &mut Session, one: &Opened) -> Result<(), Memory>
    ensures same { x.new ≡ record x.old { captured = x.new.captured } }
    ensures captured { OnOk result (Captures x.old one.now x.new) }
{
    if !x.prepared {
        return Ok(());
    }
    match copy_entry(x.alloc, one) {
        Ok(copy) => put_entry(&mut x.captured, copy),
        Err(_) => Err(Memory),
    }
}

/// Opens a user, and captures it where an arming is prepared.
fn open_user(x: &mut Session, one: Opened) -> Result<(), Memory>
    ensures opens { OnOk result (OpensUser x.old one x.new) }
    ensures kept { OnErr result
        (x.new ≡ record x.old { opened = x.new.opened; captured = x.new.captured }) }
{
    match capture_user(x, &one) {
        Ok(()) => put_entry(&mut x.opened, one),
        Err(_) => Err(Memory),
    }
}

/// The id in the name of a file at fault: the metrics are those of the user's credential.
fn spot_id(credential: u64, tried: u64, part: FilePart) -> u64
    requires credential { 0 < credential }
    requires tried { 0 < tried }
    ensures same { result ≡ spot_id credential tried part }
    ensures some { 0 < result }
{
    match part {
        FilePart::Metrics => credential,
        FilePart::SpBlob
        | FilePart::Pwd
        | FilePart::Secdis
        | FilePart::Weaver
        | FilePart::Handle
        | FilePart::E0
        | FilePart::P1
        | FilePart::Resume => tried,
    }
}

/// That a file is at fault.
fn corrupt_at(
    alloc: Global,
    user: u32,
    credential: u64,
    tried: u64,
    spot: Spot,
) -> Result<Refusal, Memory>
    requires credential { 0 < credential }
    requires tried { 0 < tried }
    ensures same { IfOk result (λ why. why ≡ corrupt_at user credential tried spot) }
{
    let id = spot_id(credential, tried, spot.part);
    let text = match spot_name(alloc, user, id, spot.part) {
        Ok(text) => text,
        Err(_) => return Err(Memory),
    };
    match Name::of(alloc, text.as_slice()) {
        Ok(name) => Ok(Refusal::Corrupt { name, at: spot.at }),
        Err(_) => Err(Memory),
    }
}

/// Answers what the command came to, and opens the user in the session where it is opened.
pub(crate) fn finish(
    x: &mut Session,
    user: u32,
    credential: u64,
    tried: u64,
    end: Result<Ending, ChainFault>,
) -> Result<Reply, Stop>
    requires credential { 0 < credential }
    requires tried { 0 < tried }
    ensures finishes { Finishes user credential tried x.old end result x.new }
{
    match end {
        Ok(Ending::Opened(secret, revealed)) => {
            let one = Opened {
                user,
                secret,
                metrics: revealed.metrics,
            };
            match open_user(x, one) {
                Ok(()) => Ok(Reply::Opened(revealed)),
                Err(_) => Err(stop_by(x, BoardFault::Memory)),
            }
        }
        Ok(Ending::Refused(why)) => Ok(Reply::No(why)),
        Err(ChainFault::Corrupt(spot)) => {
            match corrupt_at(x.alloc, user, credential, tried, spot) {
                Ok(why) => Ok(Reply::No(why)),
                Err(_) => Err(stop_by(x, BoardFault::Memory)),
            }
        }
        Err(ChainFault::Failed(part)) => Err(stop_by(x, BoardFault::Failed(part))),
        Err(ChainFault::Memory) => Err(stop_by(x, BoardFault::Memory)),
    }
}

//! What a board in memory answers, before the call is noted.
ghost use Rattle.std.specs.Prelude.{◌≡◌, ◌⊎◌, ◌≤◌, [], length, take, slice_index_or, IfOk, OnErr};
ghost use Rattle.ls_board.specs.Effect.{Answers, MayLack, file_at, slot_at, read_answer, cell_answer};
ghost use Rattle.ls_board.specs.Gatekeeper.{verify_answer};
ghost use Rattle.ls_board.specs.Keys.{IsOpening};
ghost use Rattle.ls_board.specs.Listing.{IsListing, IsListingOf};
ghost use Rattle.ls_board.specs.declared.action.Answer.TheVariants as answer;
ghost use Rattle.ls_tape.specs.Tape.{drawn};
ghost use Rattle.ls_weaver.specs.Slots.{blank_slot, slot_answer};
ghost use Rattle.ls_memboard.specs.Contents.{IsRead};
ghost use Rattle.ls_memboard.specs.Listed.{ListsInOrder};

use crate::memory::MemBoard;
use crate::reading::read_file;
use ls_answers::{answer_of_cell, answer_of_slot, list_ids, list_names};
use ls_board::{Action, Answer};
use ls_bytes::Memory;
use ls_keys::KeyFault;
use ls_tape::drawn;
use ls_weaver::{Slot, Weaver};
use std::alloc::Global;

/// Hears bytes of what is left, as many as may be.
fn hear(rest: &[u8], max: u32, out: &mut Vec<u8>) -> Result<Answer, Memory>
    requires empty { out.old.items ≡ [] }
    requires some { 1 ≤ max }
    ensures heard { IfOk result (λ answer.
        ((rest.now ≡ []) × (answer ≡ Answer.End) × (out.new.items ≡ []))
        ⊎ ((answer ≡ Answer.Bytes) × (1 ≤ length out.new.items) × (length out.new.items ≤ max)
        × (out.new.items ≡ take (length out.new.items) rest.now))) }
{
    if rest.is_empty() {
        return Ok(Answer::End);
    }
    let count = rest.len().min(max as usize);
    out.extend_from_slice(&rest[..count])?;
    Ok(Answer::Bytes)
}

/// Draws noise, and zeros past its end.
fn draw(alloc: Global, rest: &[u8], len: u32, out: &mut Vec<u8>) -> Result<Answer, Memory>
    requires empty { out.old.items ≡ [] }
    ensures drawn { IfOk result (λ answer. (answer ≡ Answer.Bytes)
        × (out.new.items ≡ drawn rest.now len)) }
{
    let bytes = drawn(alloc, rest, len as usize)?;
    out.extend_from_slice(bytes.as_slice())?;
    Ok(Answer::Bytes)
}

/// A copy of the slot of this number, and a blank one where there is none.
fn copy_of(slots: &Weaver, slot: u32) -> Slot
    ensures same { result ≡ slice_index_or slots.now slot blank_slot }
{
    match slots.get(slot) {
        Some(there) => *there,
        None => Slot::blank(),
    }
}

impl MemBoard {
    ghost use Rattle.ls_board.specs.Effect.{IsSound};
    ghost use Rattle.ls_memboard.specs.Seen.{sight_of};

    fn list(&self, out: &mut Vec<u8>) -> Result<Answer, Memory>
        requires empty { out.old.items ≡ [] }
        ensures listed { IfOk result (λ answer. (answer ≡ Answer.Bytes)
            × IsListingOf (sight_of self.now).world.files out.new.items) }
        ensures names { IfOk result (λ answer. IsListing out.new.items) }
    {
        let world = self.world()?;
        list_names(&world.files, out)?;
        Ok(Answer::Bytes)
    }

    fn read(&self, name: &[u8], out: &mut Vec<u8>) -> Result<Answer, Memory>
        requires empty { out.old.items ≡ [] }
        ensures answer { IfOk result (λ answer.
            IsRead (file_at (sight_of self.now).world name.now) answer out.new.items) }
    {
        if read_file(&self.start.files, &self.changes, &self.pool, name, out)? {
            Ok(Answer::Bytes)
        } else {
            out.clear();
            Ok(Answer::Absent)
        }
    }

    fn read_slot(&self, slot: u32, key: &[u8; 16], moment: u64) -> Answer
        ensures answer { result
            ≡ read_answer (slot_answer (slot_at (sight_of self.now).world slot) key.now moment) }
    {
        let mut copy = copy_of(&self.devices.slots, slot);
        answer_of_slot(copy.read(key, moment))
    }

    fn verify(&self, handle: &[u8; 49], password: &[u8], moment: u64) -> Answer
        ensures answer { result ≡ verify_answer (sight_of self.now).world.gk_key
            (sight_of self.now).world.gk handle.now password.now moment }
    {
        let verify = self.devices.gk.answer(handle, password, moment);
        Answer::from(verify)
    }

    fn open(&self, alias: u64, sealed: &[u8], out: &mut Vec<u8>) -> Result<Answer, Memory>
        requires empty { out.old.items ≡ [] }
        ensures answer { IfOk result (λ answer.
            IsOpening (sight_of self.now).world.keys alias sealed.now answer out.new.items) }
    {
        match self.devices.keys.open(self.alloc, alias, sealed) {
            Ok(text) => {
                out.extend_from_slice(text.as_slice())?;
                Ok(Answer::Bytes)
            }
            Err(KeyFault::NoKey) => Ok(Answer::NoKey),
            Err(KeyFault::Tag) => Ok(Answer::BadTag),
            Err(KeyFault::Memory) => Err(Memory),
        }
    }

    /// What the action answers. Where there is no memory for it, some of its bytes may be left.
    fn answer(&self, a: &Action, out: &mut Vec<u8>) -> Result<Answer, Memory>
        requires empty { out.old.items ≡ [] }
        requires sound { IsSound (sight_of self.now).slots a.now }
        ensures answer { IfOk result (λ answer.
            Answers (sight_of self.now).world a.now answer out.new.items) }
        ensures lists { IfOk result (λ answer. ListsInOrder a.now out.new.items) }
        ensures lacking { OnErr result (MayLack a.now) }
    {
        let devices = &self.devices;
        match a {
            Action::List => self.list(out),
            Action::Read { name } => self.read(name.as_slice(), out),
            Action::WeaverRead { slot, key, moment } => Ok(self.read_slot(*slot, key, *moment)),
            Action::GkSign {
                sid,
                salt,
                password,
            } => Ok(Answer::Handle(devices.gk.sign(*sid, *salt, password.as_slice()))),
            Action::GkVerify {
                handle,
                password,
                moment,
            } => Ok(self.verify(handle, password.as_slice(), *moment)),
            Action::GkList => {
                list_ids(devices.gk.records(), out)?;
                Ok(Answer::Bytes)
            }
            Action::KeyOpen { alias, bytes } => self.open(*alias, bytes.as_slice(), out),
            Action::KeyList => {
                list_ids(devices.keys.keys(), out)?;
                Ok(Answer::Bytes)
            }
            Action::ResumeTake => Ok(answer_of_cell(devices.cell.get())),
            Action::Hear { max } => hear(devices.input.rest(), *max, out),
            Action::Now => Ok(Answer::Moment(devices.moments.moment())),
            Action::Draw { len } => draw(self.alloc, devices.noise.rest(), *len, out),
            _ => Ok(Answer::Done),
        }
    }

    /// What the action answers. Where there is no memory for it, no bytes are left.
    pub(crate) fn answered(&self, a: &Action, out: &mut Vec<u8>) -> Result<Answer, Memory>
        requires empty { out.old.items ≡ [] }
        requires sound { IsSound (sight_of self.now).slots a.now }
        ensures answer { IfOk result (λ answer.
            Answers (sight_of self.now).world a.now answer out.new.items) }
        ensures lists { IfOk result (λ answer. ListsInOrder a.now out.new.items) }
        ensures lacking { OnErr result (MayLack a.now) }
        ensures clear { OnErr result (out.new.items ≡ []) }
    {
        let answer = self.answer(a, out);
        if answer.is_err() {
            out.clear();
        }
        answer
    }
}

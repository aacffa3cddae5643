//! What the devices do for each action that changes them: the rows of the board, over all that they
//! keep.
ghost use Rattle.std.specs.Prelude.{◌≡◌, ◌≤◌, ◌+◌, ◌<◌, length};
ghost use Rattle.ls_board.specs.Effect.{after, IsSound, IsVerifyAnswer, slot_at, read_answer, cell_answer};
ghost use Rattle.ls_board.specs.Gatekeeper.{verify_answer};
ghost use Rattle.ls_board.specs.declared.action.Action.TheVariants as asks;
ghost use Rattle.ls_weaver.specs.Slots.{slot_answer};

use crate::devices::Devices;
use ls_answers::{answer_of_cell, answer_of_slot};
use ls_board::{Action, Answer};

impl Devices {
    ghost use Rattle.ls_secure.specs.Held.{world_of};
    ghost use Rattle.ls_secure.specs.Asked.{OnlyChanges};

    /// Does an action that changes a device and only says that it was done. It takes one spare
    /// place at most. Other actions do nothing.
    pub fn change(&mut self, a: &Action)
        requires sound { IsSound (length self.old.slots) a.now }
        requires record { 1 ≤ self.old.gk.spare }
        requires key { 1 ≤ self.old.keys.spare }
        ensures done { OnlyChanges a.now → world_of self.new ≡ after (world_of self.old) a.now 0 }
        ensures slots { length self.new.slots ≡ length self.old.slots }
        ensures records { self.old.gk.spare ≤ self.new.gk.spare + 1 }
        ensures keys { self.old.keys.spare ≤ self.new.keys.spare + 1 }
    {
        match a {
            Action::WeaverWrite { slot, key, value } => self.slots.write(*slot, key, value),
            Action::GkEnroll { sid } => self.gk.enroll(*sid),
            Action::GkForget { sid } => self.gk.forget(*sid),
            Action::KeyPut { alias, key } => self.keys.put(*alias, key),
            Action::KeyDrop { alias } => self.keys.drop_key(*alias),
            Action::ResumeStore { key } => self.cell.store(key),
            _ => {}
        }
    }

    /// Asks a slot for its value, at this moment in milliseconds.
    pub fn read_slot(&mut self, slot: u32, key: &[u8; 16], moment: u64) -> Answer
        requires there { slot < length self.old.slots }
        ensures answer { result
            ≡ read_answer (slot_answer (slot_at (world_of self.old) slot) key.now moment) }
        ensures after { world_of self.new
            ≡ after (world_of self.old) (asks.WeaverRead slot key.now moment) 0 }
        ensures records { self.new.gk ≡ self.old.gk }
        ensures keys { self.new.keys ≡ self.old.keys }
    {
        answer_of_slot(self.slots.read(slot, key, moment))
    }

    /// Checks a handle and a password, at this moment in milliseconds.
    pub fn verify(&mut self, handle: &[u8; 49], password: &[u8], moment: u64) -> Answer
        ensures answer { result ≡ verify_answer self.old.gk.key self.old.gk.records
            handle.now password.now moment }
        ensures shape { IsVerifyAnswer result }
        ensures after { world_of self.new
            ≡ after (world_of self.old) (asks.GkVerify handle.now password.now moment) 0 }
        ensures spare { self.new.gk.spare ≡ self.old.gk.spare }
        ensures keys { self.new.keys ≡ self.old.keys }
    {
        Answer::from(self.gk.verify(handle, password, moment))
    }

    /// Takes out what the cell holds.
    pub fn take(&mut self) -> Answer
        ensures answer { result ≡ cell_answer self.old.cell }
        ensures after { world_of self.new ≡ after (world_of self.old) asks.ResumeTake 0 }
        ensures records { self.new.gk ≡ self.old.gk }
        ensures keys { self.new.keys ≡ self.old.keys }
    {
        answer_of_cell(self.cell.take())
    }
}

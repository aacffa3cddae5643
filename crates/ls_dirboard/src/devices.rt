//! What is done for each action that asks the devices. A change is written before it is answered.
ghost use Rattle.std.specs.Prelude.{◌≡◌, ◌⊎◌, ◌≤◌, ◌+◌, ◌<◌, [], length, IfOk, IfErr, OnOk};
ghost use Rattle.ls_board.specs.Effect.{after, IsSound, IsVerifyAnswer, slot_at, read_answer, cell_answer};
ghost use Rattle.ls_board.specs.Gatekeeper.{verify_answer};
ghost use Rattle.ls_board.specs.Keys.{IsOpening};
ghost use Rattle.ls_board.specs.declared.action.Action.TheVariants as asks;
ghost use Rattle.ls_weaver.specs.Slots.{slot_answer};
ghost use Rattle.ls_secure.specs.Asked.{OnlyChanges};
ghost use Rattle.ls_secure.specs.Held.{world_of};

use crate::outside::{Outcome, Outside, Trouble};
use ls_board::{Action, Answer};
use ls_keys::KeyFault;
use std::alloc::Global;

impl Outside {
    ghost use Rattle.ls_dirboard.specs.Saved.{IsSaved};

    /// Writes the devices, where they changed.
    fn keep(&mut self) -> Result<(), Trouble>
        ensures devices { self.new.devices ≡ self.old.devices }
        ensures failed { IfErr result (λ t. t ≡ Trouble.Failed) }
        ensures saved { OnOk result (IsSaved self.new) }
    {
        match self.secure.save(&mut self.disk, &self.devices) {
            Ok(()) => Ok(()),
            Err(_) => Err(Trouble::Failed),
        }
    }

    /// A change of a device.
    pub(crate) fn change_device(&mut self, a: &Action) -> Outcome
        requires sound { IsSound (length self.old.devices.slots) a.now }
        requires record { 1 ≤ self.old.devices.gk.spare }
        requires key { 1 ≤ self.old.devices.keys.spare }
        ensures done { IfOk result (λ answer. answer ≡ Answer.Done) }
        ensures failed { IfErr result (λ t. t ≡ Trouble.Failed) }
        ensures after { OnlyChanges a.now
            → world_of self.new.devices ≡ after (world_of self.old.devices) a.now 0 }
        ensures saved { OnOk result (IsSaved self.new) }
        ensures slots { length self.new.devices.slots ≡ length self.old.devices.slots }
        ensures records { self.old.devices.gk.spare ≤ self.new.devices.gk.spare + 1 }
        ensures keys { self.old.devices.keys.spare ≤ self.new.devices.keys.spare + 1 }
    {
        self.devices.change(a);
        self.keep()?;
        Ok(Answer::Done)
    }

    pub(crate) fn read_slot(&mut self, slot: u32, key: &[u8; 16], moment: u64) -> Outcome
        requires there { slot < length self.old.devices.slots }
        ensures answer { IfOk result (λ answer. answer ≡ read_answer
            (slot_answer (slot_at (world_of self.old.devices) slot) key.now moment)) }
        ensures failed { IfErr result (λ t. t ≡ Trouble.Failed) }
        ensures after { world_of self.new.devices
            ≡ after (world_of self.old.devices) (asks.WeaverRead slot key.now moment) 0 }
        ensures saved { OnOk result (IsSaved self.new) }
        ensures records { self.new.devices.gk ≡ self.old.devices.gk }
        ensures keys { self.new.devices.keys ≡ self.old.devices.keys }
    {
        let answer = self.devices.read_slot(slot, key, moment);
        self.keep()?;
        Ok(answer)
    }

    pub(crate) fn verify(&mut self, handle: &[u8; 49], password: &[u8], moment: u64) -> Outcome
        ensures answer { IfOk result (λ answer. answer ≡ verify_answer self.old.devices.gk.key
            self.old.devices.gk.records handle.now password.now moment) }
        ensures shape { IfOk result (λ answer. IsVerifyAnswer answer) }
        ensures failed { IfErr result (λ t. t ≡ Trouble.Failed) }
        ensures after { world_of self.new.devices ≡ after (world_of self.old.devices)
            (asks.GkVerify handle.now password.now moment) 0 }
        ensures saved { OnOk result (IsSaved self.new) }
        ensures spare { self.new.devices.gk.spare ≡ self.old.devices.gk.spare }
        ensures keys { self.new.devices.keys ≡ self.old.devices.keys }
    {
        let answer = self.devices.verify(handle, password, moment);
        self.keep()?;
        Ok(answer)
    }

    pub(crate) fn take(&mut self) -> Outcome
        ensures answer { IfOk result (λ answer. answer ≡ cell_answer self.old.devices.cell) }
        ensures failed { IfErr result (λ t. t ≡ Trouble.Failed) }
        ensures after { world_of self.new.devices
            ≡ after (world_of self.old.devices) asks.ResumeTake 0 }
        ensures saved { OnOk result (IsSaved self.new) }
        ensures records { self.new.devices.gk ≡ self.old.devices.gk }
        ensures keys { self.new.devices.keys ≡ self.old.devices.keys }
    {
        let answer = self.devices.take();
        self.keep()?;
        Ok(answer)
    }

    pub(crate) fn open(
        &self,
        alloc: Global,
        alias: u64,
        sealed: &[u8],
        out: &mut Vec<u8>,
    ) -> Outcome
        requires empty { out.old.items ≡ [] }
        ensures shape { IfOk result (λ answer. ((answer ≡ Answer.NoKey) × (out.new.items ≡ []))
            ⊎ (((answer ≡ Answer.BadTag) × (out.new.items ≡ [])) ⊎ (answer ≡ Answer.Bytes))) }
        ensures answer { IfOk result (λ answer.
            IsOpening self.now.devices.keys.keys alias sealed.now answer out.new.items) }
    {
        match self.devices.keys.open(alloc, alias, sealed) {
            Ok(text) => {
                out.extend_from_slice(text.as_slice())?;
                Ok(Answer::Bytes)
            }
            Err(KeyFault::NoKey) => Ok(Answer::NoKey),
            Err(KeyFault::Tag) => Ok(Answer::BadTag),
            Err(KeyFault::Memory) => Err(Trouble::Memory),
        }
    }
}

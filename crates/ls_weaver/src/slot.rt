//! One slot.
ghost use Rattle.std.specs.Prelude.{◌≡◌};
ghost use Rattle.ls_weaver.specs.Slots.{blank_slot, written, slot_after, slot_answer};

use crate::throttle::timeout;

/// A value under a key, with the failures since the key was last given.
#[derive(Clone, Copy, Debug, PartialEq, Eq)]
pub struct Slot {
    pub key: [u8; 16],
    pub value: [u8; 16],
    /// Failures in a row, at most `u32::MAX`.
    pub fails: u32,
    /// The moment, in milliseconds, until which the slot rests.
    pub until: u64,
}

/// What a reading of a slot answers.
#[derive(Clone, Copy, Debug, PartialEq, Eq)]
pub enum SlotRead {
    /// The key was right: the slot's value.
    Value([u8; 16]),
    /// The key was wrong: the milliseconds that the slot rests now.
    Wrong(u64),
    /// The slot rests: the milliseconds that are left.
    Throttled(u64),
}

impl Slot {
    /// A slot of zeros, without failures.
    pub fn blank() -> Slot
        ensures blank { result ≡ blank_slot }
    {
        Slot {
            key: [0; 16],
            value: [0; 16],
            fails: 0,
            until: 0,
        }
    }

    /// Writes the slot's key and value, and clears its failures.
    pub fn write(&mut self, key: &[u8; 16], value: &[u8; 16])
        ensures written { self.new ≡ written key.now value.now }
    {
        self.key = *key;
        self.value = *value;
        self.fails = 0;
        self.until = 0;
    }

    /// Gives the value for its key, unless the slot rests at this moment, in milliseconds.
    pub fn read(&mut self, key: &[u8; 16], moment: u64) -> SlotRead
        ensures answer { result ≡ slot_answer self.old key.now moment }
        ensures after { self.new ≡ slot_after self.old key.now moment }
    {
        if moment < self.until {
            return SlotRead::Throttled(self.until - moment);
        }
        if self.key == *key {
            self.fails = 0;
            self.until = 0;
            return SlotRead::Value(self.value);
        }
        self.fails = self.fails.saturating_add(1);
        let rest = timeout(self.fails);
        self.until = moment.saturating_add(rest);
        SlotRead::Wrong(rest)
    }
}

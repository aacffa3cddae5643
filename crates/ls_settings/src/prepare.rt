//! Preparing a commit.
ghost use Rattle.std.specs.Prelude.{◌≡◌, ◌<◌, ◌+◌, ◌^◌, ◌↔◌, length, IfOk, MatchOption, Err, nat_le};
ghost use Rattle.ls_naming.specs.Current.{last_sequence};
ghost use Rattle.ls_settings.specs.Loaded.{target_of};
ghost use Rattle.ls_settings.specs.Commits.{IsEntry, HasEntry, IsCommit};

use crate::actions::{entry_plan, whole_plan};
use crate::fault::PrepareFault;
use crate::place::Place;
use crate::plan::CommitPlan;
use crate::settings::Settings;
use ls_bytes::{Bytes, Memory};
use ls_formats::Side;
use ls_record::Record;
use std::alloc::Global;

/// An entry that can be made: its file, its place, and the change.
#[derive(Drop)]
pub(crate) struct Entry {
    side: Side,
    at: u32,
    change: Bytes,
}

/// The settings file to which a record is written in whole.
pub(crate) fn target_of(side: Option<Side>) -> Side
    ensures side { result ≡ target_of side }
{
    match side {
        None | Some(Side::Second) => Side::First,
        Some(Side::First) => Side::Second,
    }
}

/// Whether an entry with a change of this length fits behind a journal that ends here.
fn fits(at: u32, length: usize) -> bool
    ensures fits { result ≡ nat_le (at + 6 + length) 4096 }
{
    length <= 4090 && at as usize <= 4090 - length
}

impl Settings {
    /// The commit of a record. Nothing is done. `Worn` comes exactly at the last sequence number.
    pub fn prepare(&self, alloc: Global, next: Record) -> Result<CommitPlan, PrepareFault>
        ensures prepared { IfOk result (λ plan. IsCommit self.now plan.to plan.actions) }
        ensures next { IfOk result (λ plan. plan.to.settled.rec ≡ next) }
        ensures worn { (result ≡ Err PrepareFault.Worn)
            ↔ (self.now.settled.sequence ≡ last_sequence) }
    {
        if self.place.sequence == u64::MAX {
            return Err(PrepareFault::Worn);
        }
        match self.entry_to(alloc, &next)? {
            Some(entry) => Ok(self.by_entry(alloc, next, entry)?),
            None => Ok(self.in_whole(alloc, next)?),
        }
    }

    /// The entry that leads to the next record, exactly where one can be made.
    fn entry_to(&self, alloc: Global, next: &Record) -> Result<Option<Entry>, Memory>
        ensures found { IfOk result (λ o. MatchOption o (¬ (HasEntry self.now.settled next.now))
            (λ e. IsEntry self.now.settled next.now e.side e.at e.change)) }
    {
        let (Some(side), Some(at)) = (self.place.side, self.place.end) else {
            return Ok(None);
        };
        if self.place.format != 2 {
            return Ok(None);
        }
        let Some(edit) = self.record.edit_to(alloc, next)? else {
            return Ok(None);
        };
        let change = edit.print(alloc)?;
        if fits(at, change.as_slice().len()) {
            Ok(Some(Entry { side, at, change }))
        } else {
            Ok(None)
        }
    }

    /// The commit by an entry.
    fn by_entry(&self, alloc: Global, next: Record, entry: Entry) -> Result<CommitPlan, Memory>
        requires entry { IsEntry self.now.settled next entry.side entry.at entry.change }
        requires small { self.now.settled.sequence + 1 < 2 ^ 64 }
        ensures prepared { IfOk result (λ plan. IsCommit self.now plan.to plan.actions) }
        ensures next { IfOk result (λ plan. plan.to.settled.rec ≡ next) }
    {
        let change = entry.change.as_slice();
        let plan = entry_plan(alloc, entry.side, entry.at, change)?;
        let Ok(named) = self.record.edited(alloc, change, 2) else {
            return Err(Memory);
        };
        let place = Place {
            sequence: self.place.sequence + 1,
            end: Some(entry.at + 5 + change.len() as u32),
            ..self.place
        };
        Ok(CommitPlan {
            record: next,
            named,
            place,
            plan,
        })
    }

    /// The commit in whole.
    fn in_whole(&self, alloc: Global, next: Record) -> Result<CommitPlan, Memory>
        requires none { ¬ (HasEntry self.now.settled next) }
        requires small { self.now.settled.sequence + 1 < 2 ^ 64 }
        ensures prepared { IfOk result (λ plan. IsCommit self.now plan.to plan.actions) }
        ensures next { IfOk result (λ plan. plan.to.settled.rec ≡ next) }
    {
        let text = next.print(alloc)?;
        let body = text.as_slice();
        let side = target_of(self.place.side);
        let sequence = self.place.sequence + 1;
        let plan = whole_plan(alloc, side, self.place.target_open, sequence, body)?;
        let named = next.copy(alloc)?;
        let place = Place {
            sequence,
            side: Some(side),
            end: Some(13 + body.len() as u32),
            format: 2,
            target_open: self.place.side.is_some(),
        };
        Ok(CommitPlan {
            record: next,
            named,
            place,
            plan,
        })
    }
}

//! What a command does to change the vault, by protectors.
ghost use Rattle.std.specs.Prelude.{◌≡◌, [], IfOk, vec_capacity};
ghost use Rattle.ls_exchange.specs.Exchanges.{Exchanged};

use crate::lists::discard_all;
use ls_board::Plan;
use ls_bytes::Memory;
use ls_protector::{Draft, Durable, Named, Staged};
use ls_settings::CommitPlan;
use std::alloc::Global;
use std::marker::Model;

/// A change of the vault that was planned: protectors that it names and lets go. Nothing was done.
/// It has to be spent.
pub struct Exchange {
    /// The new protectors.
    pub(crate) drafts: Vec<Draft>,
    /// What else is built before the commit.
    pub(crate) others: Plan,
    /// The commit of the next record.
    pub(crate) commit: CommitPlan,
    /// The protectors that the next record no longer names.
    pub(crate) retire: Vec<Named>,
    /// What else is taken away behind it.
    pub(crate) after: Plan,
    /// Places for the new protectors, so that it takes no memory to carry it out.
    pub(crate) staged: Vec<Staged>,
    pub(crate) durable: Vec<Durable>,
}

impl Model for Exchange {
    ghost use Rattle.std.specs.Prelude.{◌≡◌, ◌≤◌, [], length, vec_capacity};
    ghost use Rattle.ls_exchange.specs.Exchanges.{Exchanged};

    ghost Value = { Exchanged };

    ghost view = { λ x. record {
      drafts = x.drafts.items;
      others = x.others;
      commit = x.commit;
      retire = x.retire.items;
      after = x.after;
    } };

    ghost invariant = { λ x. (x.staged.items ≡ []) × (x.durable.items ≡ [])
        × (length x.drafts.items ≤ vec_capacity x.staged)
        × (length x.drafts.items ≤ vec_capacity x.durable) };
}

/// Places for so many new protectors.
fn places(alloc: Global, count: usize) -> Result<(Vec<Staged>, Vec<Durable>), Memory>
    ensures empty { IfOk result (λ two. (two.0.items ≡ []) × (two.1.items ≡ [])) }
    ensures room { IfOk result (λ two.
        (vec_capacity two.0 ≡ count) × (vec_capacity two.1 ≡ count)) }
{
    let durable = Vec::with_capacity(alloc, count)?;
    let staged = Vec::with_capacity(alloc, count)?;
    Ok((staged, durable))
}

impl Exchange {
    /// A change of these parts. Without memory for it the new protectors are let go, with nothing
    /// done.
    pub fn of(
        alloc: Global,
        drafts: Vec<Draft>,
        others: Plan,
        commit: CommitPlan,
        retire: Vec<Named>,
        after: Plan,
    ) -> Result<Exchange, Memory>
        ensures same { IfOk result (λ work. work ≡ record {
          drafts = drafts.items;
          others = others;
          commit = commit;
          retire = retire.items;
          after = after;
        }) }
    {
        match places(alloc, drafts.len()) {
            Ok((staged, durable)) => Ok(Exchange {
                drafts,
                others,
                commit,
                retire,
                after,
                staged,
                durable,
            }),
            Err(memory) => {
                discard_all(drafts);
                Err(memory)
            }
        }
    }

    /// Lets it go, with nothing done.
    pub fn discard(self) {
        let Exchange {
            drafts,
            others: _,
            commit: _,
            retire: _,
            after: _,
            staged,
            durable: _,
        } = self;
        discard_all(drafts);
        staged.destroy_empty();
    }
}

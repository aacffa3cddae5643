//! What is planned of an activation.

use ls_bytes::IdList;
use ls_protector::Draft;
use ls_settings::CommitPlan;

/// The activation of tokens, planned. Nothing is done. It has to be spent.
pub(crate) struct Planned {
    /// The ids of the tokens, in order.
    pub(crate) ids: IdList,
    /// The protector of each.
    pub(crate) drafts: Vec<Draft>,
    pub(crate) commit: CommitPlan,
}

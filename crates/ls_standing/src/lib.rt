//! When a world stands for a vault, and which actions keep that.
#![tactic(auto)]

mod bare;
mod blank;
mod changes;
mod checks;
mod ids;
mod kept;
mod loading;
mod one;
mod quiet;
mod several;
mod slots;
mod sound;
mod storage;

pub use bare::{
    a_change_leaves_a_world_bare, a_sweep_leaves_a_world_bare, a_sweep_takes_what_is_left_over,
    what_is_let_go_is_retired, what_is_listed_is_left_over, what_keeps_a_world_bare,
};
pub use blank::a_blank_world_stands_for_the_empty_vault;
pub use changes::{
    a_commit_leaves_one_vault_or_the_other, asking_a_device_counts_for_its_user,
    taking_the_resume_key_ends_the_arming,
};
pub use checks::sound_files_pass_the_checks;
pub use ids::other_ids_are_unnamed;
pub use kept::{durable_worlds_are_left, what_is_named_is_kept, what_keeps_what_is_named};
pub use loading::{an_opening_keeps_the_vault, loading_keeps_the_vault};
pub use one::a_world_stands_for_one_vault;
pub use quiet::{
    quiet_actions_keep_the_vault, quiet_plans_keep_the_vault, what_touches_nothing_named_is_quiet,
};
pub use several::{protectors_are_written_one_after_the_other, what_is_synced_is_untouched};
pub use slots::{
    named_slots_are_those_of_protectors, other_protectors_are_unnamed,
    protectors_have_their_own_ids, standing_protectors_share_no_slot,
};
pub use sound::{own_files_pass_the_checks, what_seals_passes_the_checks};
pub use storage::a_vault_stands_in_storage;

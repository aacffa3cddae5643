//! What a world holds once a record is edited: a row put or dropped, an arming set or cleared.
#![tactic(auto)]

mod arming;
mod counts;
mod keeping;
mod new_users;
mod resume;
mod rows;
mod sound_rows;

pub use arming::{armed_users_have_a_resume_file, nobody_is_armed, users_are_armed};
pub use counts::counts_are_small;
pub use keeping::{a_row_keeps_its_rules, a_user_keeps_what_it_has};
pub use new_users::{
    a_user_comes_and_goes, a_user_without_escrow_is_added, a_user_without_escrow_is_readied,
};
pub use resume::{a_resume_file_opens, users_are_readied_to_be_armed};
pub use rows::{
    a_put_row_is_among_the_rows, a_row_is_dropped, a_row_is_put_new, a_row_is_replaced,
};
pub use sound_rows::{
    a_row_of_sound_protectors_is_sound, a_row_with_a_new_credential_is_sound,
    a_row_with_new_tokens_is_sound, a_row_without_new_parts_is_sound,
    what_is_checked_alike_stays_sound,
};

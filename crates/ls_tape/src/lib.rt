//! What a run takes of the moments and of the noise that it is given.
#![tactic(auto)]

mod moments;
mod noise;

pub use moments::{later_moments, moments_taken, next_moment};
pub use noise::{drawn, later_noise};

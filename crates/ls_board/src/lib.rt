//! The outside of the program as one trait: files, devices, input and output, in one order of
//! calls, with what a call does to them and what a failed one leaves.
#![tactic(auto)]

mod action;
mod board;
mod devices;
mod files;
mod ids;
mod laws;
mod plan;
mod rows;
mod touch;
mod world;

pub use action::{Action, Answer, BoardFault, Part};
pub use board::Board;
pub use devices::{Counter, GkRow, GkTable, KeyRow, KeyTable};
pub use files::{FileRow, FileTable};
pub use ids::IdTable;
pub use laws::{
    a_crash_leaves_an_image, an_answer_is_an_opening, lists_are_read_in_one_way,
    there_are_always_as_many_slots, untouched_worlds_are_left, what_is_in_a_table_is_found,
};
pub use plan::{Plan, PlanFault, run_plan};
pub use touch::{Span, SpanList, Touch, TouchRow, TouchTable};
pub use world::{MomentList, SlotTable, World};

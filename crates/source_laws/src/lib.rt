//! Laws of sources: each shape of a program is a hull, the tree that the program means contains only points within reach, and
//! the evaluations of a run are bounded by the program's tokens and by the turns and leaves that the run counts. The laws do
//! nothing when they run.
#![tactic(auto)]

mod evaluations;
mod solids;

pub use evaluations::{
    a_loop_of_three_takes_four_evaluations, calls_in_one_another_take_more,
    expressions_take_few_evaluations, programs_take_few_evaluations, runs_take_few_evaluations,
};
pub use solids::{
    designs_are_of_hulls, placed_hulls_keep_within_reach, programs_keep_within_reach,
};

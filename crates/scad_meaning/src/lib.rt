//! What a program means: the definitions, with laws and worked examples.
//!
//! Read `Sources.IsMeaning` first: it defines the tree that a program means, or its first fault. It rests on
//! `Meaning.design_of`, which rests on `Meaning.core_design` of each instance.
#![tactic(auto)]

mod extrusion;
mod laws;

pub use extrusion::Extrusion;
pub use laws::{
    faults_stand_in_their_program, hulls_in_programs_hold_inner_combinations,
    last_assignments_count, one_meaning, programs_mean_proper_trees, shapes_have_one_verdict,
    some_meaning,
};

//! The rules for one instance: whether it is evaluated, which children and which turns of a loop it has, and its own shape, step
//! or join. The recursion over instances is that of `scad_eval`.
#![tactic(auto)]

mod arguments;
mod bodies;
mod children;
mod chosen;
mod hulls;
mod items;
mod joins;
mod modifiers;
mod numbered;
mod position;
mod ranges;
mod shapes;
mod table;

pub use arguments::{arguments_for, effect_of, unknown_module, without_geometry};
pub use children::{chosen_instances, count_children, is_child};
pub use hulls::{design_hull, is_nothing};
pub use items::Items;
pub use joins::{as_root, join_members, no_members, nothing_made, with_made, with_members};
pub use modifiers::has_root_modifier;
pub use numbered::NumberedInstance;
pub use position::{InstanceResult, MemberResults, NumberedBody, Position};
pub use shapes::{flat_shape, solid_shape};
pub use table::InstanceTable;

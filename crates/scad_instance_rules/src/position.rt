//! Where an instance stands, and what it gives.

ghost use Rattle.std.specs.Prelude.{◌≡◌, true};

use crate::table::InstanceTable;
use scad_ast::Body;
use scad_design::Design;
use scad_meaning::Extrusion;

/// Where an instance stands, beside its scope: the instances of the source, the extrusion that it is inside of, and whether
/// it is inside an instance that is marked `!`.
#[derive(Clone, Copy)]
pub struct Position<'t, 'a> {
    pub instances: &'t InstanceTable<'a>,
    pub inside: Option<Extrusion>,
    pub under_root: bool,
}

/// A body and the number of its block.
#[derive(Clone, Copy)]
pub struct NumberedBody<'a> {
    pub body: &'a Body,
    pub block: u32,
}

/// What an instance gives: its design, and the first of the designs in it that is marked `!`.
#[derive(Drop)]
pub struct InstanceResult {
    pub design: Design,
    pub root: Option<Design>,
}

/// What the instances of a body give, from the first on.
#[derive(Drop)]
pub struct MemberResults {
    pub designs: Vec<Design>,
    pub root: Option<Design>,
}

impl<'t, 'a> Position<'t, 'a> {
    /// Inside an instance that is marked `!`.
    pub fn inside_root(self) -> Position<'t, 'a>
        ensures { result ≡ record {
          instances = self.entry.instances;
          inside = self.entry.inside;
          under_root = true;
        } }
    {
        Position {
            instances: self.instances,
            inside: self.inside,
            under_root: true,
        }
    }

    /// Inside an extrusion.
    pub fn inside_extrusion(self, through: Extrusion) -> Position<'t, 'a>
        ensures { result ≡ record {
          instances = self.entry.instances;
          inside = Some through;
          under_root = self.entry.under_root;
        } }
    {
        Position {
            instances: self.instances,
            inside: Some(through),
            under_root: self.under_root,
        }
    }
}

//! The built-in modules with their parameters.

ghost use Rattle.std.specs.Prelude.{◌≡◌, map};
ghost use Rattle.scad_modules.specs.Table.{parameters_of};

/// A built-in module.
#[derive(Clone, Copy, PartialEq, Eq)]
pub enum BuiltinModule {
    Cube,
    Polyhedron,
    Cylinder,
    Square,
    Polygon,
    Circle,
    LinearExtrude,
    Translate,
    Rotate,
    Mirror,
    Scale,
    Multmatrix,
    Union,
    Difference,
    Intersection,
    Hull,
    Color,
    Render,
    Echo,
    Assert,
    Children,
}

impl BuiltinModule {
    /// The names of its parameters in order. Those of `echo` may be any, and it has none of its
    /// own.
    pub fn parameters(self) -> &'static [&'static [u8]]
        ensures { map (λ parameter. parameter.now) result.now ≡ parameters_of self }
    {
        match self {
            BuiltinModule::Cube | BuiltinModule::Square => &[b"size", b"center"],
            BuiltinModule::Polyhedron => &[b"points", b"faces", b"convexity"],
            BuiltinModule::Cylinder => {
                &[b"h", b"r1", b"r2", b"center", b"r", b"d", b"d1", b"d2"]
            }
            BuiltinModule::Polygon => &[b"points", b"paths", b"convexity"],
            BuiltinModule::Circle => &[b"r", b"d"],
            BuiltinModule::LinearExtrude => {
                &[
                    b"height",
                    b"center",
                    b"convexity",
                    b"twist",
                    b"scale",
                    b"slices",
                ]
            }
            BuiltinModule::Translate | BuiltinModule::Mirror | BuiltinModule::Scale => &[b"v"],
            BuiltinModule::Rotate => &[b"a", b"v"],
            BuiltinModule::Multmatrix => &[b"m"],
            BuiltinModule::Color => &[b"c", b"alpha"],
            BuiltinModule::Render => &[b"convexity"],
            BuiltinModule::Assert => &[b"condition", b"message"],
            BuiltinModule::Children => &[b"index"],
            BuiltinModule::Union
            | BuiltinModule::Difference
            | BuiltinModule::Intersection
            | BuiltinModule::Hull
            | BuiltinModule::Echo => &[],
        }
    }
}

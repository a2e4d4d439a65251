//! The names of built-in modules, and of those of OpenSCAD that the profile leaves out.

ghost use Rattle.std.specs.Prelude.{◌≡◌};
ghost use Rattle.scad_modules.specs.Table.{builtin_module_of, is_left_out_module};

use crate::table::BuiltinModule;
use scad_builtin::{is_among, named_in};

// The names of the built-in modules.
const MODULES: [(&[u8], BuiltinModule); 21] = [
    (b"cube", BuiltinModule::Cube),
    (b"polyhedron", BuiltinModule::Polyhedron),
    (b"cylinder", BuiltinModule::Cylinder),
    (b"square", BuiltinModule::Square),
    (b"polygon", BuiltinModule::Polygon),
    (b"circle", BuiltinModule::Circle),
    (b"linear_extrude", BuiltinModule::LinearExtrude),
    (b"translate", BuiltinModule::Translate),
    (b"rotate", BuiltinModule::Rotate),
    (b"mirror", BuiltinModule::Mirror),
    (b"scale", BuiltinModule::Scale),
    (b"multmatrix", BuiltinModule::Multmatrix),
    (b"union", BuiltinModule::Union),
    (b"difference", BuiltinModule::Difference),
    (b"intersection", BuiltinModule::Intersection),
    (b"hull", BuiltinModule::Hull),
    (b"color", BuiltinModule::Color),
    (b"render", BuiltinModule::Render),
    (b"echo", BuiltinModule::Echo),
    (b"assert", BuiltinModule::Assert),
    (b"children", BuiltinModule::Children),
];

/// The built-in module of a name.
pub fn builtin_module(name: &[u8]) -> Option<BuiltinModule>
    ensures { result ≡ builtin_module_of name.now }
{
    named_in(&MODULES, name)
}

// The modules of OpenSCAD that the profile leaves out.
const LEFT_OUT: [&[u8]; 9] = [
    b"sphere",
    b"minkowski",
    b"offset",
    b"resize",
    b"projection",
    b"text",
    b"surface",
    b"import",
    b"rotate_extrude",
];

/// Whether a name is a module of OpenSCAD that the profile leaves out.
pub fn is_left_out_module(name: &[u8]) -> bool
    ensures { result ≡ is_left_out_module name.now }
{
    is_among(&LEFT_OUT, name)
}

//! The names of built-in functions, and of those of OpenSCAD that the profile leaves out.

ghost use Rattle.std.specs.Prelude.{◌≡◌, map};
ghost use Rattle.std.specs.Str.{bytes_eq};
ghost use Rattle.scad_builtin.specs.Builtins.{builtin_of, named_in, is_among, is_left_out_function};

use crate::function::Builtin;

// Whether two names are the same.
fn same(known: &[u8], name: &[u8]) -> bool
    ensures { result ≡ bytes_eq known.now name.now }
{
    known == name
}

// The names of the built-in functions.
const BUILTINS: [(&[u8], Builtin); 14] = [
    (b"abs", Builtin::Abs),
    (b"sign", Builtin::Sign),
    (b"floor", Builtin::Floor),
    (b"ceil", Builtin::Ceil),
    (b"round", Builtin::Round),
    (b"min", Builtin::Min),
    (b"max", Builtin::Max),
    (b"len", Builtin::Len),
    (b"concat", Builtin::Concat),
    (b"pow", Builtin::Pow),
    (b"is_undef", Builtin::IsUndef),
    (b"is_num", Builtin::IsNum),
    (b"is_bool", Builtin::IsBool),
    (b"is_list", Builtin::IsList),
];

/// The built-in function of a name.
pub fn builtin(name: &[u8]) -> Option<Builtin>
    ensures { result ≡ builtin_of name.now }
{
    named_in(&BUILTINS, name)
}

/// What a name stands for in a table.
pub fn named_in<T: Copy>(names: &[(&[u8], T)], name: &[u8]) -> Option<T>
    ensures { result ≡ named_in (map (λ known. (known.0.now, known.1)) names.now) name.now }
{
    for known in names {
        if same(known.0, name) {
            return Some(known.1);
        }
    }
    None
}

// The functions of OpenSCAD that the profile leaves out.
const LEFT_OUT: [&[u8]; 24] = [
    b"str",
    b"chr",
    b"ord",
    b"sin",
    b"cos",
    b"tan",
    b"asin",
    b"acos",
    b"atan",
    b"atan2",
    b"sqrt",
    b"exp",
    b"ln",
    b"log",
    b"rands",
    b"norm",
    b"cross",
    b"search",
    b"lookup",
    b"is_string",
    b"is_function",
    b"version",
    b"version_num",
    b"parent_module",
];

/// Whether a name is a function of OpenSCAD that the profile leaves out.
pub fn is_left_out_function(name: &[u8]) -> bool
    ensures { result ≡ is_left_out_function name.now }
{
    is_among(&LEFT_OUT, name)
}

/// Whether a name is one of these.
pub fn is_among(names: &[&[u8]], name: &[u8]) -> bool
    ensures { result ≡ is_among (map (λ known. known.now) names.now) name.now }
{
    for known in names {
        if same(known, name) {
            return true;
        }
    }
    false
}

// Names as parts of the text, and the names of the built-in types.
ghost use Rattle.std.specs.Prelude.{◌≡◌, ◌<◌, ◌↔◌, [], IsTrue, slice_index_or};
ghost use Rattle.tables.specs.Lawful.{builtin_type};
ghost use Rattle.tables.specs.Names.{Inside, builtin_names};

use records::env::{Type, TypeKind};
use records::ids::Sym;
use records::source::Name;

/// How many types are built in.
pub const BUILTINS: usize = 13;

/// The name of built-in type `i`, which is symbol `i`; no bytes past the last.
pub fn builtin_name(i: usize) -> &'static [u8]
    ensures { result.now ≡ slice_index_or builtin_names i [] }
{
    match i {
        0 => b"bool",
        1 => b"u8",
        2 => b"u16",
        3 => b"u32",
        4 => b"u64",
        5 => b"u128",
        6 => b"usize",
        7 => b"i8",
        8 => b"i16",
        9 => b"i32",
        10 => b"i64",
        11 => b"i128",
        12 => b"isize",
        _ => b"",
    }
}

/// Built-in type `i`: symbol `i` names it, the first is bool, the others are integers.
pub(crate) fn builtin_type(i: usize) -> Type
    requires { i < 13 }
    ensures { result ≡ builtin_type i }
{
    let kind = if i == 0 {
        TypeKind::Bool
    } else {
        TypeKind::Int
    };
    Type {
        name: Sym(i as u16),
        kind,
    }
}

/// Whether the name has 1 to 255 bytes, and they lie in the text.
pub(crate) fn is_inside(text: &[u8], name: Name) -> bool
    ensures { IsTrue result ↔ Inside text.now name }
{
    let len = name.len as usize;
    0 < len && len <= 255 && name.start as usize + len <= text.len()
}

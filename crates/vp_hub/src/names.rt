//! Validates the names of streams.

ghost use Rattle.std.specs.Prelude.{◌≡◌};
ghost use Rattle.std.specs.List.{list_all, list_any};
ghost use Rattle.std.specs.Str.{bytes_eq};
ghost use Rattle.vp_hub.specs.Names.{is_name_byte, is_name, are_distinct};
ghost use Rattle.vp_hub.specs.Names.{are_names as may_be_names};

use vp_base::ByteList;

/// The reasons for which a hub can't be created.
#[derive(Clone, Copy, Debug, PartialEq, Eq, Drop)]
pub enum NewFault {
    /// The names are not 1 to 16 distinct names of 1 to 32 characters of `a` to `z`, `0` to `9`, `-` and `_`.
    Names,
    /// Out of memory.
    Memory,
}

fn has_name_bytes(name: &[u8]) -> bool
    ensures { result ≡ list_all is_name_byte name.now }
{
    name.iter().all(|b| (*b >= b'a' && *b <= b'z')
        || (*b >= b'0' && *b <= b'9')
        || *b == b'-'
        || *b == b'_')
}

fn is_one(name: &[u8]) -> bool
    ensures { result ≡ is_name name.now }
{
    name.len() >= 1 && name.len() <= 32 && has_name_bytes(name)
}

fn has(names: &[ByteList], name: &[u8]) -> bool
    ensures { result ≡ list_any (λ x. bytes_eq x name.now) names.now }
{
    names.iter().any(|x| x.as_slice() == name)
}

fn differ(names: &[ByteList]) -> bool
    ensures { result ≡ are_distinct names.now }
{
    let mut rest = names;
    while let Some((name, more)) = rest.split_first() {
        if has(more, name.as_slice()) {
            return false;
        }
        rest = more;
    }
    true
}

fn all_are(names: &[ByteList]) -> bool
    ensures { result ≡ list_all is_name names.now }
{
    names.iter().all(|x| is_one(x.as_slice()))
}

/// Returns whether these are valid names for streams.
pub(crate) fn are_names(names: &[ByteList]) -> bool
    ensures { result ≡ may_be_names names.now }
{
    names.len() >= 1 && names.len() <= 16 && all_are(names) && differ(names)
}

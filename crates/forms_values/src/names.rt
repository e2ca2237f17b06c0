//! Reserved names in JSON, and equality of names.

ghost use Rattle.std.specs.Prelude.{bytes_eq, ◌≡◌};
ghost use Rattle.forms_values.specs.Names.{is_reserved};

/// True if no row, field or choice may have this name.
#[inline(never)]
pub fn is_reserved(name: &str) -> bool
    ensures { result ≡ is_reserved name.now }
{
    is_same(name, "raw")
        || is_same(name, "Other")
        || is_same(name, "word")
        || is_same(name, "pad")
        || is_same(name, "Kind")
        || is_same(name, "bare")
}

#[inline(always)]
pub fn is_same(a: &str, b: &str) -> bool
    ensures { result ≡ bytes_eq a.now b.now }
{
    a == b
}

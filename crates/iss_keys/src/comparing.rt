//! Equality of long strings. Most compared strings are equal, so the comparison never stops early. Then one instruction
//! compares many bytes, whereas `==` takes one for each byte.

ghost use Rattle.std.specs.Prelude.{◌≡◌, ◌↔◌, IsTrue};

/// Whether two strings are equal.
pub fn same_bytes(a: &[u8], b: &[u8]) -> bool
    ensures { IsTrue result ↔ (a.now ≡ b.now) }
{
    if a.len() != b.len() {
        return false;
    }
    let mut same = true;
    for i in 0..a.len() {
        let equal = a[i] == b[i];
        same = same & equal;
    }
    same
}

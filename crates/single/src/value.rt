ghost use Rattle.std.specs.Prelude.{◌≡◌};
ghost use Rattle.model.specs.Values.{same};

// Whether two values are the same bytes.
pub fn same_bytes(a: &[u8], b: &[u8]) -> bool
    ensures { result ≡ same a.now b.now }
{
    if a.len() != b.len() {
        return false;
    }
    // By index, which is the project's form for comparing values: it is the place of the byte in both.
    for i in 0..a.len() {
        if a[i] != b[i] {
            return false;
        }
    }
    true
}

// Bytes at the end of a vector.
ghost use Rattle.std.specs.Prelude.{◌≡◌, ◌+◌, ◌≤◌, ◌++◌, length, vec_len, vec_capacity};

/// Appends bytes to a vector that has room for them.
pub fn append(bytes: &[u8], out: &mut Vec<u8>)
    requires { vec_len out.old + length bytes.now ≤ vec_capacity out.old }
    ensures items { out.new.items ≡ out.old.items ++ bytes.now }
    ensures len { vec_len out.new ≡ vec_len out.old + length bytes.now }
    ensures capacity { vec_capacity out.old ≤ vec_capacity out.new }
{
    // There is room, so that this does not fail.
    let _ = out.extend_from_slice(bytes);
}

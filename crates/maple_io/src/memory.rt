// What sources, sinks and boards over memory share.
ghost use Rattle.std.specs.Prelude.{◌≡◌, ◌≤◌, ◌↔◌, ◌++◌, ◌+◌, ◌-◌, IsTrue, length, min, take, drop};
ghost use Rattle.std.specs.List.{Contains};

/// Whether the numbers have this one.
pub fn is_listed(numbers: &[u64], number: u64) -> bool
    ensures { IsTrue result ↔ Contains numbers.now number }
{
    numbers.contains(&number)
}

/// Copies what fits of the bytes from `at` on, and returns how many it copied.
pub fn copy_from(content: &[u8], at: usize, into: &mut [u8]) -> usize
    requires { at ≤ length content.now }
    ensures count { result ≡ min (length content.now - at) (length into.old) }
    ensures bytes { drop at content.now ≡ take result into.new ++ drop (at + result) content.now }
    ensures front { take result into.new ≡ take result (drop at content.now) }
{
    let rest = &content[at..];
    let count = rest.len().min(into.len());
    into[..count].copy_from_slice(&rest[..count]);
    count
}

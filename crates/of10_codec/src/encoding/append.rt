// Appending numbers to a vector that has the room.
ghost use Rattle.std.specs.Prelude.{◌≡◌, ◌+◌, ◌≤◌, ◌++◌, true, vec_len, vec_capacity};
ghost use Rattle.maple_base.specs.NetworkOrder.{number};
ghost use Rattle.of10_codec.specs.Laws.{has_bits};

use maple_base::append;

pub(super) fn append_u8(n: u8, out: &mut Vec<u8>)
    requires { vec_len out.old + 1 ≤ vec_capacity out.old }
    ensures items { out.new.items ≡ out.old.items ++ number 1 n }
    ensures len { vec_len out.new ≡ vec_len out.old + 1 }
    ensures capacity { vec_capacity out.old ≤ vec_capacity out.new }
    ensures bits { has_bits 8 n ≡ true }
{
    append(&n.to_be_bytes(), out);
}

pub(super) fn append_u16(n: u16, out: &mut Vec<u8>)
    requires { vec_len out.old + 2 ≤ vec_capacity out.old }
    ensures items { out.new.items ≡ out.old.items ++ number 2 n }
    ensures len { vec_len out.new ≡ vec_len out.old + 2 }
    ensures capacity { vec_capacity out.old ≤ vec_capacity out.new }
    ensures bits { has_bits 16 n ≡ true }
{
    append(&n.to_be_bytes(), out);
}

pub(super) fn append_u32(n: u32, out: &mut Vec<u8>)
    requires { vec_len out.old + 4 ≤ vec_capacity out.old }
    ensures items { out.new.items ≡ out.old.items ++ number 4 n }
    ensures len { vec_len out.new ≡ vec_len out.old + 4 }
    ensures capacity { vec_capacity out.old ≤ vec_capacity out.new }
    ensures bits { has_bits 32 n ≡ true }
{
    append(&n.to_be_bytes(), out);
}

pub(super) fn append_u64(n: u64, out: &mut Vec<u8>)
    requires { vec_len out.old + 8 ≤ vec_capacity out.old }
    ensures items { out.new.items ≡ out.old.items ++ number 8 n }
    ensures len { vec_len out.new ≡ vec_len out.old + 8 }
    ensures capacity { vec_capacity out.old ≤ vec_capacity out.new }
    ensures bits { has_bits 64 n ≡ true }
{
    append(&n.to_be_bytes(), out);
}

// Numbers in network order from the front of some bytes, each with what stands behind it.
ghost use Rattle.std.specs.Prelude.{◌<◌, ◌^◌, length};
ghost use Rattle.std.specs.Option.{MatchOption};
ghost use Rattle.packet_key.specs.Readings.{IsRead};

pub(crate) fn read_u8(bytes: &[u8]) -> Option<(u8, &[u8])>
    ensures { MatchOption result (length bytes.now < 1) (λ r. IsRead 1 bytes.now r.0 r.1.now) }
{
    match bytes {
        [a, rest @ ..] => Some((*a, rest)),
        _ => None,
    }
}

pub(crate) fn read_u16(bytes: &[u8]) -> Option<(u16, &[u8])>
    ensures { MatchOption result (length bytes.now < 2) (λ r. IsRead 2 bytes.now r.0 r.1.now) }
{
    match bytes {
        [a, b, rest @ ..] => Some((u16::from_be_bytes([*a, *b]), rest)),
        _ => None,
    }
}

pub(crate) fn read_u32(bytes: &[u8]) -> Option<(u32, &[u8])>
    ensures { MatchOption result (length bytes.now < 4) (λ r. IsRead 4 bytes.now r.0 r.1.now) }
{
    match bytes {
        [a, b, c, d, rest @ ..] => Some((u32::from_be_bytes([*a, *b, *c, *d]), rest)),
        _ => None,
    }
}

// A number of six bytes, as an Ethernet address is.
pub(crate) fn read_u48(bytes: &[u8]) -> Option<(u64, &[u8])>
    ensures value { MatchOption result (length bytes.now < 6) (λ r. IsRead 6 bytes.now r.0 r.1.now) }
    ensures fits { MatchOption result (length bytes.now < 6) (λ r. r.0 < 2 ^ 48) }
{
    match bytes {
        [a, b, c, d, e, f, rest @ ..] => {
            let number = u64::from_be_bytes([0, 0, *a, *b, *c, *d, *e, *f]);
            Some((number, rest))
        }
        _ => None,
    }
}

// Places and their indexes.
ghost use Rattle.std.specs.Prelude.{◌≡◌, ◌+◌, ◌≤◌};

/// The index of a place.
pub(crate) fn index_of(place: u32) -> usize
    requires { 1 ≤ place }
    ensures { place ≡ result + 1 }
{
    place as usize - 1
}

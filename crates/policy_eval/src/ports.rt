// The ports of an `out`.
ghost use Rattle.std.specs.Prelude.{◌≡◌, ◌≤◌, length, vec_len, IfOk};
ghost use Rattle.policy_meaning.specs.Values.{ports_among, sent_out};

use maple_base::{Actions, Decision, NoMemory, is_port};
use std::alloc::Global;

/// What an `out` of these numbers decides.
pub fn sent_out(alloc: Global, numbers: &[u64]) -> Result<Decision, NoMemory>
    requires { length numbers.now ≤ 16 }
    ensures { IfOk result (λ decision. decision ≡ sent_out (ports_among numbers.now)) }
{
    match ports_among(alloc, numbers)?.as_slice() {
        [] => Ok(Decision::Drop),
        ports => Ok(Decision::Out(Actions::new(ports))),
    }
}

// The ports among these numbers, without repeats.
fn ports_among(alloc: Global, numbers: &[u64]) -> Result<Vec<u16>, NoMemory>
    ensures ports { IfOk result (λ ports. ports.items ≡ ports_among numbers.now) }
    ensures few { IfOk result (λ ports. vec_len ports ≤ length numbers.now) }
{
    let [number, rest @ ..] = numbers else {
        return Ok(Vec::new(alloc));
    };
    let mut ports = ports_among(alloc, rest)?;
    if is_port(*number) {
        let port = *number as u16;
        ports.retain(|other| *other != port);
        ports.insert(0, port)?;
    }
    Ok(ports)
}

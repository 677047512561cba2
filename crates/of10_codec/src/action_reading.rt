// Reading actions.
ghost use Rattle.std.specs.Prelude.{◌≡◌, ℕ, ◌+◌, ◌*◌, ◌≤◌, length, drop, false, IfSome, IfNone, IfOk, IfErr, Some};
ghost use Rattle.of10_codec.specs.declared.fault.Bad.TheVariants.{Body};
ghost use Rattle.of10_codec.specs.Messages.{SpellsOutput};
ghost use Rattle.of10_codec.specs.Faults.{is_output, action_faults, first_fault};
ghost use Rattle.of10_codec.specs.Reading.{ReadsOutputs};

use crate::number::u16_at;
use maple_base::Actions;

/// How many bytes an action has that sends out of a port (OpenFlow 1.0, 5.2.4, ofp_action_output).
pub const OUTPUT_LEN: usize = 8;

const OUTPUT: u16 = 0;

/// The ports of so many actions from a place on, or the place of the first action that does not
/// send out of a port, or is the seventeenth.
pub fn read_actions(bytes: &[u8], start: usize, count: usize) -> Result<Actions, u16>
    requires place { start ≤ 72 }
    requires room { start + 8 * count ≤ length bytes.now }
    ensures found { IfOk result (λ ports. ReadsOutputs ports start count bytes.now) }
    ensures fault { IfErr result (λ place. (kind : ℕ) → first_fault kind (action_faults count 16 start bytes.now) ≡ Some (Body kind place)) }
{
    let mut ports = [0; 16];
    for i in 0..count {
        let place = start + OUTPUT_LEN * i;
        if i == ports.len() {
            return Err(place as u16);
        }
        let Some(port) = read_output(&bytes[place..]) else {
            return Err(place as u16);
        };
        ports[i] = port;
    }
    Ok(Actions::new(&ports[..count]))
}

// the port that an action sends out of
fn read_output(bytes: &[u8]) -> Option<u16>
    requires { 8 ≤ length bytes.now }
    ensures found { IfSome result (λ port. SpellsOutput port bytes.now) }
    ensures other { IfNone result (is_output bytes.now ≡ false) }
{
    if u16_at(bytes, 0) == OUTPUT && usize::from(u16_at(bytes, 2)) == OUTPUT_LEN {
        Some(u16_at(bytes, 4))
    } else {
        None
    }
}

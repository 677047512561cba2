// Writing actions that send out of ports.
ghost use Rattle.std.specs.Prelude.{◌≡◌, ◌+◌, ◌*◌, ◌≤◌, ◌++◌, true, length, vec_len, vec_capacity};
ghost use Rattle.std.specs.List.{list_all};
ghost use Rattle.of10_codec.specs.Written.{written_output, written_outputs};
ghost use Rattle.of10_codec.specs.Laws.{has_bits, actions_have_bits};

use super::append::append_u16;
use maple_base::openflow::WHOLE;
use maple_base::{Actions, CONTROLLER_PORT};

// OpenFlow 1.0, 5.2.4, ofp_action_output.
fn append_output(port: u16, out: &mut Vec<u8>)
    requires { vec_len out.old + 8 ≤ vec_capacity out.old }
    ensures items { out.new.items ≡ out.old.items ++ written_output port }
    ensures len { vec_len out.new ≡ vec_len out.old + 8 }
    ensures capacity { vec_capacity out.old ≤ vec_capacity out.new }
    ensures bits { has_bits 16 port ≡ true }
{
    append_u16(0, out);
    append_u16(8, out);
    append_u16(port, out);
    append_u16(if port == CONTROLLER_PORT { WHOLE } else { 0 }, out);
}

fn append_outputs(ports: &[u16], out: &mut Vec<u8>)
    requires { vec_len out.old + 8 * length ports.now ≤ vec_capacity out.old }
    ensures items { out.new.items ≡ out.old.items ++ written_outputs ports.now }
    ensures len { vec_len out.new ≡ vec_len out.old + 8 * length ports.now }
    ensures capacity { vec_capacity out.old ≤ vec_capacity out.new }
    ensures bits { list_all (has_bits 16) ports.now ≡ true }
{
    for port in ports {
        append_output(*port, out);
    }
}

pub(super) fn append_actions(actions: Actions, out: &mut Vec<u8>)
    requires { vec_len out.old + 8 * length actions ≤ vec_capacity out.old }
    ensures items { out.new.items ≡ out.old.items ++ written_outputs actions }
    ensures len { vec_len out.new ≡ vec_len out.old + 8 * length actions }
    ensures capacity { vec_capacity out.old ≤ vec_capacity out.new }
    ensures bits { actions_have_bits actions ≡ true }
{
    append_outputs(actions.items(), out);
}

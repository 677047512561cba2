// What messages are, to a switch.
ghost use Rattle.std.specs.Prelude.{◌≡◌};
ghost use Rattle.device_port.specs.Switches.{is_barrier, is_flow_mod, is_plain, change_by, change_of};

use maple_base::openflow::{ADD, DELETE, DELETE_STRICT, NO_BUFFER, NO_PORT};
use maple_base::{Match, Rule, TableMod};
use of10_codec::Body;

/// Whether a message is a barrier.
pub fn is_barrier(body: &Body) -> bool
    ensures { result ≡ is_barrier body.now }
{
    matches!(body, Body::BarrierRequest)
}

/// Whether a message is a flow mod.
pub fn is_flow_mod(body: &Body) -> bool
    ensures { result ≡ is_flow_mod body.now }
{
    matches!(body, Body::FlowMod { .. })
}

/// The change that a message asks for, of those that a switch here knows.
pub fn change_of(body: &Body) -> Option<TableMod>
    ensures { result ≡ change_of body.now }
{
    match body {
        Body::FlowMod {
            of,
            cookie,
            command,
            idle,
            hard,
            priority,
            buffer,
            out_port,
            flags,
            actions,
        } if is_plain(*hard, *buffer, *out_port, *flags) => change_by(
            *command,
            Rule {
                of: *of,
                priority: *priority,
                actions: *actions,
                cookie: *cookie,
                idle: *idle,
            },
        ),
        _ => None,
    }
}

fn is_plain(hard: u16, buffer: u32, out_port: u16, flags: u16) -> bool
    ensures { result ≡ is_plain hard buffer out_port flags }
{
    hard == 0 && buffer == NO_BUFFER && out_port == NO_PORT && flags == 0
}

fn change_by(command: u16, rule: Rule) -> Option<TableMod>
    ensures { result ≡ change_by command rule.of rule.priority rule }
{
    if command == ADD {
        Some(TableMod::Add(rule))
    } else if command == DELETE_STRICT {
        Some(TableMod::DeleteStrict {
            of: rule.of,
            priority: rule.priority,
        })
    } else if command == DELETE && rule.of == Match::any() {
        Some(TableMod::DeleteAll)
    } else {
        None
    }
}

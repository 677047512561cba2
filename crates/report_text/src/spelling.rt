// The spelling of each line.
ghost use Rattle.std.specs.Prelude.{◌≡◌, ◌≤◌, ◌++◌, [], true, length, map, decimal, codes};
ghost use Rattle.maple_base.specs.PolicyFaults.{fault_name};
ghost use Rattle.report_text.specs.Report.{◌&◌, behind, joined, spelled_match, spelled_port, spelled_actions, spelled_hop, spelled_decision, spelled_learnt, spelled_script, spelled};
ghost use Rattle.report_text.specs.Short.{is_short};

use crate::line::{Learnt, Line, SHORT_LINE, ScriptRefusal, Why};
use crate::match_text::match_text;
use crate::shapes::{number, one, three, two};
use crate::sheet::Sheet;
use maple_base::{
    Actions, CONTROLLER_PORT, Decision, FLOOD_PORT, Match, Place, PolicyFault, UpdateRefused,
};

/// A line, with its line feed.
pub fn spell<S: Sheet>(line: &Line, sheet: &mut S)
    ensures text { S.takes sheet.old (spelled line.now) sheet.new }
    ensures short { is_short line.now ≡ true → length (spelled line.now) ≤ SHORT_LINE }
{
    match line {
        Line::Open { device } => one(b"open c", *device as u64, b"\n", sheet),
        Line::Closed { device, why } => closed(*device, *why, sheet),
        Line::Ready { device, switch } => ready(*device, *switch, sheet),
        Line::State { state, pruned } => state_line(*state, *pruned, sheet),
        Line::RefusedUpdate { kind } => refused_update(*kind, sheet),
        Line::RefusedPolicy { line, column, kind } => refused_policy(*line, *column, *kind, sheet),
        Line::RefusedScript { line, kind } => refused_script(*line, *kind, sheet),
        Line::Error { device, kind, code } => error(*device, *kind, *code, sheet),
        Line::Quiet { switch, retired } => quiet(*switch, *retired, sheet),
        Line::Malformed { device, kind } => pair(
            b"malformed c",
            *device as u64,
            *kind as u64,
            sheet,
        ),
        Line::TooBig { device, bytes } => pair(b"toobig c", *device as u64, *bytes as u64, sheet),
        Line::Overload { device } => one(b"overload c", *device as u64, b"\n", sheet),
        Line::Answer {
            switch,
            port,
            decision,
            learnt,
        } => answer(*switch, *port, decision, *learnt, sheet),
        Line::Spent { switch, port } => pair(b"spent s", *switch, *port as u64, sheet),
        Line::Stale { job } => one(b"stale ", *job, b"\n", sheet),
        Line::Hit {
            device,
            port,
            actions,
        } => hit(*device, *port, *actions, sheet),
        Line::Miss {
            device,
            port,
            reason,
        } => miss(*device, *port, *reason, sheet),
        Line::Turned { device, turns } => pair(b"turned c", *device as u64, *turns as u64, sheet),
        Line::Settled { turns } => one(b"settled ", *turns as u64, b"\n", sheet),
        Line::Unsettled { turns } => one(b"unsettled ", *turns as u64, b"\n", sheet),
        Line::Absent { device } => one(b"absent c", *device as u64, b"\n", sheet),
        Line::Gone { device } => one(b"gone c", *device as u64, b"\n", sheet),
        Line::Present { device } => one(b"present c", *device as u64, b"\n", sheet),
        Line::Rule {
            switch,
            priority,
            actions,
            of,
        } => rule(*switch, *priority, *actions, of, sheet),
        Line::Rules { switch, count } => pair(b"rules s", *switch, *count as u64, sheet),
        Line::End => sheet.text(b"end\n"),
    }
}

// Two numbers with a space between.
fn pair<S: Sheet>(head: &[u8], n: u64, m: u64, sheet: &mut S)
    ensures { S.takes sheet.old (head.now & decimal n & codes " " & decimal m & codes "\n") sheet.new }
{
    two(head, n, b" ", m, b"\n", sheet);
}

fn ready<S: Sheet>(device: u32, switch: u64, sheet: &mut S)
    ensures text { S.takes sheet.old (spelled (Line.Ready device switch)) sheet.new }
    ensures short { length (spelled (Line.Ready device switch)) ≤ SHORT_LINE }
{
    two(b"ready c", device as u64, b" s", switch, b"\n", sheet);
}

fn state_line<S: Sheet>(state: u64, pruned: u32, sheet: &mut S)
    ensures { S.takes sheet.old (spelled (Line.State state pruned)) sheet.new }
{
    two(b"state ", state, b" pruned ", pruned as u64, b"\n", sheet);
}

fn error<S: Sheet>(device: u32, kind: u16, code: u16, sheet: &mut S)
    ensures text { S.takes sheet.old (spelled (Line.Error device kind code)) sheet.new }
    ensures short { length (spelled (Line.Error device kind code)) ≤ SHORT_LINE }
{
    let (device, kind, code) = (device as u64, kind as u64, code as u64);
    three(b"error c", device, b" ", kind, b" ", code, sheet);
}

fn quiet<S: Sheet>(switch: u64, retired: u32, sheet: &mut S)
    ensures text { S.takes sheet.old (spelled (Line.Quiet switch retired)) sheet.new }
    ensures short { length (spelled (Line.Quiet switch retired)) ≤ SHORT_LINE }
{
    let retired = retired as u64;
    two(b"quiet s", switch, b" retired ", retired, b"\n", sheet);
}

fn miss<S: Sheet>(device: u32, port: u16, reason: u8, sheet: &mut S)
    ensures { S.takes sheet.old (spelled (Line.Miss device port reason)) sheet.new }
{
    let (device, port, reason) = (device as u64, port as u64, reason as u64);
    three(b"miss c", device, b" ", port, b" ", reason, sheet);
}

#[tactic(auto, unfolding(crate::specs::Report::spelled_why))]
fn closed<S: Sheet>(device: u32, why: Why, sheet: &mut S)
    ensures text { S.takes sheet.old (spelled (Line.Closed device why)) sheet.new }
    ensures short { length (spelled (Line.Closed device why)) ≤ SHORT_LINE }
{
    let device = device as u64;
    match why {
        Why::Bad { place, cause } => {
            three(
                b"closed c",
                device,
                b" bad ",
                place,
                b" ",
                cause as u64,
                sheet,
            )
        }
        Why::Version => one(b"closed c", device, b" version\n", sheet),
        Why::Twice(dpid) => two(b"closed c", device, b" twice ", dpid, b"\n", sheet),
        Why::Full => one(b"closed c", device, b" full\n", sheet),
        Why::Clear => one(b"closed c", device, b" clear\n", sheet),
        Why::Early(xid) => two(b"closed c", device, b" early ", xid as u64, b"\n", sheet),
        Why::Xids => one(b"closed c", device, b" xids\n", sheet),
        Why::Link => one(b"closed c", device, b" link\n", sheet),
        Why::Fault => one(b"closed c", device, b" fault\n", sheet),
    }
}

#[tactic(auto, unfolding(crate::specs::Report::spelled_update))]
fn refused_update<S: Sheet>(kind: UpdateRefused, sheet: &mut S)
    ensures { S.takes sheet.old (spelled (Line.RefusedUpdate kind)) sheet.new }
{
    match kind {
        UpdateRefused::UnknownTable => sheet.text(b"refused update UnknownTable\n"),
        UpdateRefused::UnknownSwitch => sheet.text(b"refused update UnknownSwitch\n"),
        UpdateRefused::PortRange => sheet.text(b"refused update PortRange\n"),
        UpdateRefused::Full { count, limit } => {
            two(b"refused update Full ", count, b" ", limit, b"\n", sheet)
        }
    }
}

fn refused_policy<S: Sheet>(line: u32, column: u32, kind: PolicyFault, sheet: &mut S)
    ensures { S.takes sheet.old (spelled (Line.RefusedPolicy line column kind)) sheet.new }
{
    two(
        b"refused policy ",
        line as u64,
        b":",
        column as u64,
        b" ",
        sheet,
    );
    sheet.text(fault_word(kind));
    sheet.text(b"\n");
}

#[tactic(auto, unfolding(maple_base::specs::PolicyFaults::fault_name))]
fn fault_word(fault: PolicyFault) -> &'static [u8]
    ensures { result.now ≡ fault_name fault }
{
    match fault {
        PolicyFault::NotAscii => b"NotAscii",
        PolicyFault::Token => b"Token",
        PolicyFault::Syntax => b"Syntax",
        PolicyFault::UnknownName => b"UnknownName",
        PolicyFault::Twice => b"Twice",
        PolicyFault::TypeMismatch => b"TypeMismatch",
        PolicyFault::NumberRange => b"NumberRange",
        PolicyFault::Nesting => b"Nesting",
        PolicyFault::Nodes => b"Nodes",
        PolicyFault::TooLong => b"TooLong",
    }
}

#[tactic(auto, unfolding(crate::specs::Report::spelled_script))]
fn refused_script<S: Sheet>(line: u32, kind: ScriptRefusal, sheet: &mut S)
    ensures { S.takes sheet.old (spelled (Line.RefusedScript line kind)) sheet.new }
{
    let head = b"refused script ";
    let line = line as u64;
    match kind {
        ScriptRefusal::Grammar => one(head, line, b" Grammar\n", sheet),
        ScriptRefusal::TooLong => one(head, line, b" TooLong\n", sheet),
        ScriptRefusal::Switch => one(head, line, b" Switch\n", sheet),
    }
}

fn answer<S: Sheet>(switch: u64, port: u16, decision: &Decision, learnt: Learnt, sheet: &mut S)
    ensures { S.takes sheet.old (spelled (Line.Answer switch port decision.now learnt)) sheet.new }
{
    two(b"answer s", switch, b" ", port as u64, b" ", sheet);
    decision_text(switch, decision, sheet);
    learnt_text(learnt, sheet);
}

#[tactic(auto, unfolding(crate::specs::Report::spelled_learnt))]
fn learnt_text<S: Sheet>(learnt: Learnt, sheet: &mut S)
    ensures { S.takes sheet.old (codes " " & spelled_learnt learnt & codes "\n") sheet.new }
{
    match learnt {
        Learnt::Learned => sheet.text(b" learned\n"),
        Learnt::Known => sheet.text(b" known\n"),
        Learnt::Levels { need, limit } => {
            two(
                b" unlearned levels ",
                need,
                b" ",
                limit as u64,
                b"\n",
                sheet,
            )
        }
        Learnt::Rows { need, capacity } => {
            two(
                b" unlearned rows ",
                need,
                b" ",
                capacity as u64,
                b"\n",
                sheet,
            )
        }
        Learnt::Quiet => sheet.text(b" unlearned quiet\n"),
    }
}

fn hit<S: Sheet>(device: u32, port: u16, actions: Actions, sheet: &mut S)
    ensures { S.takes sheet.old (spelled (Line.Hit device port actions)) sheet.new }
{
    two(b"hit c", device as u64, b" ", port as u64, b" ", sheet);
    actions_text(actions.items(), sheet);
    sheet.text(b"\n");
}

fn rule<S: Sheet>(switch: u64, priority: u16, actions: Actions, of: &Match, sheet: &mut S)
    ensures { S.takes sheet.old (spelled (Line.Rule switch priority actions of.now)) sheet.new }
{
    two(b"rule s", switch, b" ", priority as u64, b" ", sheet);
    actions_text(actions.items(), sheet);
    sheet.text(b" ");
    match_text(of, sheet);
    sheet.text(b"\n");
}

#[tactic(auto, unfolding(crate::specs::Report::spelled_decision))]
fn decision_text<S: Sheet>(switch: u64, decision: &Decision, sheet: &mut S)
    ensures { S.takes sheet.old (spelled_decision switch decision.now) sheet.new }
{
    match decision {
        Decision::Path(path) => path_text(path.items(), sheet),
        _ => actions_text(decision.actions_at(switch).items(), sheet),
    }
}

#[tactic(auto, unfolding(crate::specs::Report::spelled_actions))]
fn actions_text<S: Sheet>(ports: &[u16], sheet: &mut S)
    ensures { S.takes sheet.old (spelled_actions ports.now) sheet.new }
{
    match ports {
        [] => sheet.text(b"drop"),
        [port] => port_text(*port, sheet),
        [port, further @ ..] => {
            sheet.text(b"out ");
            number(*port as u64, sheet);
            further_ports(further, sheet);
        }
    }
}

// A port that is the only one.
fn port_text<S: Sheet>(port: u16, sheet: &mut S)
    ensures { S.takes sheet.old (spelled_port port) sheet.new }
{
    match port {
        FLOOD_PORT => sheet.text(b"flood"),
        CONTROLLER_PORT => sheet.text(b"barrier"),
        _ => one(b"out ", port as u64, b"", sheet),
    }
}

fn further_ports<S: Sheet>(ports: &[u16], sheet: &mut S)
    ensures { S.takes sheet.old (behind (codes ",") (map decimal ports.now)) sheet.new }
{
    for port in ports {
        sheet.text(b",");
        number(*port as u64, sheet);
    }
}

fn path_text<S: Sheet>(hops: &[Place], sheet: &mut S)
    ensures { S.takes sheet.old (codes "path " & joined (codes ",") (map spelled_hop hops.now)) sheet.new }
{
    sheet.text(b"path ");
    match hops {
        [] => {}
        [hop, further @ ..] => {
            hop_text(*hop, sheet);
            further_hops(further, sheet);
        }
    }
}

fn hop_text<S: Sheet>(hop: Place, sheet: &mut S)
    ensures { S.takes sheet.old (spelled_hop hop) sheet.new }
{
    two(b"s", hop.switch, b":", hop.port, b"", sheet);
}

fn further_hops<S: Sheet>(hops: &[Place], sheet: &mut S)
    ensures { S.takes sheet.old (behind (codes ",") (map spelled_hop hops.now)) sheet.new }
{
    for hop in hops {
        sheet.text(b",");
        hop_text(*hop, sheet);
    }
}

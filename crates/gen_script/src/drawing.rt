// The lines that are drawn.
ghost use Rattle.std.specs.Prelude.{◌≡◌, ◌<◌};
ghost use Rattle.gen_script.specs.Draws.{draw, host_move, packet, round};

use crate::line::ScriptLine;
use rand_core::utils::NextWord;
use rand_pcg::Pcg32;

/// Draws the line of a round.
#[tactic(auto, unfolding(crate::specs::Draws::round, crate::specs::Draws::block, crate::specs::Draws::unblock))]
pub fn draw_round(generator: &mut Pcg32) -> ScriptLine
    ensures { (result, generator.new) ≡ round generator.old }
{
    match draw(generator, 20) {
        0 => draw_host(generator),
        1 => ScriptLine::Block {
            source: draw(generator, 16),
        },
        2 => ScriptLine::Unblock {
            source: draw(generator, 16),
        },
        3 => ScriptLine::Settle,
        _ => draw_packet(generator),
    }
}

#[tactic(auto, unfolding(crate::specs::Draws::host_move))]
fn draw_host(generator: &mut Pcg32) -> ScriptLine
    ensures { (result, generator.new) ≡ host_move generator.old }
{
    let host = 1 + draw(generator, 16);
    let switch = 1 + draw(generator, 4);
    ScriptLine::Host { host, switch }
}

#[tactic(auto, unfolding(crate::specs::Draws::packet))]
fn draw_packet(generator: &mut Pcg32) -> ScriptLine
    ensures { (result, generator.new) ≡ packet generator.old }
{
    let device = 1 + draw(generator, 4);
    let port = 1 + draw(generator, 48);
    let source = draw(generator, 16);
    let host = 1 + draw(generator, 16);
    ScriptLine::Packet {
        device,
        port,
        host,
        source,
    }
}

// A number below a bound.
fn draw(generator: &mut Pcg32, bound: u8) -> u8
    requires { 0 < bound }
    ensures drawn { (result, generator.new) ≡ draw bound generator.old }
    ensures below { result < bound }
{
    (generator.next_word() % bound as u32) as u8
}

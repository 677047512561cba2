// The script that a number makes.
ghost use Rattle.std.specs.Prelude.{◌≡◌, ◌++◌, ◌∷◌, [], OnOk, OnErr};
ghost use Rattle.std.specs.List.{flat_map};
ghost use Rattle.gen_script.specs.declared.line.ScriptLine.TheVariants.{Link};
ghost use Rattle.gen_script.specs.Lines.{spelled};
ghost use Rattle.gen_script.specs.Script.{plugs, links, hosts, opening, rounds, script_of};

use crate::drawing::draw_round;
use crate::line::{ScriptLine, push_line};
use maple_base::NoMemory;
use rand_core::SeedableRng;
use rand_pcg::Pcg32;
use std::alloc::AllocError;

const ROUNDS: u32 = 4000;

/// Appends the script of a number: four switches in a row with sixteen hosts behind them, and then
/// 4,000 lines that are drawn, most of them packets. One number always makes one script.
///
/// # Errors
///
/// Where memory runs out. Then `out` has what it had.
pub fn make_script(n: u64, out: &mut Vec<u8>) -> Result<(), NoMemory>
    ensures script { OnOk result (out.new.items ≡ out.old.items ++ script_of n) }
    ensures kept { OnErr result (out.new.items ≡ out.old.items) }
{
    // The text is put together apart, so that `out` changes only once it is whole.
    let mut text = Vec::new(*out.allocator());
    push_script(&mut text, n)?;
    out.extend_from_slice(&text)?;
    Ok(())
}

#[tactic(auto, using(crate::proofs::Texts::script_text))]
fn push_script(text: &mut Vec<u8>, n: u64) -> Result<(), AllocError>
    ensures { OnOk result (text.new.items ≡ text.old.items ++ script_of n) }
{
    push_opening(text)?;
    push_rounds(text, Pcg32::seed_from_u64(n), ROUNDS)?;
    push_line(text, ScriptLine::Settle)?;
    push_line(text, ScriptLine::Quit)
}

#[tactic(auto, using(crate::proofs::Texts::opening_text))]
fn push_opening(text: &mut Vec<u8>) -> Result<(), AllocError>
    ensures { OnOk result (text.new.items ≡ text.old.items ++ flat_map spelled opening) }
{
    push_plugs(text)?;
    push_line(text, ScriptLine::Settle)?;
    push_links(text)?;
    push_hosts(text)
}

#[tactic(auto, using(crate::proofs::Texts::plug_step))]
fn push_plugs(text: &mut Vec<u8>) -> Result<(), AllocError>
    ensures { OnOk result (text.new.items ≡ text.old.items ++ flat_map spelled plugs) }
{
    for device in 1..5 {
        push_line(text, ScriptLine::Plug { device })?;
    }
    Ok(())
}

#[tactic(auto, using(crate::proofs::Texts::link_step))]
fn push_links(text: &mut Vec<u8>) -> Result<(), AllocError>
    ensures { OnOk result (text.new.items ≡ text.old.items ++ flat_map spelled links) }
{
    for switch in 1..4 {
        push_both_links(text, switch, switch + 1)?;
    }
    Ok(())
}

// The links between two switches, both ways.
fn push_both_links(text: &mut Vec<u8>, switch: u8, next: u8) -> Result<(), AllocError>
    ensures { OnOk result (text.new.items ≡ text.old.items ++ flat_map spelled (Link switch 1 next 2 ∷ Link next 2 switch 1 ∷ [])) }
{
    push_line(
        text,
        ScriptLine::Link {
            switch,
            port: 1,
            to_switch: next,
            to_port: 2,
        },
    )?;
    push_line(
        text,
        ScriptLine::Link {
            switch: next,
            port: 2,
            to_switch: switch,
            to_port: 1,
        },
    )
}

#[tactic(auto, using(crate::proofs::Texts::host_step))]
fn push_hosts(text: &mut Vec<u8>) -> Result<(), AllocError>
    ensures { OnOk result (text.new.items ≡ text.old.items ++ flat_map spelled hosts) }
{
    for host in 1..17 {
        let switch = (host - 1) % 4 + 1;
        push_line(text, ScriptLine::Host { host, switch })?;
    }
    Ok(())
}

#[tactic(auto, using(crate::proofs::Texts::round_step))]
fn push_rounds(text: &mut Vec<u8>, generator: Pcg32, count: u32) -> Result<(), AllocError>
    ensures { OnOk result (text.new.items ≡ text.old.items ++ flat_map spelled (rounds count generator)) }
{
    let mut generator = generator;
    for _ in 0..count {
        let line = draw_round(&mut generator);
        push_line(text, line)?;
    }
    Ok(())
}

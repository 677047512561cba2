// What the words of a command line ask for.
ghost use Rattle.std.specs.Prelude.{◌≡◌, IfSome};
ghost use Rattle.command_words.specs.Words.{IsCommand, check_alone, command_of, gen_of, settings_in, with_ports, without_ports};

use crate::options::{Chosen, number_in, options, settings_of};
use maple_base::{Bytes, Settings, Words};

/// What the words of a command line ask for.
#[derive(Clone, Copy, Debug, PartialEq, Eq)]
pub enum Command {
    /// Run the script of the input under its policy, within these settings.
    Sim(Settings),
    /// Print the policy of the input.
    Check,
    /// Run the script that a number makes, within these settings.
    Gen {
        number: u64,
        settings: Settings,
    },
    /// Serve the switches of a board that listens on these ports, within these settings.
    Serve {
        listen: u16,
        control: u16,
        settings: Settings,
    },
}

/// The command that these words give: `check` alone, `sim` and options, `gen`, a number and options, or
/// `serve` and options. The options are `--budget` (1 to 65,536, and 4,096 without it), `--capacity`
/// (1 to 65,535, and 1,024 without it), `--levels` (1 to 65,000, and 32,768 without it) and `--workers`
/// (0 to 16, and 0 without it), each at most once; `serve` has `--listen` and `--control` among them,
/// each exactly once and from 1 to 65,535. An option has its value as the next word or behind `=`. A
/// value has 1 to 20 decimal digits, and so has the number, which is below 2^64. `None` exactly where
/// the words are others.
pub fn command_of(words: &Words) -> Option<Command>
    ensures command { result ≡ command_of words.now }
    ensures ranges { IfSome result IsCommand }
{
    let (first, words) = words.items().split_first()?;
    let first = first.items();
    if first == b"sim".as_slice() {
        Some(Command::Sim(settings_in(words)?))
    } else if first == b"check".as_slice() {
        check_alone(words)
    } else if first == b"gen".as_slice() {
        gen_of(words)
    } else if first == b"serve".as_slice() {
        with_ports(options(words, Chosen::NONE)?)
    } else {
        None
    }
}

fn check_alone(words: &[Bytes]) -> Option<Command>
    ensures { result ≡ check_alone words.now }
{
    if words.is_empty() {
        Some(Command::Check)
    } else {
        None
    }
}

// A number, and options behind it.
fn gen_of(words: &[Bytes]) -> Option<Command>
    ensures { result ≡ gen_of words.now }
{
    let (number, words) = words.split_first()?;
    Some(Command::Gen {
        number: number_in(number.items())?,
        settings: settings_in(words)?,
    })
}

// The settings that options choose, none of which is a port.
fn settings_in(words: &[Bytes]) -> Option<Settings>
    ensures { result ≡ settings_in words.now }
{
    without_ports(options(words, Chosen::NONE)?)
}

fn without_ports(chosen: Chosen) -> Option<Settings>
    ensures { result ≡ without_ports chosen }
{
    if chosen.listen.is_some() || chosen.control.is_some() {
        None
    } else {
        Some(settings_of(chosen))
    }
}

fn with_ports(chosen: Chosen) -> Option<Command>
    ensures { result ≡ with_ports chosen }
{
    Some(Command::Serve {
        listen: chosen.listen?,
        control: chosen.control?,
        settings: settings_of(chosen),
    })
}

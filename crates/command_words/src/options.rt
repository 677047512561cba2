// The options of a command line.
ghost use Rattle.std.specs.Prelude.{◌≡◌};
ghost use Rattle.command_words.specs.Options.{most_port, name_of, number_in, once, options, port_of, setting_among, setting_given};
ghost use Rattle.command_words.specs.Options.{setting_named, settings_of, value_of, with_setting, within};
ghost use Rattle.command_words.specs.WordViews.{given_of};

use machine_desk::MOST_WORKERS;
use maple_base::{Bytes, MOST_BUDGET, Settings};
use maple_text::{len_to, number_of};

/// The most rules of a switch.
const MOST_CAPACITY: u32 = 65_535;

/// The most levels of priorities of its rules.
const MOST_LEVELS: u32 = 65_000;

// The digits of a number's longest spelling.
const DIGITS: usize = 20;

/// A setting that an option chooses.
#[derive(Clone, Copy, Debug, PartialEq, Eq)]
pub enum Setting {
    /// `--budget`: the most steps that the policy may take for a packet.
    Budget,
    /// `--capacity`: the most rules of a switch.
    Capacity,
    /// `--levels`: the most levels of priorities of its rules.
    Levels,
    /// `--workers`: how many workers answer packets beside the driver.
    Workers,
    /// `--listen`: the port that switches connect to.
    Listen,
    /// `--control`: the port that control text comes from.
    Control,
}

/// The settings that options chose.
#[derive(Clone, Copy, Debug, PartialEq, Eq)]
pub struct Chosen {
    pub budget: Option<u32>,
    pub capacity: Option<u32>,
    pub levels: Option<u32>,
    pub workers: Option<u32>,
    pub listen: Option<u16>,
    pub control: Option<u16>,
}

impl Setting {
    /// All of them.
    pub const ALL: [Setting; 6] = [
        Setting::Budget,
        Setting::Capacity,
        Setting::Levels,
        Setting::Workers,
        Setting::Listen,
        Setting::Control,
    ];

    /// The setting's name, as an option has it.
    pub fn name(self) -> &'static [u8]
        ensures { result.now ≡ name_of self }
    {
        match self {
            Setting::Budget => b"--budget",
            Setting::Capacity => b"--capacity",
            Setting::Levels => b"--levels",
            Setting::Workers => b"--workers",
            Setting::Listen => b"--listen",
            Setting::Control => b"--control",
        }
    }
}

impl Chosen {
    /// Nothing is chosen.
    pub const NONE: Chosen = Chosen {
        budget: None,
        capacity: None,
        levels: None,
        workers: None,
        listen: None,
        control: None,
    };
}

/// What these settings are, where each that isn't chosen is its default.
pub fn settings_of(chosen: Chosen) -> Settings
    ensures { result ≡ settings_of chosen }
{
    Settings {
        capacity: chosen.capacity.unwrap_or(1_024),
        levels: chosen.levels.unwrap_or(32_768),
        budget: chosen.budget.unwrap_or(4_096),
        workers: chosen.workers.unwrap_or(0),
    }
}

/// The settings that these words choose behind those that were chosen before.
pub fn options(words: &[Bytes], chosen: Chosen) -> Option<Chosen>
    ensures { result ≡ options words.now chosen }
{
    match words {
        [] => Some(chosen),
        [word] => {
            let (setting, value) = setting_given(word.items())?;
            with_setting(setting, value, chosen)
        }
        [word, next, ..] => match setting_given(word.items()) {
            Some((setting, value)) => options(&words[1..], with_setting(setting, value, chosen)?),
            None => {
                let setting = setting_named(word.items())?;
                options(&words[2..], with_setting(setting, next.items(), chosen)?)
            }
        },
    }
}

fn with_setting(setting: Setting, value: &[u8], chosen: Chosen) -> Option<Chosen>
    ensures { result ≡ with_setting setting value.now chosen }
{
    Some(match setting {
        Setting::Budget => Chosen {
            budget: Some(once(chosen.budget, value_of(1, MOST_BUDGET, value))?),
            ..chosen
        },
        Setting::Capacity => Chosen {
            capacity: Some(once(chosen.capacity, value_of(1, MOST_CAPACITY, value))?),
            ..chosen
        },
        Setting::Levels => Chosen {
            levels: Some(once(chosen.levels, value_of(1, MOST_LEVELS, value))?),
            ..chosen
        },
        Setting::Workers => Chosen {
            workers: Some(once(chosen.workers, value_of(0, MOST_WORKERS, value))?),
            ..chosen
        },
        Setting::Listen => Chosen {
            listen: Some(once(chosen.listen, port_of(value))?),
            ..chosen
        },
        Setting::Control => Chosen {
            control: Some(once(chosen.control, port_of(value))?),
            ..chosen
        },
    })
}

fn once<T: Copy>(before: Option<T>, value: Option<T>) -> Option<T>
    ensures { result ≡ once before value }
{
    match before {
        None => value,
        Some(_) => None,
    }
}

// The setting that a word names.
fn setting_named(word: &[u8]) -> Option<Setting>
    ensures { result ≡ setting_named word.now }
{
    setting_among(&Setting::ALL, word)
}

fn setting_among(settings: &[Setting], word: &[u8]) -> Option<Setting>
    ensures { result ≡ setting_among settings.now word.now }
{
    for setting in settings {
        if setting.name() == word {
            return Some(*setting);
        }
    }
    None
}

// The setting that a word names ahead of its first `=`, with the value behind that.
fn setting_given(word: &[u8]) -> Option<(Setting, &[u8])>
    ensures { given_of result ≡ setting_given word.now }
{
    let at = len_to(b'=', word);
    if at == word.len() {
        return None;
    }
    let setting = setting_named(&word[..at])?;
    Some((setting, &word[at + 1..]))
}

fn value_of(least: u32, most: u32, word: &[u8]) -> Option<u32>
    ensures { result ≡ value_of least most word.now }
{
    within(least, most, number_in(word)?)
}

fn within(least: u32, most: u32, number: u64) -> Option<u32>
    ensures { result ≡ within least most number }
{
    if least as u64 <= number && number <= most as u64 {
        Some(number as u32)
    } else {
        None
    }
}

fn port_of(word: &[u8]) -> Option<u16>
    ensures { result ≡ port_of word.now }
{
    port_within(number_in(word)?)
}

fn port_within(number: u64) -> Option<u16>
    ensures { result ≡ within 1 most_port number }
{
    if 1 <= number && number <= u16::MAX as u64 {
        Some(number as u16)
    } else {
        None
    }
}

/// The number that 1 to 20 decimal digits spell, below 2^64.
pub fn number_in(word: &[u8]) -> Option<u64>
    ensures { result ≡ number_in word.now }
{
    if word.len() <= DIGITS {
        number_of(word)
    } else {
        None
    }
}

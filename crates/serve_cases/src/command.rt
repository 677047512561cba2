// What the top call is given: the words of a command line, and an input.
use crate::given::Given;
use crate::settings::usual;
use maple_base::{Bytes, NoMemory, Settings, Words};
use maple_io::MemSource;
use std::alloc::{AllocError, Global};

/// The port for switches.
pub const LISTEN: u16 = 6_633;

/// The port for control text.
pub const CONTROL: u16 = 6_634;

/// `serve`, the ports, and an option for each setting that isn't the usual one.
pub fn words_of(alloc: Global, settings: Settings) -> Result<Words, NoMemory> {
    let usual = usual();
    let mut words = Vec::new(alloc);
    push_word(&mut words, "serve")?;
    push_option(&mut words, "--listen", LISTEN as u32, 0)?;
    push_option(&mut words, "--control", CONTROL as u32, 0)?;
    push_option(&mut words, "--capacity", settings.capacity, usual.capacity)?;
    push_option(&mut words, "--levels", settings.levels, usual.levels)?;
    push_option(&mut words, "--budget", settings.budget, usual.budget)?;
    push_option(&mut words, "--workers", settings.workers, usual.workers)?;
    Ok(Words::new(words))
}

fn push_option(
    words: &mut Vec<Bytes>,
    name: &str,
    value: u32,
    usual: u32,
) -> Result<(), AllocError> {
    if value == usual {
        return Ok(());
    }
    push_word(words, name)?;
    let mut digits = String::new(*words.allocator());
    write!(digits, "{value}")?;
    push_word(words, digits.as_str())
}

fn push_word(words: &mut Vec<Bytes>, word: &str) -> Result<(), AllocError> {
    let bytes = Vec::from_slice(*words.allocator(), word.as_bytes())?;
    words.push(Bytes::new(bytes))?;
    Ok(())
}

/// The policy, a line `%%`, and the start script.
pub fn source_of(alloc: Global, given: &Given) -> Result<MemSource, AllocError> {
    let mut input = Vec::from_slice(alloc, given.policy.as_bytes())?;
    input.extend_from_slice(b"%%\n")?;
    input.extend_from_slice(given.start.as_bytes())?;
    Ok(MemSource::new(input, Vec::from_slice(alloc, &given.reads)?))
}

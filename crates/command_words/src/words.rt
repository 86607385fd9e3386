//! The words of the command line: its grammar, behind the program's name.
ghost use Rattle.std.specs.Prelude.{◌≡◌, ◌≤◌, ◌<◌, ◌^◌, ℕ, Some, ⊤, map, MatchOption, is_some};
ghost use Rattle.std.specs.Fmt.{decimal};
ghost use Rattle.std.specs.Str.{bytes_eq};
ghost use Rattle.command_words.specs.Words.{number_of, in_range, flag_named, number_named, nothing_given, once, with_option, settings_from, start_of, mode_of, replay_of, serve_at, check_of, gen_of, command_named, command_of};

use itoa::Buffer;
use p4_types::events::Start;

/// The commands that have options.
#[derive(Clone, Copy)]
pub enum Verb {
    Replay,
    Serve,
}

/// An option, as it is given.
#[derive(Clone, Copy)]
pub enum Given {
    Lockstep,
    Bridge,
    Device(u64),
    Cpu(u16),
    Rows(u32),
    Port(u16),
    Packets(u16),
    Workers(u16),
}

/// How the lanes of a tape run beside one another.
#[derive(Clone, Copy)]
pub enum Mode {
    /// One record after the other, as they stand on the tape.
    Lockstep,
    /// Each lane on a thread of its own.
    Free,
}

/// The options that were given.
#[derive(Clone, Copy)]
pub struct Settings {
    pub lockstep: bool,
    pub bridge: bool,
    pub device: Option<u64>,
    pub cpu: Option<u16>,
    pub rows: Option<u32>,
    pub port: Option<u16>,
    pub packets: Option<u16>,
    pub workers: Option<u16>,
}

/// A command, with what its options say.
#[derive(Clone, Copy)]
pub enum Command {
    /// Reads a tape, runs it and writes the report.
    Replay {
        mode: Mode,
        start: Start,
    },
    /// Listens at a port, and serves.
    Serve {
        port: u16,
        packets: u16,
        workers: u16,
        start: Start,
    },
    /// Reads a configuration, and writes the first rule that it breaks.
    Check,
    /// Makes the tape of a number, and runs it.
    Gen(u64),
}

// The number that a word is written for, if it is below 2^64.
fn parsed(word: &str) -> Option<u64>
    ensures { (n : ℕ) → n < 2 ^ 64 → word.now ≡ decimal n → result ≡ Some n }
{
    match word.parse::<u64>() {
        Ok(number) => Some(number),
        Err(_) => None,
    }
}

fn is_written(number: u64, word: &str) -> bool
    ensures { result ≡ bytes_eq word.now (decimal number) }
{
    word == Buffer::new().format(number)
}

// The number that a word spells.
fn number_of(word: &str) -> Option<u64>
    ensures { result ≡ number_of word.now }
{
    let number = parsed(word)?;
    if number < 10_000_000_000_000_000_000 && is_written(number, word) {
        Some(number)
    } else {
        None
    }
}

// The number that a word spells, in a range.
pub(crate) fn number_in(low: u64, high: u64, word: &str) -> Option<u64>
    ensures number { result ≡ in_range low high (number_of word.now) }
    ensures range { MatchOption result ⊤ (λ n. (low ≤ n) × (n ≤ high)) }
{
    match number_of(word) {
        Some(number) if low <= number && number <= high => Some(number),
        _ => None,
    }
}

// An option without a number.
fn flag_named(name: &str) -> Option<Given>
    ensures { result ≡ flag_named name.now }
{
    if name == "--lockstep" {
        Some(Given::Lockstep)
    } else if name == "--bridge" {
        Some(Given::Bridge)
    } else {
        None
    }
}

// An option with its number.
fn number_named(name: &str, value: &str) -> Option<Given>
    ensures { result ≡ number_named name.now value.now }
{
    if name == "--device" {
        let number = number_in(1, 9_999_999_999_999_999_999, value)?;
        Some(Given::Device(number))
    } else if name == "--cpu" {
        let number = number_in(1, 510, value)?;
        Some(Given::Cpu(number as u16))
    } else if name == "--rows" {
        let number = number_in(1_024, 262_144, value)?;
        Some(Given::Rows(number as u32))
    } else if name == "--port" {
        let number = number_in(1, 65_535, value)?;
        Some(Given::Port(number as u16))
    } else if name == "--packets" {
        let number = number_in(1, 65_534, value)?;
        Some(Given::Packets(number as u16))
    } else if name == "--workers" {
        let number = number_in(1, 16, value)?;
        Some(Given::Workers(number as u16))
    } else {
        None
    }
}

// An option is given once.
fn once(given: bool, settings: Settings) -> Option<Settings>
    ensures { result ≡ once given settings }
{
    if given { None } else { Some(settings) }
}

impl Settings {
    // No option is given yet.
    fn new() -> Settings
        ensures { result ≡ nothing_given }
    {
        Settings {
            lockstep: false,
            bridge: false,
            device: None,
            cpu: None,
            rows: None,
            port: None,
            packets: None,
            workers: None,
        }
    }

    // Those with an option more, if it is one of the command and was not given before.
    fn with_option(self, verb: Verb, given: Given) -> Option<Settings>
        ensures { result ≡ with_option given verb self }
    {
        match given {
            Given::Lockstep => match verb {
                Verb::Replay => once(
                    self.lockstep,
                    Settings {
                        lockstep: true,
                        ..self
                    },
                ),
                Verb::Serve => None,
            },
            Given::Bridge => match verb {
                Verb::Replay => once(
                    self.bridge,
                    Settings {
                        bridge: true,
                        ..self
                    },
                ),
                Verb::Serve => None,
            },
            Given::Device(device) => once(
                self.device.is_some(),
                Settings {
                    device: Some(device),
                    ..self
                },
            ),
            Given::Cpu(cpu) => once(
                self.cpu.is_some(),
                Settings {
                    cpu: Some(cpu),
                    ..self
                },
            ),
            Given::Rows(rows) => once(
                self.rows.is_some(),
                Settings {
                    rows: Some(rows),
                    ..self
                },
            ),
            Given::Port(port) => match verb {
                Verb::Replay => None,
                Verb::Serve => once(
                    self.port.is_some(),
                    Settings {
                        port: Some(port),
                        ..self
                    },
                ),
            },
            Given::Packets(packets) => match verb {
                Verb::Replay => None,
                Verb::Serve => once(
                    self.packets.is_some(),
                    Settings {
                        packets: Some(packets),
                        ..self
                    },
                ),
            },
            Given::Workers(workers) => match verb {
                Verb::Replay => None,
                Verb::Serve => once(
                    self.workers.is_some(),
                    Settings {
                        workers: Some(workers),
                        ..self
                    },
                ),
            },
        }
    }

    // With what a switch starts.
    fn start(&self) -> Start
        ensures { result ≡ start_of self.now }
    {
        Start {
            device: self.device.unwrap_or(1),
            cpu: self.cpu.unwrap_or(255),
            rows: self.rows.unwrap_or(16_384),
            slots: 1_048_576,
            bridge: self.bridge,
        }
    }
}

// The settings that options give, which come in any order.
fn settings_from(verb: Verb, settings: Settings, words: &[&str]) -> Option<Settings>
    ensures { result ≡ settings_from verb settings (map (λ word. word.now) words.now) }
{
    let [name, rest @ ..] = words else {
        return Some(settings);
    };
    if let Some(flag) = flag_named(name) {
        return settings_from(verb, settings.with_option(verb, flag)?, rest);
    }
    let [value, rest @ ..] = rest else {
        return None;
    };
    let given = number_named(name, value)?;
    settings_from(verb, settings.with_option(verb, given)?, rest)
}

// A replay is in lockstep where that was asked for.
fn mode_of(lockstep: bool) -> Mode
    ensures { result ≡ mode_of lockstep }
{
    if lockstep { Mode::Lockstep } else { Mode::Free }
}

pub(crate) fn replay_of(settings: &Settings) -> Command
    ensures { result ≡ replay_of settings.now }
{
    Command::Replay {
        mode: mode_of(settings.lockstep),
        start: settings.start(),
    }
}

// Serving at a port, which is always given.
pub(crate) fn serve_of(settings: &Settings) -> Option<Command>
    ensures { result ≡ serve_at settings.now.port settings.now }
{
    let port = settings.port?;
    Some(Command::Serve {
        port,
        packets: settings.packets.unwrap_or(9_000),
        workers: settings.workers.unwrap_or(2),
        start: settings.start(),
    })
}

fn check_of(words: &[&str]) -> Option<Command>
    ensures { result ≡ check_of (map (λ word. word.now) words.now) }
{
    match words {
        [] => Some(Command::Check),
        _ => None,
    }
}

fn gen_of(words: &[&str]) -> Option<Command>
    ensures { result ≡ gen_of (map (λ word. word.now) words.now) }
{
    match words {
        [word] => {
            let number = number_in(1, 64, word)?;
            Some(Command::Gen(number))
        }
        _ => None,
    }
}

// The command of a name with the words behind it.
fn command_named(name: &str, words: &[&str]) -> Option<Command>
    ensures { result ≡ command_named name.now (map (λ word. word.now) words.now) }
{
    if name == "replay" {
        let settings = settings_from(Verb::Replay, Settings::new(), words)?;
        Some(replay_of(&settings))
    } else if name == "serve" {
        let settings = settings_from(Verb::Serve, Settings::new(), words)?;
        serve_of(&settings)
    } else if name == "check" {
        check_of(words)
    } else if name == "gen" {
        gen_of(words)
    } else {
        None
    }
}

/// The command that the words are, if they are in the grammar, with the values that the grammar has of them.
pub fn tested(words: &[&str]) -> Option<Command>
    ensures { result ≡ command_of (map (λ word. word.now) words.now) }
{
    match words {
        [] => None,
        [name, words @ ..] => command_named(name, words),
    }
}

// The words behind a name make a command of it.
pub(crate) fn is_command(name: &str, words: &[&str]) -> bool
    ensures { result ≡ is_some (command_named name.now (map (λ word. word.now) words.now)) }
{
    command_named(name, words).is_some()
}

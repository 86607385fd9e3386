//! The commands as `clap` takes them, behind the test by their grammar.
ghost use Rattle.std.specs.Prelude.{◌≡◌, ◌≤◌, ℕ, Bool, Some, None, ⊤, true, false, map, option_map, option_and_then, codes, is_some, IfOk, IfErr, MatchOption};
ghost use Rattle.clap.specs.Values.{kind_of};
ghost use Rattle.clap.specs.Matches.{found_of};
ghost use Rattle.clap.specs.Walk.{rows_of, rule_of, one_of};
ghost use Rattle.clap.specs.Simple.{app_of};
ghost use Rattle.command_words.specs.declared.words.Verb.TheVariants as verbs;
ghost use Rattle.command_words.specs.declared.words.Command.TheVariants as commands;
ghost use Rattle.command_words.specs.declared.words.Settings.{Settings};
ghost use Rattle.command_words.specs.Words.{settings_from, nothing_given, replay_of, serve_at, check_of, gen_of, command_named, command_of};
ghost use Rattle.command_words.specs.Taken.{option_rule, flag_rule, options_app, check_app, gen_app, number_at, flag_text, Gives, GivesReplay, GivesServe};

use crate::words::{Command, Settings, Verb, is_command, number_in, replay_of, serve_of};
use clap::error::ErrorKind;
use clap::{Arg, ArgAction, ArgMatches, Error};
use list_types::NoMemory;
use std::alloc::{AllocError, Global};

// ---- the commands

// An option with a value.
fn option<'a>(alloc: Global, name: &'a str) -> Arg<'a>
    ensures rule { rule_of result ≡ option_rule name.entry.now }
    ensures local { result.global ≡ false }
{
    Arg::new(alloc, name).long(name).action(ArgAction::Set)
}

// An option without a value.
fn flag<'a>(alloc: Global, name: &'a str) -> Arg<'a>
    ensures rule { rule_of result ≡ flag_rule name.entry.now }
    ensures local { result.global ≡ false }
{
    Arg::new(alloc, name).long(name).action(ArgAction::SetTrue)
}

// A replay, with its options.
fn replay_command<'a>(alloc: Global) -> Result<clap::Command<'a>, AllocError>
    ensures { IfOk result (λ command. app_of command ≡ options_app verbs.Replay) }
{
    clap::Command::new(alloc, "replay")
        .no_binary_name(true)
        .disable_help_flag(true)
        .arg(flag(alloc, "lockstep"))?
        .arg(flag(alloc, "bridge"))?
        .arg(option(alloc, "device"))?
        .arg(option(alloc, "cpu"))?
        .arg(option(alloc, "rows"))
}

// Serving, with its options.
fn serve_command<'a>(alloc: Global) -> Result<clap::Command<'a>, AllocError>
    ensures { IfOk result (λ command. app_of command ≡ options_app verbs.Serve) }
{
    clap::Command::new(alloc, "serve")
        .no_binary_name(true)
        .disable_help_flag(true)
        .arg(option(alloc, "device"))?
        .arg(option(alloc, "cpu"))?
        .arg(option(alloc, "rows"))?
        .arg(option(alloc, "port"))?
        .arg(option(alloc, "packets"))?
        .arg(option(alloc, "workers"))
}

// The check of a configuration has no arguments.
fn check_command<'a>(alloc: Global) -> clap::Command<'a>
    ensures { app_of result ≡ check_app }
{
    clap::Command::new(alloc, "check")
        .no_binary_name(true)
        .disable_help_flag(true)
}

// A made tape, with its number.
fn gen_command<'a>(alloc: Global) -> Result<clap::Command<'a>, AllocError>
    ensures { IfOk result (λ command. app_of command ≡ gen_app) }
{
    clap::Command::new(alloc, "gen")
        .no_binary_name(true)
        .disable_help_flag(true)
        .arg(Arg::new(alloc, "number").action(ArgAction::Set))
}

// A command that has options.
fn options_command<'a>(alloc: Global, verb: Verb) -> Result<clap::Command<'a>, AllocError>
    ensures { IfOk result (λ command. app_of command ≡ options_app verb) }
{
    match verb {
        Verb::Replay => replay_command(alloc),
        Verb::Serve => serve_command(alloc),
    }
}

// ---- their matches

// The matches of the words behind a command's name, which have what the settings say.
fn options_taken<'a>(
    alloc: Global,
    verb: Verb,
    words: &'a [&'a str],
) -> Result<ArgMatches<'a>, Error>
    requires { is_some (settings_from verb nothing_given (map (λ word. word.now) words.now)) ≡ true }
    ensures matches { IfOk result (λ matches. (settings : Settings)
        → settings_from verb nothing_given (map (λ word. word.now) words.entry.now) ≡ Some settings
        → Gives verb settings (rows_of (found_of matches))) }
    // The words are never refused.
    ensures memory { IfErr result (λ error. kind_of error ≡ ErrorKind.OutOfMemory) }
{
    options_command(alloc, verb)?.try_get_matches_from(words)
}

fn check_taken<'a>(alloc: Global, words: &'a [&'a str]) -> Result<ArgMatches<'a>, Error>
    requires { is_some (check_of (map (λ word. word.now) words.now)) ≡ true }
    ensures memory { IfErr result (λ error. kind_of error ≡ ErrorKind.OutOfMemory) }
{
    check_command(alloc).try_get_matches_from(words)
}

fn gen_taken<'a>(alloc: Global, words: &'a [&'a str]) -> Result<ArgMatches<'a>, Error>
    requires { is_some (gen_of (map (λ word. word.now) words.now)) ≡ true }
    ensures matches { IfOk result (λ matches. gen_of (map (λ word. word.now) words.entry.now)
        ≡ option_map commands.Gen (number_at (codes "number") 1 64 (rows_of (found_of matches)))) }
    ensures memory { IfErr result (λ error. kind_of error ≡ ErrorKind.OutOfMemory) }
{
    gen_command(alloc)?.try_get_matches_from(words)
}

// ---- the values

// An option without a value was given.
fn is_given(matches: &ArgMatches<'_>, name: &str) -> bool
    ensures { (given : Bool) → one_of name.now (rows_of (found_of matches.now)) ≡ Some (flag_text given) → result ≡ given }
{
    matches.get_flag(name)
}

// The number of an argument's value, in a range.
fn number_of_argument(matches: &ArgMatches<'_>, name: &str, low: u64, high: u64) -> Option<u64>
    ensures number { result ≡ number_at name.now low high (rows_of (found_of matches.now)) }
    ensures range { MatchOption result ⊤ (λ n. (low ≤ n) × (n ≤ high)) }
{
    match matches.get_str(name) {
        Some(word) => number_in(low, high, word),
        None => None,
    }
}

// The number of an argument's value, from 1 on.
fn small_number(matches: &ArgMatches<'_>, name: &str, high: u16) -> Option<u16>
    ensures { result ≡ number_at name.now 1 high (rows_of (found_of matches.now)) }
{
    let number = number_of_argument(matches, name, 1, high as u64)?;
    Some(number as u16)
}

fn rows(matches: &ArgMatches<'_>) -> Option<u32>
    ensures { result ≡ number_at (codes "rows") 1024 262144 (rows_of (found_of matches.now)) }
{
    let number = number_of_argument(matches, "rows", 1_024, 262_144)?;
    Some(number as u32)
}

fn replay_settings(matches: &ArgMatches<'_>) -> Settings
    ensures { (settings : Settings) → GivesReplay settings (rows_of (found_of matches.now)) → result ≡ settings }
{
    Settings {
        lockstep: is_given(matches, "lockstep"),
        bridge: is_given(matches, "bridge"),
        device: number_of_argument(matches, "device", 1, 9_999_999_999_999_999_999),
        cpu: small_number(matches, "cpu", 510),
        rows: rows(matches),
        port: None,
        packets: None,
        workers: None,
    }
}

fn serve_settings(matches: &ArgMatches<'_>) -> Settings
    ensures { (settings : Settings) → GivesServe settings (rows_of (found_of matches.now)) → result ≡ settings }
{
    Settings {
        lockstep: false,
        bridge: false,
        device: number_of_argument(matches, "device", 1, 9_999_999_999_999_999_999),
        cpu: small_number(matches, "cpu", 510),
        rows: rows(matches),
        port: small_number(matches, "port", 65_535),
        packets: small_number(matches, "packets", 65_534),
        workers: small_number(matches, "workers", 16),
    }
}

// The settings of words that are options of a command.
fn settings_of(alloc: Global, verb: Verb, words: &[&str]) -> Result<Settings, NoMemory>
    requires { is_some (settings_from verb nothing_given (map (λ word. word.now) words.now)) ≡ true }
    ensures { IfOk result (λ settings. settings_from verb nothing_given (map (λ word. word.now) words.now) ≡ Some settings) }
{
    let Ok(matches) = options_taken(alloc, verb, words) else {
        return Err(NoMemory);
    };
    match verb {
        Verb::Replay => Ok(replay_settings(&matches)),
        Verb::Serve => Ok(serve_settings(&matches)),
    }
}

// ---- a command

fn replay(alloc: Global, words: &[&str]) -> Result<Option<Command>, NoMemory>
    requires { is_some (settings_from verbs.Replay nothing_given (map (λ word. word.now) words.now)) ≡ true }
    ensures { IfOk result (λ command. command
        ≡ option_map replay_of (settings_from verbs.Replay nothing_given (map (λ word. word.now) words.now))) }
{
    let settings = settings_of(alloc, Verb::Replay, words)?;
    Ok(Some(replay_of(&settings)))
}

fn serve(alloc: Global, words: &[&str]) -> Result<Option<Command>, NoMemory>
    requires { is_some (settings_from verbs.Serve nothing_given (map (λ word. word.now) words.now)) ≡ true }
    ensures { IfOk result (λ command. command
        ≡ option_and_then (λ settings. serve_at settings.port settings)
        (settings_from verbs.Serve nothing_given (map (λ word. word.now) words.now))) }
{
    let settings = settings_of(alloc, Verb::Serve, words)?;
    Ok(serve_of(&settings))
}

fn check(alloc: Global, words: &[&str]) -> Result<Option<Command>, NoMemory>
    requires { is_some (check_of (map (λ word. word.now) words.now)) ≡ true }
    ensures { IfOk result (λ command. command ≡ check_of (map (λ word. word.now) words.now)) }
{
    match check_taken(alloc, words) {
        Ok(_) => Ok(Some(Command::Check)),
        Err(_) => Err(NoMemory),
    }
}

fn made(alloc: Global, words: &[&str]) -> Result<Option<Command>, NoMemory>
    requires { is_some (gen_of (map (λ word. word.now) words.now)) ≡ true }
    ensures { IfOk result (λ command. command ≡ gen_of (map (λ word. word.now) words.now)) }
{
    match gen_taken(alloc, words) {
        Ok(matches) => Ok(made_tape(number_of_argument(&matches, "number", 1, 64))),
        Err(_) => Err(NoMemory),
    }
}

// The tape of a number is made.
fn made_tape(number: Option<u64>) -> Option<Command>
    ensures { result ≡ option_map commands.Gen number }
{
    match number {
        Some(number) => Some(Command::Gen(number)),
        None => None,
    }
}

// The command of words that are one.
fn command_of_name(alloc: Global, name: &str, words: &[&str]) -> Result<Option<Command>, NoMemory>
    requires { is_some (command_named name.now (map (λ word. word.now) words.now)) ≡ true }
    ensures { IfOk result (λ command. command ≡ command_named name.now (map (λ word. word.now) words.now)) }
{
    if name == "replay" {
        replay(alloc, words)
    } else if name == "serve" {
        serve(alloc, words)
    } else if name == "check" {
        check(alloc, words)
    } else {
        made(alloc, words)
    }
}

/// The command that the words are, if they are in the grammar, with the values that `clap` takes of them. Words that are
/// not in the grammar are no command also where memory is out.
pub fn command_of(alloc: Global, words: &[&str]) -> Result<Option<Command>, NoMemory>
    ensures command { IfOk result (λ command. command ≡ command_of (map (λ word. word.now) words.now)) }
    ensures memory { IfErr result (λ _. is_some (command_of (map (λ word. word.now) words.now)) ≡ true) }
{
    match words {
        [] => Ok(None),
        [name, words @ ..] => {
            if is_command(name, words) {
                command_of_name(alloc, name, words)
            } else {
                Ok(None)
            }
        }
    }
}

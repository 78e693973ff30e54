//! From the words to the command that they state.
ghost use Rattle.std.specs.Prelude.{◌≡◌, ◌↔◌, List, Some, Err, IfOk, IfSome, ◌≤◌, map, codes, string_bytes};
ghost use Rattle.std.specs.List.{list_any};
ghost use Rattle.std.specs.Str.{bytes_eq};
ghost use Rattle.clap.specs.Words.{Row, found_of, first_of, first_value, kind_of, subcommand_rows_of};
ghost use Rattle.command_words.specs.Settings.{name_of, most_of, setting_value};
ghost use Rattle.command_words.specs.Modes.{command_from, word_of};
ghost use Rattle.command_words.specs.States.{States, StatesNoOther, StatesNone};

use crate::application::application;
use crate::mode::Mode;
use crate::number::number;
use crate::setting::Setting;
use crate::words::{Command, WordsEnd};
use clap::error::ErrorKind;
use clap::{ArgMatches, Error};
use std::alloc::Global;

/// What is set: the number that was given where it lies in the range, or the default where none was given.
fn value(options: &ArgMatches<'_>, setting: Setting) -> Option<u32>
    ensures in_range { IfSome result (λ number. number ≤ most_of setting) }
    ensures value { result ≡ setting_value setting (first_value (found_of options.now) (name_of setting)) }
{
    match options.get_str(setting.name()) {
        Some(text) => number(text).filter(|number| setting.least() <= *number
            && *number <= setting.most()),
        None => Some(setting.default()),
    }
}

/// The command with what is set. `None` where a value is no number in its range.
fn held(mode: Mode, options: &ArgMatches<'_>) -> Option<Command>
    ensures { result ≡ command_from mode (λ setting. first_value (found_of options.now) (name_of setting)) }
{
    match mode {
        Mode::Stdio => Some(Command::Stdio {
            partitions: value(options, Setting::Partitions)?,
        }),
        Mode::Serve => Some(Command::Serve {
            port: value(options, Setting::Port)? as u16,
            partitions: value(options, Setting::Partitions)?,
            workers: value(options, Setting::Workers)?,
        }),
        Mode::Load => Some(Command::Load {
            start: u64::from(value(options, Setting::Start)?),
            clients: value(options, Setting::Clients)?,
            count: value(options, Setting::Count)?,
            partitions: value(options, Setting::Partitions)?,
        }),
    }
}

/// The command that was met in the words, with what is set.
fn met(matches: &ArgMatches<'_>) -> Option<Command>
    ensures { (mode : Mode) (rows : List Row) → subcommand_rows_of matches.now ≡ Some (word_of mode, rows)
        → result ≡ command_from mode (λ setting. first_of (name_of setting) rows) }
{
    let (word, options) = matches.subcommand()?;
    held(Mode::named(word)?, options)
}

/// One of the words is `--`, behind which `clap` would take each word as it stands.
fn has_bare_hyphens(words: &[String]) -> bool
    ensures { result ≡ list_any (λ word. bytes_eq (string_bytes word) (codes "--")) words.now }
{
    words.iter().any(|word| word.as_str() == "--")
}

/// Why `clap` gave no matches.
fn end_of(error: &Error) -> WordsEnd
    ensures { (result ≡ WordsEnd.NoMemory) ↔ (kind_of error.now ≡ ErrorKind.OutOfMemory) }
{
    match error.kind() {
        ErrorKind::OutOfMemory => WordsEnd::NoMemory,
        _ => WordsEnd::Refused,
    }
}

/// The command that the words behind the program's name state.
///
/// # Errors
///
/// `Refused` comes only where they state none. `NoMemory` comes where memory was refused, whatever they state.
pub fn command(alloc: Global, words: &[String]) -> Result<Command, WordsEnd>
    ensures stated { IfOk result (States (map string_bytes words.now)) }
    ensures no_other { IfOk result (StatesNoOther (map string_bytes words.now)) }
    ensures refused { result ≡ Err WordsEnd.Refused → StatesNone (map string_bytes words.now) }
{
    if has_bare_hyphens(words) {
        return Err(WordsEnd::Refused);
    }
    match application(alloc)?.try_get_matches_from(words) {
        Ok(matches) => met(&matches).ok_or(WordsEnd::Refused),
        Err(error) => Err(end_of(&error)),
    }
}

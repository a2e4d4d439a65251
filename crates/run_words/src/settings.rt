//! The settings that words choose.

ghost use Rattle.std.specs.Prelude.{◌≡◌, ◌≢◌, ℕ, List, map, codes, string_bytes, Some, IfSome, IfNone, IfOk, IsErrOf, false};
ghost use Rattle.clap.specs.Words.{found_of, kind_of, rows_of, subcommand_rows_of};
ghost use Rattle.clap.specs.declared.error.kind.ErrorKind.TheVariants.{OutOfMemory};
ghost use Rattle.run_words.specs.declared.settings.Settings.{Settings};
ghost use Rattle.run_words.specs.declared.settings.WordsFault.TheVariants.{NoMemory};
ghost use Rattle.run_words.specs.Words.{chosen_settings, AreSettingsInRange, Chooses, AreOutsideGrammar};
ghost use Rattle.run_words.specs.Reading.{HaveFlags, HasFlags, MakeSettings, has_separator as have_separator};

use crate::command::program;
use crate::given::{GivenOptions, given_in, number_in};
use clap::error::ErrorKind;
use clap::{ArgMatches, Error};
use std::alloc::{AllocError, Global};

/// What the program is to do.
#[derive(Clone, Copy, PartialEq, Eq)]
pub enum Settings {
    /// Serve a script.
    Run {
        /// How many workers a client may have, from 1 to 64.
        workers: u64,
        /// The budget of the memo, at most 2,000,000.
        memo: u64,
        /// The share of the memo that is reserved for each client, at most 125,000, and at most a sixteenth of
        /// the budget.
        share: u64,
        /// Whether lengths may lie on half units.
        half: bool,
        /// Whether the line of the tally is written.
        tally: bool,
    },
    /// Run the demonstration with this number of parts, from 1 to 200.
    Demo(u64),
}

/// Why words choose no settings.
#[derive(Clone, Copy, Debug, PartialEq, Eq)]
pub enum WordsFault {
    /// The words are outside the grammar.
    BadWords,
    /// Memory ran out.
    NoMemory,
}

impl From<AllocError> for WordsFault {
    ghost from_gives = { λ _ fault. fault ≡ NoMemory };

    fn from(_error: AllocError) -> WordsFault {
        WordsFault::NoMemory
    }
}

// The settings, where the numbers are in their ranges.
fn in_range(settings: Settings) -> Option<Settings>
    ensures found { IfSome result (λ same. (same ≡ settings) × AreSettingsInRange settings) }
    ensures none { IfNone result (AreSettingsInRange settings → ⊥) }
{
    let holds = match settings {
        Settings::Run {
            workers,
            memo,
            share,
            ..
        } => {
            1 <= workers
                && workers <= 64
                && memo <= 2_000_000
                && share <= 125_000
                && 16 * share <= memo
        }
        Settings::Demo(parts) => 1 <= parts && parts <= 200,
    };
    if holds { Some(settings) } else { None }
}

// What was given, and the defaults of the rest.
fn with_defaults(given: GivenOptions) -> Settings
    ensures { result ≡ chosen_settings given }
{
    Settings::Run {
        workers: given.workers.unwrap_or(4),
        memo: given.memo.unwrap_or(500_000),
        share: given.share.unwrap_or(0),
        half: given.half,
        tally: given.tally,
    }
}

// Why clap makes nothing of the words.
fn told(error: &Error) -> WordsFault
    ensures { result ≡ WordsFault.BadWords → kind_of error.now ≢ OutOfMemory }
{
    match error.kind() {
        ErrorKind::OutOfMemory => WordsFault::NoMemory,
        _ => WordsFault::BadWords,
    }
}

// What clap makes of the words, among which no `--` is.
fn parse<'a>(alloc: Global, words: &'a [String]) -> Result<ArgMatches<'a>, WordsFault>
    requires { have_separator (map string_bytes words.now) ≡ false }
    ensures chosen { IfOk result (λ matches. (settings : Settings)
        → Chooses (map string_bytes words.now) settings
        → MakeSettings (subcommand_rows_of matches) settings) }
    ensures made { IfOk result (λ matches. (settings : Settings) → AreSettingsInRange settings
        → MakeSettings (subcommand_rows_of matches) settings
        → Chooses (map string_bytes words.now) settings) }
    ensures flags { IfOk result (λ matches. HasFlags (subcommand_rows_of matches)) }
    ensures refused { IsErrOf result WordsFault.BadWords → AreOutsideGrammar (map string_bytes words.now) }
{
    let command = program(alloc)?;
    match command.try_get_matches_from(words) {
        Ok(matches) => Ok(matches),
        Err(error) => Err(told(&error)),
    }
}

// The settings of what clap found behind `run`.
fn run_settings(run: &ArgMatches<'_>) -> Option<Settings>
    requires { HaveFlags (rows_of (found_of run.now)) }
    ensures found { IfSome result (λ settings.
        MakeSettings (Some (codes "run", rows_of (found_of run.now))) settings
        × AreSettingsInRange settings) }
    ensures only { IfSome result (λ settings. (other : Settings)
        → MakeSettings (Some (codes "run", rows_of (found_of run.now))) other → other ≡ settings) }
    ensures none { IfNone result
        ((settings : Settings) → MakeSettings
        (Some (codes "run", rows_of (found_of run.now))) settings
        → AreSettingsInRange settings → ⊥) }
{
    let given = given_in(run)?;
    in_range(with_defaults(given))
}

// The settings of what clap found behind `demo`.
fn demo_settings(demo: &ArgMatches<'_>) -> Option<Settings>
    ensures found { IfSome result (λ settings.
        MakeSettings (Some (codes "demo", rows_of (found_of demo.now))) settings
        × AreSettingsInRange settings) }
    ensures only { IfSome result (λ settings. (other : Settings)
        → MakeSettings (Some (codes "demo", rows_of (found_of demo.now))) other →
        other ≡ settings) }
    ensures none { IfNone result
        ((settings : Settings) → MakeSettings
        (Some (codes "demo", rows_of (found_of demo.now))) settings
        → AreSettingsInRange settings → ⊥) }
{
    let parts = number_in(demo, "parts")??;
    in_range(Settings::Demo(parts))
}

// The settings of what clap found.
fn settings_in(matches: &ArgMatches<'_>) -> Option<Settings>
    requires { HasFlags (subcommand_rows_of matches.now) }
    ensures found { IfSome result (λ settings. MakeSettings
        (subcommand_rows_of matches.now) settings
        × AreSettingsInRange settings) }
    ensures only { IfSome result (λ settings. (other : Settings)
        → MakeSettings (subcommand_rows_of matches.now) other → other ≡ settings) }
    ensures none { IfNone result
        ((settings : Settings) → MakeSettings (subcommand_rows_of matches.now) settings
        → AreSettingsInRange settings → ⊥) }
{
    let (name, found) = matches.subcommand()?;
    if name == "run" {
        run_settings(found)
    } else if name == "demo" {
        demo_settings(found)
    } else {
        None
    }
}

// Whether one of the words is `--`, behind which clap would take any word for a value.
fn has_separator(words: &[String]) -> bool
    ensures { result ≡ have_separator (map string_bytes words.now) }
{
    for word in words {
        if word.as_str() == "--" {
            return true;
        }
    }
    false
}

/// The settings that the words behind the program's name choose, and `BadWords` exactly where they are outside
/// the grammar, unless memory runs out.
pub fn read_words(alloc: Global, words: &[String]) -> Result<Settings, WordsFault>
    ensures found { IfOk result (λ settings. Chooses (map string_bytes words.now) settings) }
    ensures only { IfOk result (λ settings. (other : Settings)
        → Chooses (map string_bytes words.now) other → other ≡ settings) }
    ensures fault { IsErrOf result WordsFault.BadWords → AreOutsideGrammar (map string_bytes words.now) }
{
    if has_separator(words) {
        return Err(WordsFault::BadWords);
    }
    let matches = parse(alloc, words)?;
    settings_in(&matches).ok_or(WordsFault::BadWords)
}

//! The options of `run` that were given.

ghost use Rattle.std.specs.Prelude.{ℕ, Option, IfSome, IfNone};
ghost use Rattle.clap.specs.Words.{found_of, first_of, rows_of};
ghost use Rattle.run_words.specs.declared.given.GivenOptions.{GivenOptions};
ghost use Rattle.run_words.specs.Reading.{WritesNumberIfThere, WriteOptions, HaveFlags};

use clap::ArgMatches;
use plain_text::read_decimal;

/// The options that were given.
#[derive(Clone, Copy)]
pub struct GivenOptions {
    pub workers: Option<u64>,
    pub memo: Option<u64>,
    pub share: Option<u64>,
    pub half: bool,
    pub tally: bool,
}

/// The number that was given under this name, if one was, and `None` where its text is no numeral.
pub fn number_in(matches: &ArgMatches<'_>, name: &str) -> Option<Option<u64>>
    ensures found { IfSome result (λ number.
        WritesNumberIfThere (first_of name.now (rows_of (found_of matches.now))) number) }
    ensures none { IfNone result
        ((number : Option ℕ) → WritesNumberIfThere (first_of name.now (rows_of (found_of matches.now))) number
        → ⊥) }
{
    match matches.get_str(name) {
        None => Some(None),
        Some(text) => Some(Some(read_decimal(text.as_bytes())?)),
    }
}

/// The options that clap found behind `run`, unless the text of a number is no numeral.
pub fn given_in(run: &ArgMatches<'_>) -> Option<GivenOptions>
    requires { HaveFlags (rows_of (found_of run.now)) }
    ensures found { IfSome result (λ given. WriteOptions (rows_of (found_of run.now)) given) }
    ensures none { IfNone result
        ((given : GivenOptions) → WriteOptions (rows_of (found_of run.now)) given → ⊥) }
{
    Some(GivenOptions {
        workers: number_in(run, "workers")?,
        memo: number_in(run, "memo")?,
        share: number_in(run, "share")?,
        half: run.get_flag("half"),
        tally: run.get_flag("tally"),
    })
}

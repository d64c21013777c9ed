//! The option words of the command line.
ghost use Rattle.std.specs.Prelude.{◌≡◌, ◌<◌, ◌⊎◌, ℕ, List, [], length, map, true, false, Some};
ghost use Rattle.std.specs.Prelude.{None, IfOk, IfErr, IfSome, MatchOption, is_some, string_bytes};
ghost use Rattle.std.specs.Option.{option_map_or};
ghost use Rattle.std.specs.Str.Parse.{digits_value};
ghost use Rattle.clap.specs.Words.{app_of, first_value, found_of, kind_of, rule_of};
ghost use Rattle.flipper_cli.specs.Options.{budget_of, settings_of, with_setting, limit_of};
ghost use Rattle.flipper_cli.specs.Options.{is_fitting, is_short_number, is_number_up_to, is_set, number_text};
ghost use Rattle.flipper_cli.specs.Options.{Setting as SettingOfWords};
ghost use Rattle.flipper_cli.specs.inside.OptionCommand.{option_rule, options_app};
ghost use Rattle.flipper_cli.specs.inside.SeenOptions.{seen_setting};

use crate::coordinates::are_digits;
use clap::error::ErrorKind;
use clap::{Arg, ArgAction, ArgMatches, Command};
use ideal_tri::Memory;
use std::alloc::{AllocError, Global};
use verdict_plan::Budget;

/// An option as the words give it: its name, and the text of its number.
#[derive(Clone, Copy)]
struct Setting<'a> {
    name: &'a str,
    number: &'a str,
}

/// The most digits of an option's number.
const DIGIT_LIMIT: usize = 5;

/// Whether the words are options that the program has, each at most once, with a number in its
/// limit: `--powers N` or `--powers=N`, with N of 1 to 5 digits up to 1,024; `--curves N` or
/// `--curves=N`, with N up to 65,536; and `--tracks N` or `--tracks=N`, with N up to 4,096.
pub(crate) fn fits_options(words: &[String]) -> bool
    ensures { result ≡ is_some (budget_of (map string_bytes words.now)) }
{
    let mut rest = words;
    while let Some((setting, others)) = first_setting(rest) {
        if !is_fitting(setting) || is_set(setting.name, others) {
            return false;
        }
        rest = others;
    }
    rest.is_empty()
}

/// The first setting in the words, and the words behind it.
fn first_setting(words: &[String]) -> Option<(Setting<'_>, &[String])>
    ensures cut { MatchOption result
        ((words.now ≡ []) ⊎ (settings_of (map string_bytes words.now) ≡ None))
        (λ found. settings_of (map string_bytes words.now)
        ≡ with_setting (seen_setting found.0) (settings_of (map string_bytes found.1.now))) }
    ensures shorter { IfSome result (λ found. length found.1.now < length words.now) }
{
    let (word, others) = words.split_first()?;
    let option = word.as_str().strip_prefix("--")?;
    match option.split_once('=') {
        Some((name, number)) => Some((Setting { name, number }, others)),
        None => {
            let (number, others) = others.split_first()?;
            let number = number.as_str();
            Some((
                Setting {
                    name: option,
                    number,
                },
                others,
            ))
        }
    }
}

/// Whether an option of this name is set in the words.
fn is_set(name: &str, words: &[String]) -> bool
    ensures { (settings : List SettingOfWords) → settings_of (map string_bytes words.now) ≡ Some settings
        → result ≡ is_set name.now settings }
{
    let mut rest = words;
    while let Some((setting, others)) = first_setting(rest) {
        if setting.name == name {
            return true;
        }
        rest = others;
    }
    false
}

/// Whether the setting is one of an option that the program has, with a number in its limit.
fn is_fitting(setting: Setting<'_>) -> bool
    ensures { result ≡ is_fitting (seen_setting setting.entry) }
{
    match limit_of(setting.name) {
        Some(limit) => is_number_up_to(limit, setting.number),
        None => false,
    }
}

/// The largest number that the option of this name takes.
fn limit_of(name: &str) -> Option<u32>
    ensures { result ≡ limit_of name.now }
{
    match name {
        "powers" => Some(1024),
        "curves" => Some(65_536),
        "tracks" => Some(4096),
        _ => None,
    }
}

/// Whether the text is 1 to 5 digits, with a value of at most `limit`.
fn is_number_up_to(limit: u32, text: &str) -> bool
    ensures { result ≡ is_number_up_to limit text.now }
{
    is_short_number(text) && number_of_digits(text) <= limit
}

/// Whether the text is 1 to 5 digits.
fn is_short_number(text: &str) -> bool
    ensures { result ≡ is_short_number text.now }
{
    1 <= text.len() && text.len() <= DIGIT_LIMIT && are_digits(text)
}

/// The value of 1 to 5 digits.
fn number_of_digits(digits: &str) -> u32
    requires { is_short_number digits.now ≡ true }
    ensures { result ≡ digits_value 10 digits.now }
{
    digits.parse::<u32>().unwrap_or(0)
}

/// The budget that the words give, which fit: 48 powers, 256 curves and 256 tracks where they say
/// nothing. `clap` reads them, as the options of a command, and can fail for want of memory alone.
pub(crate) fn read_options(alloc: Global, words: &[String]) -> Result<Budget, Memory>
    requires { is_some (budget_of (map string_bytes words.now)) ≡ true }
    ensures { IfOk result (λ budget.
        budget_of (map string_bytes words.now) ≡ Some budget) }
{
    let Ok(matches) = matches_of(alloc, words) else {
        return Err(Memory);
    };
    Ok(Budget {
        powers: number_or(&matches, "powers", 48),
        curves: number_or(&matches, "curves", 256),
        tracks: number_or(&matches, "tracks", 256),
    })
}

/// The number of an option, if `clap` found one.
fn number_or(matches: &ArgMatches<'_>, name: &str, otherwise: u32) -> u32
    requires { IfSome (first_value (found_of matches.now) name.now) (λ text. is_short_number text ≡ true) }
    ensures { result ≡ option_map_or (digits_value 10) (first_value (found_of matches.now) name.now) otherwise }
{
    match matches.get_str(name) {
        Some(digits) => number_of_digits(digits),
        None => otherwise,
    }
}

/// What `clap` finds in the words, which fit: the text of each option's number. Its error can only be
/// want of memory.
fn matches_of(alloc: Global, words: &[String]) -> Result<ArgMatches<'_>, clap::Error>
    requires { is_some (budget_of (map string_bytes words.now)) ≡ true }
    ensures found { IfOk result (λ m. (name : List ℕ) (settings : List SettingOfWords)
        → settings_of (map string_bytes words.now) ≡ Some settings
        → first_value (found_of m) name ≡ number_text name settings) }
    ensures numbers { IfOk result (λ m. (name : List ℕ)
        → IfSome (first_value (found_of m) name) (λ text. is_short_number text ≡ true)) }
    ensures failed { IfErr result (λ e. kind_of e ≡ ErrorKind.OutOfMemory) }
{
    let command = command(alloc)?;
    command.try_get_matches_from(words)
}

/// The command that has the options.
fn command<'a>(alloc: Global) -> Result<Command<'a>, AllocError>
    ensures { IfOk result (λ command. app_of command ≡ options_app) }
{
    Command::new(alloc, "classify")
        .no_binary_name(true)
        .arg(option(alloc, "powers"))?
        .arg(option(alloc, "curves"))?
        .arg(option(alloc, "tracks"))
}

/// The option `--name` with one value.
fn option<'a>(alloc: Global, name: &'a str) -> Arg<'a>
    ensures rule { rule_of result ≡ option_rule name.entry.now }
    ensures own { result.global ≡ false }
{
    Arg::new(alloc, name).long(name).action(ArgAction::Set)
}

#[cfg(test)]
mod tests {
    use super::*;
    use std::test::Fail;

    #[test]
    fn budgets(rt: HostRuntime) -> Result<(), Fail> {
        let alloc = rt.alloc();
        for (line, powers, curves, tracks) in [
            (&[][..], 48, 256, 256),
            (&["--powers", "0"][..], 0, 256, 256),
            (&["--curves=65536"][..], 48, 65_536, 256),
            (&["--tracks", "04096"][..], 48, 256, 4096),
            (
                &["--curves", "007", "--tracks=0", "--powers=1024"][..],
                1024,
                7,
                0,
            ),
        ] {
            let mut words = Vec::new(alloc);
            for word in line {
                words.push(word.to_string(alloc)?)?;
            }
            let budget = Budget {
                powers,
                curves,
                tracks,
            };
            assert!(rt; fits_options(&words));
            assert_eq!(rt; read_options(alloc, &words)?, budget);
        }
        Ok(())
    }
}

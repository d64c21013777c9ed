//! The words of the command line.
ghost use Rattle.std.specs.Prelude.{◌≡◌, MatchOption, Some, None};
ghost use Rattle.std.specs.Prelude.{map, string_bytes};
ghost use Rattle.surface_lib.specs.TwistForms.{hand_spelt};
ghost use Rattle.flipper_cli.specs.Commands.{command, show_command, image_command, is_argument};
ghost use Rattle.flipper_cli.specs.Commands.{twist_command, classify_command, check_command};
ghost use Rattle.flipper_cli.specs.Commands.{source_of};
ghost use Rattle.flipper_cli.specs.inside.SeenCommand.{seen, seen_source, HasBudget};

use crate::options::fits_options;
use surface_lib::Hand;

/// Where a surface comes from.
#[derive(Clone, Copy)]
pub(crate) enum Source<'a> {
    /// The file of this name on the shelf.
    File(&'a str),
    /// The surface of this name that is part of the program.
    Builtin(&'a str),
}

/// What the program is asked for.
#[derive(Clone, Copy)]
pub(crate) enum Command<'a> {
    /// What a surface is.
    Show {
        source: Source<'a>,
    },
    /// The image of a vector under a word in the generators of a surface.
    Image {
        source: Source<'a>,
        word: &'a str,
        coordinates: &'a str,
    },
    /// The steps of the Dehn twist of a hand about a curve.
    Twist {
        source: Source<'a>,
        coordinates: &'a str,
        hand: Hand,
    },
    /// What kind of mapping class a word is, with these options.
    Classify {
        source: Source<'a>,
        word: &'a str,
        options: &'a [String],
    },
    /// Whether the certificate of the file of this name holds for a word.
    Check {
        source: Source<'a>,
        word: &'a str,
        certificate: &'a str,
    },
}

/// The command that the words fit: `show FILE`, `image FILE WORD COORDS`, `twist FILE COORDS HAND`,
/// `classify FILE WORD` and options, or `check FILE WORD CERT`. None of FILE, WORD, COORDS and CERT
/// begins with `-`. A FILE that begins with `@` names a built-in surface behind it; any other is a
/// file's name, and so is each CERT. HAND is `plus` or `minus`.
pub(crate) fn command_of(words: &[String]) -> Option<Command<'_>>
    ensures { MatchOption result (command words.now ≡ None)
        (λ c. (command words.now ≡ Some (seen c)) × HasBudget c) }
{
    match words {
        [name, file] if name.as_str() == "show" => show_command(file.as_str()),
        [name, file, word, options @ ..] if name.as_str() == "classify" => {
            classify_command(file.as_str(), word.as_str(), options)
        }
        [name, file, word, coordinates] if name.as_str() == "image" => {
            image_command(file.as_str(), word.as_str(), coordinates.as_str())
        }
        [name, file, coordinates, hand] if name.as_str() == "twist" => {
            twist_command(file.as_str(), coordinates.as_str(), hand.as_str())
        }
        [name, file, word, certificate] if name.as_str() == "check" => {
            check_command(file.as_str(), word.as_str(), certificate.as_str())
        }
        _ => None,
    }
}

/// The command `show` with this word behind it, if it may stand there.
fn show_command(file: &str) -> Option<Command<'_>>
    ensures { MatchOption result (show_command file.now ≡ None)
        (λ c. (show_command file.now ≡ Some (seen c)) × HasBudget c) }
{
    if is_argument(file) {
        Some(Command::Show {
            source: source_of(file),
        })
    } else {
        None
    }
}

/// The command `image` with these words behind it, if they may stand there.
fn image_command<'a>(file: &'a str, word: &'a str, coordinates: &'a str) -> Option<Command<'a>>
    ensures { MatchOption result (image_command file.now word.now coordinates.now ≡ None)
        (λ c. (image_command file.now word.now coordinates.now ≡ Some (seen c)) × HasBudget c) }
{
    if is_argument(file) && is_argument(word) && is_argument(coordinates) {
        Some(Command::Image {
            source: source_of(file),
            word,
            coordinates,
        })
    } else {
        None
    }
}

/// The command `twist` with these words behind it, if they may stand there.
fn twist_command<'a>(file: &'a str, coordinates: &'a str, hand: &'a str) -> Option<Command<'a>>
    ensures { MatchOption result (twist_command file.now coordinates.now hand.now ≡ None)
        (λ c. (twist_command file.now coordinates.now hand.now ≡ Some (seen c)) × HasBudget c) }
{
    let hand = hand_of(hand)?;
    if is_argument(file) && is_argument(coordinates) {
        Some(Command::Twist {
            source: source_of(file),
            coordinates,
            hand,
        })
    } else {
        None
    }
}

/// The hand that a word names.
fn hand_of(word: &str) -> Option<Hand>
    ensures { result ≡ hand_spelt word.now }
{
    match word {
        "plus" => Some(Hand::Plus),
        "minus" => Some(Hand::Minus),
        _ => None,
    }
}

/// The command `classify` with these words behind it, if they may stand there.
fn classify_command<'a>(file: &'a str, word: &'a str, options: &'a [String]) -> Option<Command<'a>>
    ensures { MatchOption result
        (classify_command file.now word.now (map string_bytes options.now) ≡ None)
        (λ c. (classify_command file.now word.now (map string_bytes options.now) ≡ Some (seen c))
        × HasBudget c) }
{
    if is_argument(file) && is_argument(word) && fits_options(options) {
        Some(Command::Classify {
            source: source_of(file),
            word,
            options,
        })
    } else {
        None
    }
}

/// The command `check` with these words behind it, if they may stand there.
fn check_command<'a>(file: &'a str, word: &'a str, certificate: &'a str) -> Option<Command<'a>>
    ensures { MatchOption result (check_command file.now word.now certificate.now ≡ None)
        (λ c. (check_command file.now word.now certificate.now ≡ Some (seen c)) × HasBudget c) }
{
    if is_argument(file) && is_argument(word) && is_argument(certificate) {
        Some(Command::Check {
            source: source_of(file),
            word,
            certificate,
        })
    } else {
        None
    }
}

/// What a FILE stands for.
fn source_of(file: &str) -> Source<'_>
    ensures { seen_source result ≡ source_of file.now }
{
    match file.strip_prefix('@') {
        Some(name) => Source::Builtin(name),
        None => Source::File(file),
    }
}

/// The text may stand in the place of FILE, WORD, COORDS or CERT: it doesn't begin with `-`.
fn is_argument(text: &str) -> bool
    ensures { result ≡ is_argument text.now }
{
    text.as_bytes().first() != Some(&b'-')
}

#[cfg(test)]
mod tests {
    use super::*;
    use std::alloc::{AllocError, Global};
    use std::test::Fail;

    fn words_of(alloc: Global, line: &str) -> Result<Vec<String>, AllocError> {
        let mut words = Vec::new(alloc);
        for word in line.split(' ') {
            words.push(word.to_string(alloc)?)?;
        }
        Ok(words)
    }

    #[test]
    fn commands(rt: HostRuntime) -> Result<(), Fail> {
        for (line, fits) in [
            ("show torus.json", true),
            ("show @torus", true),
            ("show @", true),
            ("show ./-torus", true),
            ("show ", true),
            ("image torus.json r 1,1,2", true),
            ("image @torus @ @", true),
            ("image torus.json  ", true),
            ("twist torus.json 1,1,0 plus", true),
            ("twist @torus  minus", true),
            ("twist torus.json 1,1,0", false),
            ("twist torus.json 1,1,0 Plus", false),
            ("twist torus.json 1,1,0 plus minus", false),
            ("twist torus.json -1,1,0 plus", false),
            ("twist -torus 1,1,0 plus", false),
            ("twist torus.json 1,1,0 -plus", false),
            ("twist torus.json plus 1,1,0", false),
            ("twist torus.json 1,1,0 --", false),
            ("show", false),
            ("show -torus", false),
            ("show torus.json r", false),
            ("show torus.json r 1,1,2", false),
            ("Show torus.json", false),
            ("image torus.json", false),
            ("image torus.json r", false),
            ("image torus.json r 1 1", false),
            ("images torus.json r 1", false),
            ("image -torus r 1", false),
            ("image torus.json -r 1", false),
            ("image torus.json r -1", false),
            ("classify torus.json r", true),
            ("classify @torus ", true),
            ("classify torus.json r --powers 0", true),
            ("classify torus.json r --powers 1024", true),
            ("classify torus.json r --powers=1", true),
            ("classify torus.json r --powers=007", true),
            ("classify torus.json r --curves 0", true),
            ("classify torus.json r --curves 65536", true),
            ("classify torus.json r --curves=00256", true),
            ("classify torus.json r --powers 1 --curves=1", true),
            ("classify torus.json r --curves 1 --powers=1", true),
            ("classify torus.json r --tracks 0", true),
            ("classify torus.json r --tracks=04096", true),
            (
                "classify torus.json r --tracks 1 --curves=1 --powers 1",
                true,
            ),
            ("classify torus.json", false),
            ("classify torus.json -r", false),
            ("classify -torus r", false),
            ("classify torus.json r --powers", false),
            ("classify torus.json r --powers=", false),
            ("classify torus.json r --powers ", false),
            ("classify torus.json r --powers 1025", false),
            ("classify torus.json r --powers=1025", false),
            ("classify torus.json r --powers 000001", false),
            ("classify torus.json r --powers -1", false),
            ("classify torus.json r --powers 1x", false),
            ("classify torus.json r --powers 1 --powers 1", false),
            ("classify torus.json r --powers=1 --powers=1", false),
            ("classify torus.json r --curves", false),
            ("classify torus.json r --curves=", false),
            ("classify torus.json r --curves 65537", false),
            ("classify torus.json r --curves=65537", false),
            ("classify torus.json r --curves 000001", false),
            ("classify torus.json r --curves 1 --curves 2", false),
            (
                "classify torus.json r --curves 1 --powers 1 --curves=1",
                false,
            ),
            ("classify torus.json r --powers --curves 1", false),
            ("classify torus.json r --tracks", false),
            ("classify torus.json r --tracks=", false),
            ("classify torus.json r --tracks 4097", false),
            ("classify torus.json r --tracks=4097", false),
            ("classify torus.json r --tracks 000001", false),
            ("classify torus.json r --tracks 1 --tracks=1", false),
            ("classify torus.json r --track 1", false),
            ("classify torus.json --powers 1 r", false),
            ("classify --powers 1 torus.json r", false),
            ("classify torus.json r -p 1", false),
            ("classify torus.json r --power 1", false),
            ("classify torus.json r --Powers 1", false),
            ("classify torus.json r --", false),
            ("classify torus.json r -- --powers 1", false),
            ("classify torus.json r s", false),
            ("check torus.json r c.txt", true),
            ("check @torus  @c", true),
            ("check @torus r ", true),
            ("check torus.json r", false),
            ("check torus.json r c.txt d.txt", false),
            ("check torus.json r -c.txt", false),
            ("check torus.json -r c.txt", false),
            ("check -torus r c.txt", false),
            ("check torus.json r --", false),
            ("Check torus.json r c.txt", false),
            ("", false),
        ] {
            let words = words_of(rt.alloc(), line)?;
            assert_eq!(rt; command_of(&words).is_some(), fits, "at {line}");
        }
        Ok(())
    }

    #[test]
    fn parts(rt: HostRuntime) -> Result<(), Fail> {
        let words = words_of(rt.alloc(), "show @torus")?;
        let asked = command_of(&words);
        assert!(rt;
            matches!(
                asked,
                Some(Command::Show {
                    source: Source::Builtin("torus")
                })
            )
        );
        let words = words_of(rt.alloc(), "image torus.json r 1,1,2")?;
        if let Some(
            Command::Image {
                source: Source::File(file),
                word,
                coordinates,
            },
        ) = command_of(&words)
        {
            assert_eq!(rt; file, "torus.json");
            assert_eq!(rt; word, "r");
            assert_eq!(rt; coordinates, "1,1,2");
        } else {
            assert!(rt; false, "the words fit no image of a file");
        }
        Ok(())
    }
}

// The words behind a command, read by clap.
ghost use Rattle.std.specs.Prelude.{◌≡◌, List, ℕ, true, Bool, IfOk, map, string_bytes, codes, option_map};
ghost use Rattle.clap.specs.Walk.{rows_of};
ghost use Rattle.clap.specs.Words.{app_of, is_simple, is_simple_and_free, found_of};
ghost use Rattle.cc_words.specs.Options.{file_app, with_option, told};
ghost use Rattle.cc_words.specs.Given.{Gives, IsGiven};

use clap::error::ErrorKind;
use clap::{Arg, ArgMatches, Command};
use std::alloc::{AllocError, Global};

/// The words for a file and for the number of an option.
#[derive(Clone, Copy, Debug)]
pub struct Given<'a> {
    pub file: Option<&'a str>,
    pub number: Option<&'a str>,
}

// One file, without words for help and version.
fn file_command<'a>(alloc: Global) -> Result<Command<'a>, AllocError>
    ensures { IfOk result (λ command. app_of command ≡ file_app) }
{
    let file = Arg::new(alloc, "file").required(true);
    Command::new(alloc, "cppcli")
        .no_binary_name(true)
        .disable_help_flag(true)
        .disable_version_flag(true)
        .arg(file)
}

// One file, and an option of this name where one is wanted.
fn command_with<'a>(alloc: Global, option: Option<&'a str>) -> Result<Command<'a>, AllocError>
    ensures { IfOk result (λ command. app_of command ≡ with_option (option_map (λ name. name.now) option.entry)) }
{
    let command = file_command(alloc)?;
    match option {
        Some(name) => {
            let option = Arg::new(alloc, name).long(name);
            command.arg(option)
        }
        None => Ok(command),
    }
}

// The value of the option, where there is one.
fn told<'a>(matches: &ArgMatches<'a>, option: Option<&'a str>) -> Option<&'a str>
    ensures { option_map (λ number. number.now) result ≡ told (option_map (λ name. name.now) option.entry) (rows_of (found_of matches.now)) }
{
    match option {
        Some(name) => matches.get_str(name),
        None => None,
    }
}

// What words give that are read as a command says.
fn read_by<'a>(
    command: Command<'a>,
    option: Option<&'a str>,
    words: &'a [String],
) -> Result<Option<Given<'a>>, AllocError>
    requires simple { is_simple (app_of command) ≡ true }
    requires free { is_simple_and_free (app_of command) ≡ true }
    ensures { IfOk result (λ given. Gives (app_of command.entry) (option_map (λ name. name.now) option.entry) (map (λ word. string_bytes word) words.entry.now) given) }
{
    match command.try_get_matches_from(words) {
        Ok(matches) => Ok(Some(Given {
            file: matches.get_str("file"),
            number: told(&matches, option),
        })),
        Err(error) => {
            if error.kind() == ErrorKind::OutOfMemory {
                return Err(AllocError);
            }
            Ok(None)
        }
    }
}

/// What the words behind a command give, which has an option of this name where one is told, or nothing where they are
/// no such words.
pub fn read_options<'a>(
    alloc: Global,
    option: Option<&'a str>,
    words: &'a [String],
) -> Result<Option<Given<'a>>, AllocError>
    requires simple { is_simple (with_option (option_map (λ name. name.now) option)) ≡ true }
    requires free { is_simple_and_free (with_option (option_map (λ name. name.now) option)) ≡ true }
    ensures { IfOk result (λ given. IsGiven (option_map (λ name. name.now) option.entry) (map (λ word. string_bytes word) words.entry.now) given) }
{
    let command = command_with(alloc, option)?;
    read_by(command, option, words)
}

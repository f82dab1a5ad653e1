// The words of the command line.
ghost use Rattle.std.specs.Prelude.{◌≡◌, ◌<◌, ◌^◌, ◌&&◌, ◌+◌, List, ℕ, true, Bool, nat_lt, length, map, not, string_bytes, option_map, is_some, Some, IfOk, IfErr, IfSome, if◌then◌else◌, None, position};
ghost use Rattle.std.specs.Char.{is_ascii_digit};
ghost use Rattle.std.specs.List.{list_all};
ghost use Rattle.std.specs.Str.Parse.{digits_value};
ghost use Rattle.cc_words.specs.Words as spec;
ghost use Rattle.cc_words.specs.Shown.{shown};

use crate::command::{Command, Request};
use crate::options::read_options;
use std::alloc::{AllocError, Global};

/// The instructions that a program may execute where the words don't say.
const DEFAULT_STEPS: u32 = 50_000_000;

fn command_named(word: &str) -> Option<Command>
    ensures { result ≡ spec.command_named word.now }
{
    match word {
        "run" => Some(Command::Run),
        "check" => Some(Command::Check),
        "build" => Some(Command::Build),
        "dump" => Some(Command::Dump),
        "verify" => Some(Command::Verify),
        "mean" => Some(Command::Mean),
        _ => None,
    }
}

// The option with a number that a command has.
fn option_named(command: Command) -> Option<&'static str>
    ensures { option_map (λ name. name.now) result ≡ spec.option_named command }
{
    match command {
        Command::Run => Some("steps"),
        Command::Mean => Some("turns"),
        Command::Check | Command::Build | Command::Dump | Command::Verify => None,
    }
}

fn executes(command: Command) -> bool
    ensures { result ≡ spec.executes command }
{
    match command {
        Command::Run | Command::Mean => true,
        Command::Check | Command::Build | Command::Dump | Command::Verify => false,
    }
}

fn is_divider(word: &str) -> bool
    ensures { result ≡ spec.is_divider word.now }
{
    word == "--"
}

// Where the first `--` stands.
fn divider_in(words: &[String]) -> Option<usize>
    ensures place { result ≡ position (λ word. spec.is_divider (string_bytes word)) words.now }
    ensures within { IfSome result (λ at. at < length words.now) }
{
    words.iter().position(|word| is_divider(word.as_str()))
}

fn words_before(words: &[String], divider: Option<usize>) -> &[String]
    requires { IfSome divider (λ at. at < length words.now) }
    ensures { map (λ word. string_bytes word) result.now ≡ spec.words_before divider (map (λ word. string_bytes word) words.now) }
{
    match divider {
        Some(at) => &words[..at],
        None => words,
    }
}

fn words_behind(words: &[String], divider: Option<usize>) -> &[String]
    requires { IfSome divider (λ at. at < length words.now) }
    ensures { map (λ word. string_bytes word) result.now ≡ spec.words_behind divider (map (λ word. string_bytes word) words.now) }
{
    match divider {
        Some(at) => &words[at + 1..],
        None => &[],
    }
}

fn file_named(word: &str) -> Option<&str>
    ensures { option_map (λ file. file.now) result ≡ spec.file_named word.now }
{
    if word.starts_with('-') {
        None
    } else {
        Some(word)
    }
}

// The file of the words, where there is one.
fn file_given(word: Option<&str>) -> Option<&str>
    ensures { option_map (λ file. file.now) result ≡ spec.file_given (option_map (λ file. file.now) word.entry) }
{
    file_named(word?)
}

fn is_digit(byte: u8) -> bool
    ensures { result ≡ is_ascii_digit byte }
{
    matches!(byte, b'0'..=b'9')
}

fn are_digits(bytes: &[u8]) -> bool
    ensures { result ≡ list_all is_ascii_digit bytes.now }
{
    bytes.iter().all(|byte| is_digit(*byte))
}

fn is_count(word: &str) -> bool
    ensures { result ≡ spec.is_count word.now }
{
    !word.is_empty() && word.len() < 11 && are_digits(word.as_bytes())
}

// The number that digits write, where 32 bits hold it.
fn value_of(word: &str) -> Option<u32>
    requires some { 0 < length word.now }
    requires digits { list_all is_ascii_digit word.now ≡ true }
    ensures { result ≡ (if nat_lt (digits_value 10 word.now) (2 ^ 32) then Some (digits_value 10 word.now) else None) }
{
    match word.parse::<u32>() {
        Ok(value) => Some(value),
        Err(_) => None,
    }
}

fn count_of(word: &str) -> Option<u32>
    ensures { result ≡ spec.count_of word.now }
{
    if is_count(word) { value_of(word) } else { None }
}

// The bound of a command whose words don't tell it: the turns must be told.
fn bound_untold(command: Command) -> Option<u32>
    ensures { result ≡ spec.bound_untold command }
{
    match command {
        Command::Run | Command::Check | Command::Build | Command::Dump | Command::Verify => Some(
            DEFAULT_STEPS,
        ),
        Command::Mean => None,
    }
}

fn bound_given(command: Command, word: Option<&str>) -> Option<u32>
    ensures { result ≡ spec.bound_given command (option_map (λ number. number.now) word.entry) }
{
    match word {
        Some(word) => count_of(word),
        None => bound_untold(command),
    }
}

fn request<'a>(
    command: Command,
    file: Option<&'a str>,
    bound: Option<u32>,
    arguments: &'a [String],
) -> Option<Request<'a>>
    ensures { option_map shown result ≡ spec.joined command (map (λ word. string_bytes word) arguments.entry.now) (option_map (λ file. file.now) file.entry) bound }
{
    let file = file?;
    let bound = bound?;
    Some(Request {
        command,
        file,
        bound,
        arguments,
    })
}

// The words between a command and the arguments of its program.
fn read_between<'a>(
    alloc: Global,
    command: Command,
    words: &'a [String],
    arguments: &'a [String],
) -> Result<Option<Request<'a>>, AllocError>
    ensures { IfOk result (λ request. option_map shown request ≡ spec.line_between command (map (λ word. string_bytes word) words.entry.now) (map (λ word. string_bytes word) arguments.entry.now)) }
{
    match read_options(alloc, option_named(command), words)? {
        Some(given) => Ok(request(
            command,
            file_given(given.file),
            bound_given(command, given.number),
            arguments,
        )),
        None => Ok(None),
    }
}

// A divider behind a command whose program has no arguments.
fn is_stray(command: Command, divider: Option<usize>) -> bool
    ensures { result ≡ spec.is_stray command divider }
{
    divider.is_some() && !executes(command)
}

// The words behind a command.
fn read_behind(
    alloc: Global,
    command: Command,
    words: &[String],
) -> Result<Option<Request<'_>>, AllocError>
    ensures { IfOk result (λ request. option_map shown request ≡ spec.line_behind (Some command) (map (λ word. string_bytes word) words.now)) }
{
    let divider = divider_in(words);
    if is_stray(command, divider) {
        return Ok(None);
    }
    let before = words_before(words, divider);
    let behind = words_behind(words, divider);
    read_between(alloc, command, before, behind)
}

/// The command that the words ask for, `None` exactly where they are no command. The first word names it. For `run` and
/// `mean` the words behind the first `--` are the program's arguments; no other command has `--`. The words between are
/// one FILE, which doesn't begin with `-`, for `run` at most once `--steps N` or `--steps=N`, and for `mean` once
/// `--turns N` or `--turns=N`, where N is one to ten digits below 4,294,967,296. It takes no memory where there are no
/// words or the first is no command.
pub fn read_words(alloc: Global, words: &[String]) -> Result<Option<Request<'_>>, AllocError>
    ensures exact { IfOk result (λ request. option_map shown request ≡ spec.command_line (map (λ word. string_bytes word) words.now)) }
    ensures memory { IfErr result (λ _. is_some (spec.first_command (map (λ word. string_bytes word) words.now)) ≡ true) }
{
    let [first, rest @ ..] = words else {
        return Ok(None);
    };
    match command_named(first.as_str()) {
        Some(command) => read_behind(alloc, command, rest),
        None => Ok(None),
    }
}

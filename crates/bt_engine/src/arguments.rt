//! The arguments of the command line.
ghost use Rattle.std.specs.Prelude.{◌≡◌, ◌≢◌, ◌⊎◌, [], false, IfErr, IfOk, IsErrOf, OnOk, codes, map, option_map, string_bytes};
ghost use Rattle.clap.specs.Words.{FailsBy, IsParsedFrom, app_of, first_value, found_of, kind_of, rows_of, rule_of};
ghost use Rattle.clap.specs.declared.builder.command.Command.{Command};
ghost use Rattle.bt_script.specs.Options.{AreWithinLimits, default_cut, default_grain, default_workers, number_rule, option_rule};
ghost use Rattle.bt_engine.specs.Options.{ComesOf, HasFault, IsFrameLimit, MustBeRefused, NamesNoFile, betable_engine, default_most, kinds_of_arguments, number_given, path_given, rows_of_arguments};

use bt_gang::{DEEPEST_CUT, LARGEST_GRAIN, MOST_WORKERS};
use bt_script::WordsError;
use bt_value::Texts;
use clap::builder::ValueParser;
use clap::error::ErrorKind;
use clap::{Arg, ArgAction, ArgMatches, Command, Error};
use std::alloc::{AllocError, Global};

/// The number of workers if the arguments name none.
pub(crate) const DEFAULT_WORKERS: usize = 4;
/// The depth at which trees are cut into jobs if the arguments name none.
pub(crate) const DEFAULT_CUT: usize = 2;
/// The grain if the arguments name none.
pub(crate) const DEFAULT_GRAIN: usize = 64;
/// The most bytes of a request if the arguments name no limit: those of a script.
pub(crate) const DEFAULT_MOST: usize = 67_108_864;
/// The largest limit, 1 TiB.
pub(crate) const LARGEST_MOST: usize = 1_099_511_627_776;

/// The settings that the arguments of the command line give.
#[derive(Drop)]
pub struct EngineWords {
    /// The number of threads that work, including the caller.
    pub workers: usize,
    /// The depth at which trees are cut into jobs.
    pub cut: usize,
    /// The number of messages from which on a packet is divided into jobs.
    pub grain: usize,
    /// The most bytes of the payload of a request.
    pub most: usize,
    /// The path of the file that keeps the table.
    pub keep: Option<String>,
}

// The help text of each option: what it does, and when to change it.
const WORKERS_HELP: &str =
    "Works in N threads, 1 to 64 (default 4); take 1 for requests of few changes";

const CUT_HELP: &str =
    "Cuts trees into jobs at depth D, 1 to 6 (default 2); take more for more, smaller jobs; changes no reply";

const GRAIN_HELP: &str =
    "Divides packets of G messages or more into jobs, 1 to 65536 (default 64); changes no reply";

const MOST_HELP: &str =
    "Answers a request of more than N bytes by TooLong, 1 to 1099511627776 (default 67108864)";

const KEEP_HELP: &str =
    "Keeps the table in a file: a reply is written once its changes are on the disk; without it the table ends with the process";

// The help text after the options: the frames.
const FRAMES: &str = "\
Requests are read from standard input, and their replies are written to standard output, in frames:
the letters BTF, a byte 1, the length of the payload in eight bytes, the kind in one byte, and the payload. Numbers are little endian.
Requests: 1 script, 2 check, 3 apply, 4 get, 5 page, 6 last page, 7 sums, 8 columns, 9 usage, 10 trees, 11 explain; with --keep also 12 once.
Replies: 0 done, 1 refused, 2 invalid.";

// An option of one value, by its long name.
fn option<'a>(alloc: Global, name: &'a str, value: &'a str, help: &'a str) -> Arg<'a>
    ensures rule { rule_of result ≡ option_rule name.entry.now }
    ensures local { result.global ≡ false }
{
    Arg::new(alloc, name)
        .long(name)
        .action(ArgAction::Set)
        .value_name(value)
        .help(help)
}

// An option of a whole number from 1 to `most`, by its long name.
fn number_option<'a>(
    alloc: Global,
    name: &'a str,
    value: &'a str,
    most: usize,
    help: &'a str,
) -> Arg<'a>
    ensures rule { rule_of result ≡ number_rule name.entry.now most }
    ensures local { result.global ≡ false }
{
    option(alloc, name, value, help).value_parser(ValueParser::unsigned(1, most as u64))
}

// The program's command line.
fn command<'a>(alloc: Global) -> Result<Command<'a>, AllocError>
    ensures { IfOk result (λ command. app_of command ≡ betable_engine) }
{
    Command::new(alloc, "betable_engine")
        .about("Answers requests to a table until its input ends")
        .after_help(FRAMES)
        .arg(number_option(alloc, "workers", "N", MOST_WORKERS, WORKERS_HELP))?
        .arg(number_option(alloc, "cut", "D", DEEPEST_CUT, CUT_HELP))?
        .arg(number_option(alloc, "grain", "G", LARGEST_GRAIN, GRAIN_HELP))?
        .arg(number_option(alloc, "most-frame", "N", LARGEST_MOST, MOST_HELP))?
        .arg(option(alloc, "keep", "PATH", KEEP_HELP))
}

// The result of clap for the arguments.
#[tactic(auto, unfolding(crate::specs::Options::kinds_of_arguments))]
fn parse<'a>(alloc: Global, arguments: &'a [String]) -> Result<ArgMatches<'a>, Error>
    ensures rows { IfOk result (λ matches. rows_of (found_of matches) ≡ rows_of_arguments (map string_bytes arguments.entry.now)) }
    ensures kinds { FailsBy (kinds_of_arguments (map string_bytes arguments.entry.now)) result }
    ensures parsed { IfOk result (λ matches. (command : Command) × (app_of command ≡ betable_engine) × IsParsedFrom command matches) }
{
    command(alloc)?.try_get_matches_from(arguments)
}

// The text of an option, if it is given.
fn text_of(
    alloc: Global,
    matches: &ArgMatches<'_>,
    name: &str,
) -> Result<Option<String>, AllocError>
    ensures { IfOk result (λ text. option_map string_bytes text ≡ first_value (found_of matches.now) name.now) }
{
    match matches.get_str(name) {
        Some(text) => Ok(Some(String::from_str(alloc, text)?)),
        None => Ok(None),
    }
}

// The error for an error of clap.
fn arguments_error(alloc: Global, error: &Error) -> WordsError
    ensures { ComesOf (kind_of error.now) result }
{
    match error.kind() {
        ErrorKind::OutOfMemory => WordsError::OutOfMemory,
        ErrorKind::DisplayHelp => match format!(in alloc; "{error}") {
            Ok(text) => WordsError::Help(text),
            Err(AllocError) => WordsError::OutOfMemory,
        },
        _ => WordsError::Faulty,
    }
}

/// The settings that the arguments of the command line give; the first word is the program's name.
pub fn read_engine_words(alloc: Global, arguments: &Texts) -> Result<EngineWords, WordsError>
    ensures workers { IfOk result (λ settings. settings.workers ≡ number_given (codes "workers") default_workers arguments.now) }
    ensures cut { IfOk result (λ settings. settings.cut ≡ number_given (codes "cut") default_cut arguments.now) }
    ensures grain { IfOk result (λ settings. settings.grain ≡ number_given (codes "grain") default_grain arguments.now) }
    ensures most { IfOk result (λ settings. settings.most ≡ number_given (codes "most-frame") default_most arguments.now) }
    ensures keep { IfOk result (λ settings. option_map string_bytes settings.keep ≡ path_given arguments.now) }
    ensures within { IfOk result (λ settings. AreWithinLimits settings.workers settings.cut settings.grain × IsFrameLimit settings.most) }
    ensures ok { OnOk result (kinds_of_arguments arguments.now ≡ []) }
    ensures err { IfErr result (HasFault arguments.now) }
    ensures unkept { IfErr result (λ fault. fault ≢ WordsError.OutOfMemory → NamesNoFile arguments.now) }
    ensures faulty { MustBeRefused arguments.now → (IsErrOf result WordsError.Faulty) ⊎ (IsErrOf result WordsError.OutOfMemory) }
{
    match parse(alloc, arguments.as_slice()) {
        Ok(matches) => Ok(EngineWords {
            keep: text_of(alloc, &matches, "keep")?,
            workers: matches.get_one("workers").unwrap_or(DEFAULT_WORKERS),
            cut: matches.get_one("cut").unwrap_or(DEFAULT_CUT),
            grain: matches.get_one("grain").unwrap_or(DEFAULT_GRAIN),
            most: matches.get_one("most-frame").unwrap_or(DEFAULT_MOST),
        }),
        Err(error) => Err(arguments_error(alloc, &error)),
    }
}

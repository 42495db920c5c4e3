//! The arguments of the command line.
ghost use Rattle.std.specs.Prelude.{◌≡◌, ◌⊎◌, [], false, IfOk, IfErr, IsErrOf, OnOk, codes, map, option_map, string_bytes};
ghost use Rattle.clap.specs.Words.{FailsBy, IsParsedFrom, app_of, first_of, first_value, found_of, kind_of, rows_of, rule_of};
ghost use Rattle.clap.specs.declared.builder.command.Command.{Command};
ghost use Rattle.bt_script.specs.inside.Errors.{ComesOf};
ghost use Rattle.bt_script.specs.Options.{AreWithinLimits, HasFault, MustBeRefused, betable, default_cut, default_grain, default_workers, kinds_of_arguments, number_given, number_rule, option_rule, rows_of_arguments};

use bt_gang::{DEEPEST_CUT, LARGEST_GRAIN, MOST_WORKERS};
use bt_value::Texts;
use clap::builder::ValueParser;
use clap::error::ErrorKind;
use clap::{Arg, ArgAction, ArgMatches, Command, Error};
use std::alloc::{AllocError, Global};

/// The number of workers if the arguments name none.
pub(crate) const DEFAULT_WORKERS: usize = 4;
/// The depth at which trees are cut into jobs if the arguments name none.
pub(crate) const DEFAULT_CUT: usize = 2;
/// The grain if the arguments name none.
pub(crate) const DEFAULT_GRAIN: usize = 64;

/// The settings that the arguments of the command line give.
#[derive(Drop)]
pub struct Words {
    /// The file of the script, if one is named. Otherwise the script is the standard input.
    pub script: Option<String>,
    /// The number of threads that work, including the caller.
    pub workers: usize,
    /// The depth at which trees are cut into jobs.
    pub cut: usize,
    /// The number of messages from which on a packet is divided into jobs.
    pub grain: usize,
}

/// Why there is nothing to run.
#[derive(Drop)]
pub enum WordsError {
    /// An unknown option, an option given twice or without its value, a value that is not a number or is outside its limits, or an extra word.
    Faulty,
    /// The arguments ask for help; this is the text to print.
    Help(String),
    /// An allocation failed.
    OutOfMemory,
}

impl From<AllocError> for WordsError {
    ghost use Rattle.std.specs.Prelude.{◌≡◌};
    ghost use Rattle.bt_script.specs.declared.arguments.WordsError.TheVariants.{OutOfMemory};

    ghost from_gives = { λ _ e. e ≡ OutOfMemory };

    fn from(_e: AllocError) -> WordsError {
        WordsError::OutOfMemory
    }
}

// The help text of each option: what it does, and when to change it.
const SCRIPT_HELP: &str = "Reads the script from FILE and not from standard input";

const WORKERS_HELP: &str =
    "Works in N threads, 1 to 64 (default 4); take 1 for scripts of small batches";

const CUT_HELP: &str =
    "Cuts trees into jobs at depth D, 1 to 6 (default 2); take more for more, smaller jobs; changes no reply";

const GRAIN_HELP: &str =
    "Divides packets of G messages or more into jobs, 1 to 65536 (default 64); changes no reply";

// The help text after the options: the commands of a script.
const COMMANDS: &str = "\
A script is a list of commands:
  table F C L K name:kind ..  makes the table: fanout, buffer and leaf of its tree, number of key columns, columns
  load                        fills an empty table with the CSV lines up to '.', of which the first one names the columns
  batch                       applies the lines up to 'end': put RECORD, del KEY, ups KEY,OPERATIONS
  get KEY                     prints the row of a key
  scan TREE                   prints the rows of a tree, in the bounds of the lines up to 'go': from KEY, to KEY
  sums TREE G COLUMN          counts rows and sums a column, by the first G columns of the key; bounds as of scan
  image TREE                  prints the nodes of a tree: 'primary', or an index
  index NAME on COLUMNS ..    makes an index: include COLUMNS, where COLUMN = < or >= RECORD
  build NAME N                reads the next N rows into an index
  drop NAME                   takes an index away
  drain TREE                  empties the buffers of a tree
  rebuild TREE                packs the rows of a tree from scratch
A kind is int, text, flag or bytes.
An operation is set, add, max or min, followed by a column and its argument.
A command that cannot be carried out is answered by 'refused', a number and a name.
docs/SCRIPT.md has the whole language, and examples/ has scripts.";

// An option of one value, by its long name.
fn option<'a>(alloc: Global, name: &'a str, value: &'a str, help: &'a str) -> Arg<'a>
    ensures rule { rule_of result ≡ option_rule name.entry.now }
    ensures local { result.global ≡ false }
{
    Arg::new(alloc, name)
        .long(name)
        .action(ArgAction::Set)
        .value_name(value)
        .help(help)
}

// An option of a whole number from 1 to `most`.
fn number_option<'a>(
    alloc: Global,
    name: &'a str,
    value: &'a str,
    most: usize,
    help: &'a str,
) -> Arg<'a>
    ensures rule { rule_of result ≡ number_rule name.entry.now most }
    ensures local { result.global ≡ false }
{
    option(alloc, name, value, help).value_parser(ValueParser::unsigned(1, most as u64))
}

// The program's command line.
fn command<'a>(alloc: Global) -> Result<Command<'a>, AllocError>
    ensures { IfOk result (λ command. app_of command ≡ betable) }
{
    Command::new(alloc, "betable")
        .about("Runs a script of table commands")
        .after_help(COMMANDS)
        .arg(option(alloc, "script", "FILE", SCRIPT_HELP))?
        .arg(number_option(alloc, "workers", "N", MOST_WORKERS, WORKERS_HELP))?
        .arg(number_option(alloc, "cut", "D", DEEPEST_CUT, CUT_HELP))?
        .arg(number_option(alloc, "grain", "G", LARGEST_GRAIN, GRAIN_HELP))
}

// The result of clap for the arguments.
#[tactic(auto, unfolding(crate::specs::Options::kinds_of_arguments))]
fn parse<'a>(alloc: Global, arguments: &'a [String]) -> Result<ArgMatches<'a>, Error>
    ensures rows { IfOk result (λ matches. rows_of (found_of matches) ≡ rows_of_arguments (map string_bytes arguments.entry.now)) }
    ensures kinds { FailsBy (kinds_of_arguments (map string_bytes arguments.entry.now)) result }
    ensures parsed { IfOk result (λ matches. (command : Command) × (app_of command ≡ betable) × IsParsedFrom command matches) }
{
    command(alloc)?.try_get_matches_from(arguments)
}

// The text of an option, if it is given.
fn text_of(
    alloc: Global,
    matches: &ArgMatches<'_>,
    name: &str,
) -> Result<Option<String>, AllocError>
    ensures { IfOk result (λ text. option_map string_bytes text ≡ first_value (found_of matches.now) name.now) }
{
    match matches.get_str(name) {
        Some(text) => Ok(Some(String::from_str(alloc, text)?)),
        None => Ok(None),
    }
}

// The error for an error of clap.
fn arguments_error(alloc: Global, error: &Error) -> WordsError
    ensures { ComesOf (kind_of error.now) result }
{
    match error.kind() {
        ErrorKind::OutOfMemory => WordsError::OutOfMemory,
        ErrorKind::DisplayHelp => match format!(in alloc; "{error}") {
            Ok(text) => WordsError::Help(text),
            Err(AllocError) => WordsError::OutOfMemory,
        },
        _ => WordsError::Faulty,
    }
}

/// The settings that the arguments of the command line give; the first word is the program's name.
pub fn read_words(alloc: Global, arguments: &Texts) -> Result<Words, WordsError>
    ensures script { IfOk result (λ settings. option_map string_bytes settings.script ≡ first_of (codes "script") (rows_of_arguments arguments.now)) }
    ensures workers { IfOk result (λ settings. settings.workers ≡ number_given (codes "workers") default_workers arguments.now) }
    ensures cut { IfOk result (λ settings. settings.cut ≡ number_given (codes "cut") default_cut arguments.now) }
    ensures grain { IfOk result (λ settings. settings.grain ≡ number_given (codes "grain") default_grain arguments.now) }
    ensures within { IfOk result (λ settings. AreWithinLimits settings.workers settings.cut settings.grain) }
    ensures ok { OnOk result (kinds_of_arguments arguments.now ≡ []) }
    ensures err { IfErr result (HasFault arguments.now) }
    ensures faulty { MustBeRefused arguments.now → (IsErrOf result WordsError.Faulty) ⊎ (IsErrOf result WordsError.OutOfMemory) }
{
    match parse(alloc, arguments.as_slice()) {
        Ok(matches) => Ok(Words {
            script: text_of(alloc, &matches, "script")?,
            workers: matches.get_one("workers").unwrap_or(DEFAULT_WORKERS),
            cut: matches.get_one("cut").unwrap_or(DEFAULT_CUT),
            grain: matches.get_one("grain").unwrap_or(DEFAULT_GRAIN),
        }),
        Err(error) => Err(arguments_error(alloc, &error)),
    }
}

// The words of a call, as `clap` reads them.

ghost use Rattle.std.specs.Prelude.{◌≡◌, ◌⊎◌, ◌<◌, ◌≤◌, ◌^◌, IfErr, IfOk, length, map, min};
ghost use Rattle.std.specs.Prelude.{option_map, string_bytes};
ghost use Rattle.std.specs.Option.{ForSome};
ghost use Rattle.clap.specs.Words.{first_of, found_of, kind_of, rows_of};
ghost use Rattle.b3_io.specs.Options.{max_output_len};
ghost use Rattle.b3_program.specs.declared.stop.Stop.TheVariants.{Memory, TooManyFiles};
ghost use Rattle.b3_arguments.specs.Readings.{AreFrom, AreOf, files_in};
ghost use Rattle.b3_arguments.specs.Refusals.{IsStopFor, IsStopOver};

use crate::command::command;
use b3_io::MAX_OUTPUT_LEN;
use b3_program::{Stop, Words};
use clap::ArgMatches;
use clap::error::ErrorKind;
use std::alloc::{AllocError, Global};

/// The greatest number of files that a call may name.
const MAX_FILES: usize = 1 << 30;

/// Reads the words, of which the first is the program's own name.
pub fn read_words(alloc: Global, words: &[String]) -> Result<Words, Stop>
    ensures words { IfOk result (AreFrom (map string_bytes words.now)) }
    ensures stop { IfErr result (IsStopOver (map string_bytes words.now)) }
{
    match command(alloc)?.try_get_matches_from(words) {
        Ok(matches) => words_of(alloc, &matches),
        Err(error) => Err(stop_for(alloc, &error)),
    }
}

// What the words say that `clap` takes.
fn words_of(alloc: Global, matches: &ArgMatches) -> Result<Words, Stop>
    ensures words { IfOk result (AreOf (rows_of (found_of matches.now))) }
    ensures stop { IfErr result (λ stop. (stop ≡ Memory)
        ⊎ ((stop ≡ TooManyFiles) × (2 ^ 30 < length (files_in (rows_of (found_of matches.now)))))) }
{
    let files = files(alloc, matches)?;
    if files.len() > MAX_FILES {
        return Err(Stop::TooManyFiles);
    }
    Ok(Words {
        check: matches.get_flag("check"),
        keyed: matches.get_flag("keyed"),
        derive_key: value_of(alloc, matches, "derive-key")?,
        length: within_output(matches.get_one::<u32>("length")),
        seek: matches.get_one::<u64>("seek"),
        raw: matches.get_flag("raw"),
        no_names: matches.get_flag("no-names"),
        tag: matches.get_flag("tag"),
        quiet: matches.get_flag("quiet"),
        ignore_missing: matches.get_flag("ignore-missing"),
        status: matches.get_flag("status"),
        strict: matches.get_flag("strict"),
        warn: matches.get_flag("warn"),
        num_threads: matches.get_one::<u16>("num-threads"),
        files0_from: value_of(alloc, matches, "files0-from")?,
        progress: matches.get_flag("progress"),
        files,
    })
}

// No greater number passes the parser.
fn within_output(length: Option<u32>) -> Option<u32>
    ensures bounded { result ≡ option_map (λ n. min n max_output_len) length }
    ensures most { ForSome result (λ n. n ≤ max_output_len) }
{
    Some(length?.min(MAX_OUTPUT_LEN))
}

// Why `clap` gives no matches: its own text, if there is memory for it.
fn stop_for(alloc: Global, error: &clap::Error) -> Stop
    ensures { IsStopFor (kind_of error.now) result }
{
    if error.kind() == ErrorKind::OutOfMemory {
        return Stop::Memory;
    }
    match text_of(alloc, error) {
        Ok(text) if error.use_stderr() => Stop::Refused(text),
        Ok(text) => Stop::Asked(text),
        Err(AllocError) => Stop::Memory,
    }
}

// The text of a fault, without the tips, and of help or version. A tip guesses by letters alone: of `-1` it makes the
// name of a file, and of another program's option one of this program's.
fn text_of(alloc: Global, error: &clap::Error) -> Result<String, AllocError> {
    let text = format!(in alloc; "{error}")?;
    let Some((fault, tips)) = text.as_str().split_once("\n\n  tip:") else {
        return Ok(text);
    };
    let help = match tips.rsplit_once("\n\n") {
        Some((_usage, help)) => help,
        None => "",
    };
    format!(in alloc; "{fault}\n\n{help}")
}

// The value of an option, if it is given.
fn value_of(alloc: Global, matches: &ArgMatches, option: &str) -> Result<Option<String>, AllocError>
    ensures { IfOk result (λ value. option_map string_bytes value
        ≡ first_of option.now (rows_of (found_of matches.now))) }
{
    match matches.get_str(option) {
        Some(value) => Ok(Some(String::from_str(alloc, value)?)),
        None => Ok(None),
    }
}

fn files(alloc: Global, matches: &ArgMatches) -> Result<Vec<String>, AllocError>
    ensures { IfOk result (λ files. map string_bytes files.items ≡ files_in (rows_of (found_of matches.now))) }
{
    match matches.get_strs("FILE") {
        Some(words) => strings(alloc, words),
        None => Ok(Vec::new(alloc)),
    }
}

fn strings(alloc: Global, words: &[&str]) -> Result<Vec<String>, AllocError>
    ensures { IfOk result (λ strings. map string_bytes strings.items ≡ map (λ word. word.now) words.now) }
{
    let mut strings = Vec::new(alloc);
    for word in words {
        strings.push(String::from_str(alloc, word)?)?;
    }
    Ok(strings)
}

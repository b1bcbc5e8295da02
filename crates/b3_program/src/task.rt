ghost use Rattle.std.specs.Prelude.{◌≡◌, None, Some, IfErr, IfOk};
ghost use Rattle.std.specs.List.{list_any};
ghost use Rattle.std.specs.Option.{option_map, option_map_or};
ghost use Rattle.b3_program.specs.Tasks.{check_options, form_of, key_of, limits_for, names_for, sum_options, task_for, workers_of};
ghost use Rattle.b3_program.specs.declared.task.Job.TheVariants.{Sum, Check};
ghost use Rattle.b3_program.specs.declared.task.Names.TheVariants.{Files, InList};
ghost use Rattle.b3_program.specs.Usages.{excluded_by_check, excluded_by_tag, first_given, is_input, is_input_meant, reads_input, refusal_for, refusal_for_output, refusal_of_files, refusal_without_check, seeks_past_end, usage_text};

use crate::usage::Usage;
use crate::words::Words;
use b3_io::{CheckOptions, Form, INPUT_NAME, KeyChoice, Limits, SumOptions};

/// The number of output bytes where no word says another.
const DEFAULT_LENGTH: u32 = 32;

/// The first byte of the output that is written where no word says another.
const DEFAULT_SEEK: u64 = 0;

/// The number of threads where no word says another.
const DEFAULT_THREADS: u32 = 4;

/// The most threads, as many as a pool takes, where a word asks for more.
const MAX_THREADS: u32 = 64;

/// How many reads a file may take.
const TURNS: u64 = 1 << 40;

/// How many bytes a list may have.
const LARGEST: u64 = 1 << 30;

/// What is done over files.
#[derive(Debug, Drop)]
pub enum Job {
    /// Their digests are written.
    Sum(SumOptions),
    /// The lists in them are checked.
    Check(CheckOptions),
}

impl Job {
    /// How much of a file is read.
    pub fn limits(&self) -> Limits
        ensures { result ≡ limits_for self.now }
    {
        match self {
            Job::Sum(options) => Limits {
                turns: options.turns,
                largest: options.largest,
            },
            Job::Check(options) => Limits {
                turns: options.turns,
                largest: options.largest,
            },
        }
    }
}

/// Where the names of the files are.
#[derive(Debug, Drop)]
pub enum Names {
    /// They were given.
    Files(Vec<String>),
    /// They are in the list of this name.
    InList(String),
}

/// What a call asks for.
#[derive(Debug, Drop)]
pub struct Task {
    pub job: Job,
    pub names: Names,
}

/// Decides what the words of a call ask for. It takes no memory.
pub fn settle(words: Words) -> Result<Task, Usage>
    ensures usage { IfErr result (λ usage. refusal_for words ≡ Some (usage_text usage)) }
    ensures task { IfOk result (λ task. (refusal_for words ≡ None) × (task ≡ task_for words)) }
{
    if let Some(usage) = refusal(&words) {
        return Err(usage);
    }
    Ok(if words.check {
        check_task(words)
    } else {
        sum_task(words)
    })
}

// The first refusal that holds of the words, in the order of `refusal_for`, which decides.
fn refusal(words: &Words) -> Option<Usage>
    ensures { option_map usage_text result ≡ refusal_for words.now }
{
    if words.check {
        if let Some(option) = excluded_by_check(words) {
            return Some(Usage::CheckExcludes(option));
        }
    }
    if words.keyed && words.derive_key.is_some() {
        return Some(Usage::TwoKeys);
    }
    if words.quiet && !words.check {
        return Some(Usage::QuietAlone);
    }
    if words.raw && words.files.len() > 1 {
        return Some(Usage::RawOne);
    }
    if words.keyed && reads_input(words) {
        return Some(Usage::KeyNeedsFiles);
    }
    refusal_of_output(words)
}

// The first refusal that holds of what is to be written, and of words that only a check takes.
fn refusal_of_output(words: &Words) -> Option<Usage>
    ensures { option_map usage_text result ≡ refusal_for_output words.now }
{
    if words.tag {
        if let Some(option) = excluded_by_tag(words) {
            return Some(Usage::TagExcludes(option));
        }
    }
    if seeks_past_end(words) {
        return Some(Usage::SeekPastEnd);
    }
    if words.check {
        return refusal_of_files(words);
    }
    refusal_without_check(words)
}

// The first refusal that holds of words for a check, where nothing is checked.
fn refusal_without_check(words: &Words) -> Option<Usage>
    ensures { option_map usage_text result ≡ refusal_without_check words.now }
{
    if words.ignore_missing {
        Some(Usage::IgnoreMissingAlone)
    } else if words.status {
        Some(Usage::StatusAlone)
    } else if words.strict {
        Some(Usage::StrictAlone)
    } else if words.warn {
        Some(Usage::WarnAlone)
    } else {
        refusal_of_files(words)
    }
}

// The refusal of files beside a list of names.
fn refusal_of_files(words: &Words) -> Option<Usage>
    ensures { option_map usage_text result ≡ refusal_of_files words.now }
{
    if words.files0_from.is_some() && !words.files.is_empty() {
        return Some(Usage::ListTakesNoFile);
    }
    None
}

// The first option that is given and goes with no check.
fn excluded_by_check(words: &Words) -> Option<&'static str>
    ensures { option_map (λ option. option.now) result ≡ first_given (excluded_by_check words.now) }
{
    if words.keyed {
        Some("--keyed")
    } else if words.derive_key.is_some() {
        Some("--derive-key")
    } else if words.length.is_some() {
        Some("--length")
    } else if words.seek.is_some() {
        Some("--seek")
    } else if words.raw {
        Some("--raw")
    } else if words.no_names {
        Some("--no-names")
    } else if words.tag {
        Some("--tag")
    } else {
        None
    }
}

// The first option that is given and goes with no tagged lines.
fn excluded_by_tag(words: &Words) -> Option<&'static str>
    ensures { option_map (λ option. option.now) result ≡ first_given (excluded_by_tag words.now) }
{
    if words.raw {
        Some("--raw")
    } else if words.no_names {
        Some("--no-names")
    } else {
        None
    }
}

// Whether bytes are asked for that lie past the end of the output.
fn seeks_past_end(words: &Words) -> bool
    ensures { result ≡ seeks_past_end words.now }
{
    let length = words.length.unwrap_or(DEFAULT_LENGTH);
    words
        .seek
        .unwrap_or(DEFAULT_SEEK)
        .checked_add(u64::from(length))
        .is_none()
}

// Whether standard input is to be read for more than a key.
fn reads_input(words: &Words) -> bool
    ensures { result ≡ reads_input words.now }
{
    is_input_meant(words) || includes_input(words.files.as_slice())
}

// Whether standard input is the list of names, or there is neither a list nor a file.
fn is_input_meant(words: &Words) -> bool
    ensures { result ≡ is_input_meant words.now }
{
    match &words.files0_from {
        Some(list) => list.as_str() == INPUT_NAME,
        None => words.files.is_empty(),
    }
}

// Whether standard input is one of the files.
fn includes_input(files: &[String]) -> bool
    ensures { result ≡ list_any is_input files.now }
{
    files.iter().any(|file| file.as_str() == INPUT_NAME)
}

fn check_options(words: &Words) -> CheckOptions
    ensures { result ≡ check_options words.now }
{
    CheckOptions {
        quiet: words.quiet,
        ignore_missing: words.ignore_missing,
        status: words.status,
        strict: words.strict,
        warn: words.warn,
        workers: workers(words.num_threads),
        turns: TURNS,
        largest: LARGEST,
    }
}

// The files, or the list in which their names are.
fn names_from(list: Option<String>, files: Vec<String>) -> Names
    ensures { result ≡ option_map_or InList list (Files files) }
{
    match list {
        Some(list) => Names::InList(list),
        None => Names::Files(files),
    }
}

fn check_task(words: Words) -> Task
    ensures { result ≡ record { job = Check (check_options words); names = names_for words } }
{
    let job = Job::Check(check_options(&words));
    let Words {
        files0_from,
        files,
        ..
    } = words;
    Task {
        job,
        names: names_from(files0_from, files),
    }
}

fn sum_task(words: Words) -> Task
    ensures { result ≡ record { job = Sum (sum_options words); names = names_for words } }
{
    let form = form(&words);
    let workers = workers(words.num_threads);
    let Words {
        keyed,
        derive_key,
        length,
        seek,
        files0_from,
        files,
        ..
    } = words;
    let key = if keyed {
        KeyChoice::Keyed
    } else {
        derive_key.map_or(KeyChoice::Plain, KeyChoice::Derive)
    };
    let options = SumOptions {
        key,
        seek: seek.unwrap_or(DEFAULT_SEEK),
        length: length.unwrap_or(DEFAULT_LENGTH),
        form,
        workers,
        turns: TURNS,
        largest: LARGEST,
    };
    Task {
        job: Job::Sum(options),
        names: names_from(files0_from, files),
    }
}

fn form(words: &Words) -> Form
    ensures { result ≡ form_of words.now }
{
    if words.raw {
        Form::Raw
    } else if words.no_names {
        Form::Bare
    } else if words.tag {
        Form::Tagged
    } else {
        Form::Named
    }
}

fn workers(threads: Option<u16>) -> u32
    ensures { result ≡ workers_of threads }
{
    match threads {
        None | Some(0) => DEFAULT_THREADS,
        Some(threads) => u32::from(threads).min(MAX_THREADS),
    }
}

//! The options that the program takes, as `clap` reads them.

ghost use Rattle.std.specs.Prelude.{◌≡◌, IfOk, Some, codes, pos};
ghost use Rattle.clap.specs.declared.builder.value_parser.ValueParser.TheVariants as vp;
ghost use Rattle.clap.specs.Words.{app_of, rule_of};
ghost use Rattle.b3_io.specs.Options.{max_output_len};
ghost use Rattle.b3_arguments.specs.Options as spec;

use b3_io::MAX_OUTPUT_LEN;
use clap::{Arg, ArgAction, Command, value_parser};
use std::alloc::{AllocError, Global};

const AFTER_HELP: &str = "\
Without FILE, or where FILE is -, standard input is read; it can be read once.

Examples:
  b3sum *.tar > SUMS          write a list of digests
  b3sum --tag *.tar > SUMS    write it in tagged lines
  b3sum --check SUMS          check the files that a list names, in lines of both forms
  b3sum --ignore-missing --check SUMS
                              check those of them that are there
  b3sum --keyed FILE < KEY    write a digest keyed by the 32 bytes of KEY
  b3sum --seek 32 FILE        write the 32 bytes of output after the digest
  find . -type f -print0 | b3sum --files0-from -
                              write a list of the digests of all files here

The status is 0, or 1 where a file cannot be read, a digest differs, a line is
malformed, a list fails as a whole or the run is cut short, or 2 where the words
are not taken.";

/// The program's options and files.
pub fn command<'a>(alloc: Global) -> Result<Command<'a>, AllocError>
    ensures { IfOk result (λ command. app_of command ≡ spec.options) }
{
    let command = Command::new(alloc, "b3sum")
        .version("0.1.0")
        .about("Writes BLAKE3 checksums, and checks them")
        .after_help(AFTER_HELP);
    let command = with_checking(command, alloc)?;
    let command = with_hashing(command, alloc)?;
    let command = with_output(command, alloc)?;
    with_running(command, alloc)?.arg(files(alloc))
}

// Of a row of files `clap` makes one use of the argument, and not one for each.
fn files<'a>(alloc: Global) -> Arg<'a>
    ensures { rule_of result ≡ spec.files }
{
    Arg::new(alloc, "FILE")
        .action(ArgAction::Append)
        .num_args(0..)
        .help("Files to hash, or with --check lists to check")
}

// The options stand in groups, in the order in which `--help` has them: the prover's work grows with the square of the
// options that one function adds.

fn with_checking<'a>(command: Command<'a>, alloc: Global) -> Result<Command<'a>, AllocError>
    ensures { IfOk result (λ more. app_of more ≡ spec.with_rules (app_of command.entry) spec.checking) }
{
    command
        .arg(check(alloc))?
        .arg(quiet(alloc))?
        .arg(ignore_missing(alloc))?
        .arg(status(alloc))?
        .arg(strict(alloc))?
        .arg(warn(alloc))
}

fn with_hashing<'a>(command: Command<'a>, alloc: Global) -> Result<Command<'a>, AllocError>
    ensures { IfOk result (λ more. app_of more ≡ spec.with_rules (app_of command.entry) spec.hashing) }
{
    command.arg(keyed(alloc))?.arg(derive_key(alloc))
}

fn with_output<'a>(command: Command<'a>, alloc: Global) -> Result<Command<'a>, AllocError>
    ensures { IfOk result (λ more. app_of more ≡ spec.with_rules (app_of command.entry) spec.output) }
{
    command
        .arg(length(alloc))?
        .arg(seek(alloc))?
        .arg(raw(alloc))?
        .arg(no_names(alloc))?
        .arg(tag(alloc))
}

fn with_running<'a>(command: Command<'a>, alloc: Global) -> Result<Command<'a>, AllocError>
    ensures { IfOk result (λ more. app_of more ≡ spec.with_rules (app_of command.entry) spec.running) }
{
    command
        .arg(files0_from(alloc))?
        .arg(num_threads(alloc))?
        .arg(progress(alloc))?
        .arg(no_mmap(alloc))
}

fn check<'a>(alloc: Global) -> Arg<'a>
    ensures { rule_of result ≡ record (spec.flag (codes "check")) { short = Some 99 } }
{
    flag(
        alloc,
        "check",
        "Read lists of digests, and check the files that they name",
    )
    .short('c')
}

fn quiet<'a>(alloc: Global) -> Arg<'a>
    ensures { rule_of result ≡ spec.flag (codes "quiet") }
{
    flag(
        alloc,
        "quiet",
        "With --check, say nothing of files that are OK",
    )
}

fn ignore_missing<'a>(alloc: Global) -> Arg<'a>
    ensures { rule_of result ≡ spec.flag (codes "ignore-missing") }
{
    flag(
        alloc,
        "ignore-missing",
        "With --check, pass over files that are missing",
    )
}

fn status<'a>(alloc: Global) -> Arg<'a>
    ensures { rule_of result ≡ spec.flag (codes "status") }
{
    flag(
        alloc,
        "status",
        "With --check, write nothing; the status alone tells",
    )
}

fn strict<'a>(alloc: Global) -> Arg<'a>
    ensures { rule_of result ≡ spec.flag (codes "strict") }
{
    flag(
        alloc,
        "strict",
        "With --check, fail where a list has no check line",
    )
}

fn warn<'a>(alloc: Global) -> Arg<'a>
    ensures { rule_of result ≡ record (spec.flag (codes "warn")) { short = Some 119 } }
{
    flag(
        alloc,
        "warn",
        "With --check, name the list of each malformed line",
    )
    .short('w')
}

fn keyed<'a>(alloc: Global) -> Arg<'a>
    ensures { rule_of result ≡ spec.flag (codes "keyed") }
{
    flag(
        alloc,
        "keyed",
        "Key the hash by the 32 bytes of standard input",
    )
}

fn derive_key<'a>(alloc: Global) -> Arg<'a>
    ensures { rule_of result ≡ spec.option (codes "derive-key") }
{
    Arg::new(alloc, "derive-key")
        .long("derive-key")
        .value_name("CONTEXT")
        .help("Take each file as key material, and derive a key from it under CONTEXT")
}

fn length<'a>(alloc: Global) -> Arg<'a>
    ensures { rule_of result ≡ record (spec.number (codes "length") (vp.Signed (pos 0) (pos max_output_len))) {
      short = Some 108;
    } }
{
    Arg::new(alloc, "length")
        .short('l')
        .long("length")
        .value_name("N")
        .value_parser(value_parser!(u32).range(0..=i64::from(MAX_OUTPUT_LEN)))
        .help("Write N bytes of output, 0 to 1048576; without it 32")
}

fn seek<'a>(alloc: Global) -> Arg<'a>
    ensures { rule_of result ≡ spec.number (codes "seek") (vp.Unsigned 0 18446744073709551615) }
{
    Arg::new(alloc, "seek")
        .long("seek")
        .value_name("N")
        .value_parser(value_parser!(u64))
        .help("Write the output from its byte N on; without it from 0")
}

fn raw<'a>(alloc: Global) -> Arg<'a>
    ensures { rule_of result ≡ spec.flag (codes "raw") }
{
    flag(
        alloc,
        "raw",
        "Write the output bytes themselves, of one file",
    )
}

fn no_names<'a>(alloc: Global) -> Arg<'a>
    ensures { rule_of result ≡ spec.flag (codes "no-names") }
{
    flag(alloc, "no-names", "Write the digests without names")
}

fn tag<'a>(alloc: Global) -> Arg<'a>
    ensures { rule_of result ≡ spec.flag (codes "tag") }
{
    flag(
        alloc,
        "tag",
        "Write each line as BLAKE3 (FILE) = DIGEST; --check reads both forms",
    )
}

fn files0_from<'a>(alloc: Global) -> Arg<'a>
    ensures { rule_of result ≡ spec.option (codes "files0-from") }
{
    Arg::new(alloc, "files0-from")
        .long("files0-from")
        .value_name("FILE")
        .help("Take the names from FILE, where a NUL ends each; - is standard input")
}

fn num_threads<'a>(alloc: Global) -> Arg<'a>
    ensures { rule_of result ≡ spec.number (codes "num-threads") (vp.Signed (pos 0) (pos 65535)) }
{
    Arg::new(alloc, "num-threads")
        .long("num-threads")
        .value_name("N")
        .value_parser(value_parser!(u16))
        .help("Hash with N threads, at most 64; 4 where N is 0, and without it")
}

fn progress<'a>(alloc: Global) -> Arg<'a>
    ensures { rule_of result ≡ spec.flag (codes "progress") }
{
    flag(
        alloc,
        "progress",
        "Show how far the run is, where standard error is a terminal",
    )
}

fn no_mmap<'a>(alloc: Global) -> Arg<'a>
    ensures { rule_of result ≡ spec.flag (codes "no-mmap") }
{
    flag(
        alloc,
        "no-mmap",
        "Change nothing: files are never mapped into memory",
    )
}

// A flag that is long alone.
fn flag<'a>(alloc: Global, name: &'a str, help: &'a str) -> Arg<'a>
    ensures { rule_of result ≡ spec.flag name.entry.now }
{
    Arg::new(alloc, name)
        .long(name)
        .action(ArgAction::SetTrue)
        .help(help)
}

//! A tree of files: the check lines of all of them, and the check of these lines.

ghost use Rattle.std.specs.Prelude.{◌≡◌, ◌^◌, ◌<◌, ◌≤◌, length};

use crate::names::name_of;
use crate::random::Random;
use crate::results::Results;
use crate::supply::Supply;
use crate::tree_shelf::{FileSpan, LIST_NAME, TreeShelf};
use crate::workers::WORKERS;
use anyhow::{Result, ensure};
use b3_board::OpenGate;
use b3_check::{
    CheckOptions, Form, KeyChoice, MemorySink, Operands, SumOptions, run_check, run_sum,
};
use b3_lines::write_line;
use std::alloc::{AllocError, Global};
use std::sync::Wait;
use std::thread::Threads;

/// One in so many names has a character that is escaped.
const ESCAPED_IN: u64 = 200;

/// One in so many lines more is one of a missing file, and one is malformed.
const BAD_IN: u64 = 200;

/// How many reads a file may take.
const TURNS: u64 = 1 << 30;

/// How many bytes a list may have.
const LARGEST: u64 = 1 << 30;

/// Files of one tree: so many names, and where their contents are.
#[derive(Drop)]
struct Tree<'a> {
    bytes: &'a [u8],
    files: Vec<FileSpan>,
    names: Vec<String>,
}

impl<'a> Tree<'a> {
    /// A tree of so many files.
    fn new(
        alloc: Global,
        bytes: &'a [u8],
        size: u64,
        random: &mut Random,
        supply: &mut Supply<'_>,
    ) -> Result<Tree<'a>, AllocError> {
        let mut files = Vec::new(alloc);
        let mut names = Vec::new(alloc);
        for number in 0..size {
            let len = file_len(random);
            let place = supply.next_place(len);
            files.push(FileSpan { place, len })?;
            names.push(name_of(alloc, random, number, ESCAPED_IN)?)?;
        }
        Ok(Tree {
            bytes,
            files,
            names,
        })
    }
}

/// The length of a file: a quarter has less than 1 KiB, half of them has less than 2,500 bytes or so, and few have more
/// than 64 KiB.
fn file_len(random: &mut Random) -> u64 {
    match random.below(20) {
        0..=4 => random.between(1, 1_023),
        5..=14 => least_of_three(random, 1_024, 8_191),
        15..=18 => least_of_three(random, 8_192, 65_535),
        _ => least_of_three(random, 65_536, 524_287),
    }
}

/// The least of three numbers between these two.
fn least_of_three(random: &mut Random, least: u64, most: u64) -> u64
    requires order { least ≤ most }
    requires few { most < 2 ^ 32 }
{
    let first = random.between(least, most);
    let second = random.between(least, most);
    first.min(second).min(random.between(least, most))
}

/// Writes and checks the lines of a tree of so many files.
pub fn run_tree<R: Threads + Wait + Sync>(
    rt: &R,
    alloc: Global,
    bytes: &[u8],
    size: u64,
    random: &mut Random,
    supply: &mut Supply<'_>,
    results: &mut Results,
) -> Result<()> {
    let tree = Tree::new(alloc, bytes, size, random, supply)?;
    let names = tree.names.as_slice();
    let (named, tagged) = names.split_at(names.len() - names.len() / 10);
    let mut list = Vec::new(alloc);
    sum(rt, alloc, &tree, named, Form::Named, &mut list)?;
    sum(rt, alloc, &tree, tagged, Form::Tagged, &mut list)?;
    results.add(list.as_slice());
    add_bad_lines(alloc, size, random, &mut list)?;
    check(rt, alloc, &tree, list.as_slice(), results)
}

/// Appends the lines of these names to the list.
fn sum<R: Threads + Wait + Sync>(
    rt: &R,
    alloc: Global,
    tree: &Tree<'_>,
    names: &[String],
    form: Form,
    list: &mut Vec<u8>,
) -> Result<()> {
    ensure!(
        names.len() <= 1 << 30 && form != Form::Raw,
        "too many names"
    );
    let mut shelf = TreeShelf::new(tree.bytes, tree.files.as_slice(), &[]);
    let mut out = MemorySink::new(alloc);
    let mut err = MemorySink::new(alloc);
    let options = SumOptions {
        key: KeyChoice::Plain,
        seek: 0,
        length: 32,
        form,
        workers: WORKERS,
        turns: TURNS,
        largest: LARGEST,
    };
    let operands = Operands::given(names);
    run_sum(
        rt, alloc, &mut shelf, operands, &mut out, &mut err, &options, &OpenGate,
    )?;
    list.extend_from_slice(out.bytes())?;
    list.extend_from_slice(err.bytes())?;
    Ok(())
}

/// Appends lines of missing files, and broken ones.
fn add_bad_lines(alloc: Global, size: u64, random: &mut Random, list: &mut Vec<u8>) -> Result<()> {
    for i in 0..size / BAD_IN + 1 {
        let name = name_of(alloc, random, size.saturating_add(i), ESCAPED_IN)?;
        let line = write_line(alloc, &random.key(), name.as_str())?;
        list.extend_from_slice(line.as_slice())?;
        list.extend_from_slice(line.get(1..).unwrap_or(b""))?;
    }
    Ok(())
}

/// Checks a list of the tree.
fn check<R: Threads + Wait + Sync>(
    rt: &R,
    alloc: Global,
    tree: &Tree<'_>,
    list: &[u8],
    results: &mut Results,
) -> Result<()> {
    let names = [String::from_str(alloc, LIST_NAME)?];
    let mut shelf = TreeShelf::new(tree.bytes, tree.files.as_slice(), list);
    let mut out = MemorySink::new(alloc);
    let mut err = MemorySink::new(alloc);
    let options = CheckOptions {
        quiet: false,
        ignore_missing: false,
        status: false,
        strict: false,
        warn: true,
        workers: WORKERS,
        turns: TURNS,
        largest: LARGEST,
    };
    let lists = Operands::given(&names);
    run_check(
        rt, alloc, &mut shelf, lists, &mut out, &mut err, &options, &OpenGate,
    )?;
    results.add(out.bytes());
    results.add(err.bytes());
    Ok(())
}

//! A sum of files, and then a check of what it wrote.

ghost use Rattle.std.specs.Prelude.{◌≡◌, ◌≢◌, ◌≤◌, ◌^◌, All, IfOk, length, map, string_bytes};
ghost use Rattle.b3_check.specs.Laws.{oks_of, sums_of};
ghost use Rattle.b3_io.specs.declared.options.Form.TheVariants.{Named};
ghost use Rattle.b3_laws.specs.Files.{AreNamed, known};
ghost use Rattle.b3_laws.specs.Runs.{report_of};

use crate::files::{File, names_of, shelf_of};
use crate::runs::{Written, check_list, sum_names};
use b3_check::RunFault;
use std::alloc::Global;
use std::sync::Wait;
use std::thread::Threads;

/// What a sum wrote, and a check of that as a list.
#[derive(Debug, Drop)]
pub struct SumsAndChecks {
    /// The sum.
    pub sums: Written,
    /// The check.
    pub checks: Written,
}

/// Sums files in memory, as `b3sum NAME..` does, and checks what was written as a list of this name. Of two files of
/// one name the first is taken.
pub fn sums_check<R: Threads + Wait + Sync>(
    rt: &R,
    alloc: Global,
    files: &[File],
    list: &str,
    workers: u32,
) -> Result<SumsAndChecks, RunFault>
    requires some_workers { 1 ≤ workers }
    requires few_workers { workers ≤ 64 }
    requires few { length files.now ≤ 2 ^ 30 }

    // The sum is the line of each file, in order.
    ensures sums { AreNamed files.now
        → IfOk result (λ both. report_of both.sums ≡ sums_of Named (map known files.now)) }

    // The check says of each that it is ok, where the list takes no file's name.
    ensures checks { AreNamed files.now → All (λ file. string_bytes file.name ≢ list.now) files.now
        → IfOk result (λ both. report_of both.checks ≡ oks_of (map known files.now)) }
{
    let mut shelf = shelf_of(alloc, files)?;
    let names = names_of(alloc, files)?;
    let sums = sum_names(rt, alloc, &mut shelf, &names, workers)?;
    let name = String::from_str(alloc, list)?;
    shelf.put(name.as_str(), sums.out.as_slice())?;
    let checks = check_list(rt, alloc, &mut shelf, name, workers)?;
    Ok(SumsAndChecks { sums, checks })
}

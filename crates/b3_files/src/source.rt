// Where the bytes of a shelf of files come from.

ghost use Rattle.std.specs.Prelude.{◌≡◌, ℕ, ◌+◌, ◌<◌, ◌≤◌, true, false, IsTrue, List, length, take, drop, Some, IfSome};
ghost use Rattle.b3_io.specs.Contents.{Gives};
ghost use Rattle.b3_files.specs.Files.{rest_of};
ghost use Rattle.b3_files.specs.Sources.{is_input, is_open, file_side, input_side, source_left, source_position, source_tells};

use crate::disk::{DiskFile, Input};
use crate::input::InputFile;
use crate::retrying::{fill_at, read_retrying};

/// Where the next bytes come from.
#[derive(Drop)]
pub enum Source<T, I, P> {
    Nothing,
    Input(I),
    // the input, which is a plain file
    Reopened(InputFile<I, P>),
    Opened(T),
}

impl<T: Drop, I: Copy, P: Drop> Source<T, I, P> {
    /// Closes what was read, and goes on with this.
    pub fn turn_to(&mut self, source: Source<T, I, P>)
        ensures { self.new ≡ source }
    {
        *self = source;
    }
}

impl<T: DiskFile, I: Input<File = P>, P: DiskFile + Drop> Source<T, I, P> {
    /// An input of which nothing was read, as a plain file where it is one.
    pub fn of_input(input: I) -> Source<T, I, P>
        ensures open { is_open result ≡ true }
        ensures input { is_input result ≡ true }
        ensures left { IsTrue I.tells → IsTrue P.tells → (content : T → List ℕ)
            → source_left content I.content I.position P.content result 0 ≡ rest_of I.content I.position input }
        ensures at_consumed { source_position T.position result 0 ≡ 0 }
        ensures in_step { IsTrue I.tells → IsTrue P.tells
            → input_side I.content I.position P.content result 0 ≡ file_side P.content result 0 }
    {
        match input.reopen() {
            Some((file, start)) => Source::Reopened(InputFile::new(input, file, start)),
            None => Source::Input(input),
        }
    }

    /// The next bytes, where so many were given, which are counted with them. Nothing where a read fails.
    pub fn read_on(&mut self, consumed: &mut u64, buffer: &mut [u8]) -> Option<usize>
        requires buffer { 0 < length buffer.old }
        requires at_consumed { IsTrue T.tells → source_position T.position self.old consumed.old ≡ consumed.old }
        requires in_step { IsTrue I.tells → IsTrue P.tells
            → input_side I.content I.position P.content self.old consumed.old
            ≡ file_side P.content self.old consumed.old }
        ensures within { IfSome result (λ n. n ≤ length buffer.old) }
        ensures bytes { IsTrue (source_tells T.tells I.tells P.tells self.old) → IfSome result (λ n.
            Gives (source_left T.content I.content I.position P.content self.old consumed.old) (take n buffer.new)
            (source_left T.content I.content I.position P.content self.new consumed.new)) }
        ensures not_open { is_open self.old ≡ false → result ≡ Some 0 }
        ensures open { is_open self.new ≡ is_open self.old }
        ensures at_consumed { IsTrue T.tells
            → IfSome result (λ _. source_position T.position self.new consumed.new ≡ consumed.new) }
        ensures in_step { IsTrue I.tells → IsTrue P.tells → IfSome result (λ _.
            input_side I.content I.position P.content self.new consumed.new
            ≡ file_side P.content self.new consumed.new) }
    {
        let count = self.read(*consumed, buffer)?;
        *consumed = consumed.checked_add(count as u64)?;
        Some(count)
    }

    // The next bytes, where so many were given. Nothing where a read fails.
    fn read(&mut self, consumed: u64, buffer: &mut [u8]) -> Option<usize>
        requires buffer { 0 < length buffer.old }
        requires at_consumed { IsTrue T.tells → source_position T.position self.old consumed ≡ consumed }
        requires in_step { IsTrue I.tells → IsTrue P.tells
            → input_side I.content I.position P.content self.old consumed ≡ file_side P.content self.old consumed }
        ensures within { IfSome result (λ n. n ≤ length buffer.old) }
        ensures bytes { IsTrue (source_tells T.tells I.tells P.tells self.old) → IfSome result (λ n.
            Gives (source_left T.content I.content I.position P.content self.old consumed) (take n buffer.new)
            (source_left T.content I.content I.position P.content self.new (consumed + n))) }
        ensures not_open { is_open self.old ≡ false → result ≡ Some 0 }
        ensures open { is_open self.new ≡ is_open self.old }
        ensures at_consumed { IsTrue T.tells
            → IfSome result (λ n. source_position T.position self.new (consumed + n) ≡ consumed + n) }
        ensures in_step { IsTrue I.tells → IsTrue P.tells → IfSome result (λ n.
            input_side I.content I.position P.content self.new (consumed + n)
            ≡ file_side P.content self.new (consumed + n)) }
    {
        match self {
            Source::Nothing => Some(0),
            Source::Input(input) => match read_retrying(input, buffer) {
                Ok(count) => Some(count),
                Err(_) => None,
            },
            Source::Reopened(file) => file.read(consumed, buffer),
            Source::Opened(file) => match read_retrying(file, buffer) {
                Ok(count) => Some(count),
                Err(_) => None,
            },
        }
    }

    /// Fills the buffer with what is left of a plain file from an offset on, where so many bytes were given. Nothing
    /// where a read fails, and of what is no such file.
    pub fn fill_at(&self, consumed: u64, offset: u64, buffer: &mut [u8]) -> Option<usize>
        ensures len { length buffer.new ≡ length buffer.old }
        ensures within { IfSome result (λ n. n ≤ length buffer.old) }
        ensures bytes { IsTrue (source_tells T.tells I.tells P.tells self.now) → IfSome result (λ n.
            take n buffer.new ≡ take (length buffer.old)
            (drop offset (source_left T.content I.content I.position P.content self.now consumed))) }
    {
        let start = consumed.checked_add(offset)?;
        match self {
            Source::Opened(file) => fill_at(file, start, None, buffer),
            Source::Reopened(file) => file.fill_at(start, buffer),
            Source::Nothing | Source::Input(_) => None,
        }
    }

    /// How many bytes a plain file has, of which nothing is promised, or 0.
    pub fn len(&self) -> u64 {
        match self {
            Source::Opened(file) => file.plain_len().unwrap_or(0),
            Source::Reopened(file) => file.len(),
            Source::Nothing | Source::Input(_) => 0,
        }
    }
}

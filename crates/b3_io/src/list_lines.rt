//! The lines of a list, as items.

ghost use Rattle.std.specs.Prelude.{◌≡◌, ◌+◌, ◌^◌, ◌≤◌, ◌==◌, All, true, length, map};
ghost use Rattle.b3_lines.specs.Lines.{IsWithin, line_at, lines_of};
ghost use Rattle.b3_io.specs.Tasks.{line_tasks};

use crate::items::{Item, Request, WorkItems};
use crate::message::Message;
use crate::options::CheckOptions;
use b3_lines::{LineFault, Lines, lines, read_line};
use std::alloc::{AllocError, Global};

/// The check of each line of a list.
#[derive(Drop)]
pub struct ListLines<'t> {
    alloc: Global,
    options: CheckOptions,
    /// The name of the list.
    name: &'t str,
    text: &'t [u8],
    lines: Lines<'t>,
    /// The number of the next line.
    number: u64,
    ghost within: { All (IsWithin text.now) lines },
    ghost numbered: { number + length lines ≤ 2 ^ 32 },
}

impl<'t> ListLines<'t> {
    /// The lines of the list of this name and text, numbered from `first` on.
    pub fn new(
        alloc: Global,
        options: CheckOptions,
        name: &'t str,
        first: u64,
        text: &'t [u8],
    ) -> ListLines<'t>
        requires { first + length text.now ≤ 2 ^ 32 }
        ensures lines { ⟦<ListLines<'t> as WorkItems<Item<'t>>>⟧.left result
            ≡ line_tasks options name.now first (lines_of text.now) }
        ensures few { length (⟦<ListLines<'t> as WorkItems<Item<'t>>>⟧.left result) ≤ length text.now }
        ensures fits { ⟦<ListLines<'t> as WorkItems<Item<'t>>>⟧.fits result 32 ≡ true }
    {
        ListLines {
            alloc,
            options,
            name,
            text,
            lines: lines(text),
            number: first,
        }
    }
}

impl<'t> WorkItems<Item<'t>> for ListLines<'t> {
    ghost left = { λ work. line_tasks work.options work.name.now work.number
        (map (line_at work.text.now) work.lines) };

    ghost fits = { λ _ len. len == 32 };

    fn next(&mut self) -> Result<Option<Item<'t>>, AllocError> {
        let Some((start, end)) = self.lines.next() else {
            return Ok(None);
        };
        let number = self.number;
        self.number += 1;
        match read_line(self.alloc, &self.text[start..end]) {
            Ok(line) => Ok(Some(Item::Ask(Request::Line(self.options, line)))),
            Err(LineFault::Memory) => Err(AllocError),
            Err(fault) => {
                let message = Message::refused(
                    self.alloc,
                    &self.options,
                    self.name,
                    number,
                    fault,
                )?;
                Ok(Some(Item::Say(message)))
            }
        }
    }

    fn count_hint(&self) -> u64 {
        lines(self.text).count() as u64
    }
}

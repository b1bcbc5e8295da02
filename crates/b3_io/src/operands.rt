//! What a run is done over, one name after the other.

ghost use Rattle.std.specs.Prelude.{◌≡◌, ◌+◌, ◌^◌, ◌≤◌, [], ◌∷◌, IfNone, MatchOption, length, map, string_bytes};

use b3_lines::first_piece;
use std::str;

/// What ends each name in a list of names, but perhaps the last.
const NUL: u8 = 0;

/// A file to hash, or a list of check lines.
#[derive(Clone, Copy)]
pub enum Operand<'a> {
    /// Its name.
    Text(&'a str),
    /// In the place of its name the list of names in which the name of this number is not text.
    NotText(&'a str, u64),
}

/// The operands of a run that are left: those that are given, and those in a list of names.
#[derive(Drop)]
pub struct Operands<'a> {
    given: &'a [String],
    /// The name of the list.
    list: &'a str,
    /// What is left of its content.
    text: &'a [u8],
    /// The number of the next name in it.
    number: u64,
    ghost numbered: { number + length text.now ≤ 2 ^ 32 },
}

impl<'a> Operands<'a> {
    ghost use Rattle.b3_io.specs.Operands.{operand_of, operands_in, operands_left};
    ghost use Rattle.b3_io.specs.Operands.Operand.{Text};

    /// Those of these names.
    pub fn given(names: &'a [String]) -> Operands<'a>
        ensures { operands_left result ≡ map (λ name. Text (string_bytes name)) names.now }
    {
        Operands {
            given: names,
            list: "",
            text: &[],
            number: 1,
        }
    }

    /// Those in the list of this name and content: a NUL ends each name there, but perhaps the last. It takes no
    /// memory.
    pub fn in_list(list: &'a str, content: &'a [u8]) -> Operands<'a>
        requires { length content.now ≤ 2 ^ 30 }
        ensures operands { operands_left result ≡ operands_in list.now content.now }
        ensures few { length (operands_left result) ≤ 2 ^ 30 }
    {
        Operands {
            given: &[],
            list,
            text: content,
            number: 1,
        }
    }

    /// The next of them.
    pub fn next(&mut self) -> Option<Operand<'a>>
        ensures next { MatchOption result (operands_left self.old ≡ [])
            (λ operand. operands_left self.old ≡ operand_of operand ∷ operands_left self.new) }
        ensures over { IfNone result (operands_left self.new ≡ []) }
    {
        if let Some((name, rest)) = self.given.split_first() {
            self.given = rest;
            return Some(Operand::Text(name.as_str()));
        }
        let (piece, rest) = first_piece(self.text, NUL)?;
        let number = self.number;
        self.text = rest;
        self.number += 1;
        match str::from_utf8(piece) {
            Ok(name) => Some(Operand::Text(name)),
            Err(_) => Some(Operand::NotText(self.list, number)),
        }
    }

    /// How many are left, of which nothing is promised.
    pub fn count_hint(&self) -> u64 {
        let ended = self.text.iter().filter(|byte| **byte == NUL).count() as u64;
        let is_open = self.text.last().is_some_and(|byte| *byte != NUL);
        (self.given.len() as u64)
            .saturating_add(ended)
            .saturating_add(u64::from(is_open))
    }
}

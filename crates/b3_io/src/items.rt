//! What a run does, item after item.

ghost use Rattle.std.specs.Prelude.{◌≡◌, ℕ, Bool, List, [], ◌∷◌, true, false, map, IfOk, IfNone, IfSome, MatchOption};
ghost use Rattle.b3_io.specs.Sums.{is_bad_name, shows_name};
ghost use Rattle.b3_io.specs.Operands.{operands_left};
ghost use Rattle.b3_io.specs.declared.items.Item.{Item};
ghost use Rattle.b3_io.specs.Tasks.{IsFit, IsFitItem, Task, bytes_of, len_of, name_asked, operand_task, report_of, request_report, task_of};

use crate::message::Message;
use crate::operands::{Operand, Operands};
use crate::options::{CheckOptions, Form};
use crate::shelf::NoContent;
use b3_lines::{Line, holds_bad_character};
use std::alloc::{AllocError, Global};

/// What a run does next.
#[derive(Drop)]
pub enum Item<'a> {
    /// Says this.
    Say(Message),
    /// Asks for a name, and says what its digest gives.
    Ask(Request<'a>),
}

/// A name that is asked for, and what its digest is for.
#[derive(Drop)]
pub enum Request<'a> {
    /// The digest is written in this form.
    Name(Form, &'a str),
    /// The digest is compared with that of the line, and said with these options.
    Line(CheckOptions, Line),
}

impl Request<'_> {
    /// The name that is asked for.
    pub fn name(&self) -> &str
        ensures { result.now ≡ name_asked self.now }
    {
        match self {
            Request::Name(_, name) => name,
            Request::Line(_, line) => line.name.as_str(),
        }
    }

    /// What this digest gives, or why there is none.
    pub fn message(
        &self,
        alloc: Global,
        digest: Result<&[u8], NoContent>,
    ) -> Result<Message, AllocError>
        requires { IsFit (len_of digest) self.now }
        ensures { IfOk result (λ message. report_of message ≡ request_report self.now (bytes_of digest.entry)) }
    {
        match self {
            Request::Name(form, name) => Message::of_name(alloc, *form, name, digest),
            Request::Line(options, line) => Message::of_line(alloc, options, line, digest),
        }
    }
}

/// An item, for as long as what it names.
pub trait AnyItem: Drop {
    /// The item.
    ghost item: { Self → Item };

    /// The item.
    fn get(&self) -> &Item<'_>
        ensures { result.now ≡ item self.now };
}

impl<'a> AnyItem for Item<'a> {
    ghost item = { λ item. item };

    fn get(&self) -> &Item<'_> {
        self
    }
}

/// Items, one after the other.
pub trait WorkItems<I: AnyItem> {
    /// What is left to do.
    ghost left: { Self → List Task };

    /// Whether the items can be said of digests of so many bytes.
    ghost fits: { Self → ℕ → Bool };

    /// The next item.
    fn next(&mut self) -> Result<Option<I>, AllocError>
        ensures next { IfOk result (λ next. MatchOption next (left self.old ≡ [])
            (λ item. left self.old ≡ task_of (I.item item) ∷ left self.new)) }
        ensures over { IfOk result (λ next. IfNone next (left self.new ≡ [])) }
        ensures fit { IfOk result (λ next. IfSome next (λ item.
            (len : ℕ) → fits self.old len ≡ true → IsFitItem len (I.item item))) }
        ensures still_fits { (len : ℕ) → fits self.new len ≡ fits self.old len };

    /// How many items are left, of which nothing is promised.
    fn count_hint(&self) -> u64;
}

/// The digest of each name.
#[derive(Drop)]
pub struct Names<'a> {
    pub alloc: Global,
    pub form: Form,
    pub operands: Operands<'a>,
}

impl<'a> WorkItems<Item<'a>> for Names<'a> {
    ghost left = { λ work. map (operand_task work.form) (operands_left work.operands) };

    ghost fits = { λ _ _. true };

    fn next(&mut self) -> Result<Option<Item<'a>>, AllocError> {
        let name = match self.operands.next() {
            None => return Ok(None),
            Some(Operand::NotText(list, number)) => {
                return Ok(Some(Item::Say(Message::not_text(self.alloc, list, number)?)));
            }
            Some(Operand::Text(name)) => name,
        };
        if self.form.shows_name() && is_bad_name(name) {
            return Ok(Some(Item::Say(Message::failed(self.alloc, name, "bad name")?)));
        }
        Ok(Some(Item::Ask(Request::Name(self.form, name))))
    }

    fn count_hint(&self) -> u64 {
        self.operands.count_hint()
    }
}

impl Form {
    // Whether the form shows the name.
    fn shows_name(self) -> bool
        ensures { result ≡ shows_name self }
    {
        matches!(self, Form::Named | Form::Tagged)
    }
}

// Whether no line can show the name.
fn is_bad_name(name: &str) -> bool
    ensures { result ≡ is_bad_name name.now }
{
    name.is_empty() || holds_bad_character(name.as_bytes())
}

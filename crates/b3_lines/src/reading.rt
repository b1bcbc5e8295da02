//! Check lines read.

ghost use Rattle.std.specs.Prelude.{◌≡◌, ◌+◌, ◌<◌, ◌≤◌, ◌↔◌, ◌&&◌, Bool, List, ℕ, All, map, Some, None, IsNone, IfSome, IsTrue, true, false, length, IfOk, IfErr, IsErrOf, MatchResult};
ghost use Rattle.std.specs.String.{string_bytes};
ghost use Rattle.b3_lines.specs.Lines.{AreLines, IsWithin, line_at, line_ranges, lines_of};
ghost use Rattle.b3_lines.specs.Names.{has_bad_escape, unescaped};
ghost use Rattle.b3_lines.specs.Parts.{AreParts, HasParts, IsCut};
ghost use Rattle.b3_lines.specs.Reading.{HasOneForm, HasOneOutcome, IsReadAs, after_mark, first_refusal, has_mark, is_tagged, layout_of, name_of, plain_layout, refusal_after_mark, refusal_of, shown_of, tagged_layout, without_carriage_return};

use crate::digits::digest_of;
use crate::fault::LineFault;
use crate::line_ranges::Lines;
use crate::names::{count_escapes, holds_bad_character, unescaped};
use std::alloc::{AllocError, Global};
use std::str;

/// What a check line says.
#[derive(Debug, Drop)]
pub struct Line {
    /// The digest.
    pub digest: [u8; 32],
    /// The name, its escapes taken back.
    pub name: String,
    /// The name as it stands in the line, with a backslash in front where the line is marked.
    pub shown: String,
}

/// The parts of a line that is accepted.
#[derive(Drop)]
struct Parts<'a> {
    digest: [u8; 32],
    /// The name as it stands in the line.
    raw_name: &'a str,
    marked: bool,
    /// How many escapes the name has.
    escapes: usize,
}

impl Parts<'_> {
    /// The name, its escapes taken back in a marked line.
    fn name(&self, alloc: Global) -> Result<String, AllocError>
        requires lawful { IsTrue self.now.marked → has_bad_escape self.now.raw_name.now ≡ false }
        requires counted { IsTrue self.now.marked →
            length (unescaped self.now.raw_name.now) + self.now.escapes ≡ length self.now.raw_name.now }
        ensures { IfOk result (λ name.
            string_bytes name ≡ name_of self.now.marked self.now.raw_name.now) }
    {
        if self.marked {
            unescaped(alloc, self.raw_name, self.escapes)
        } else {
            String::from_str(alloc, self.raw_name)
        }
    }

    /// The name as it stands in the line, after the mark of a marked one.
    fn shown(&self, alloc: Global) -> Result<String, AllocError>
        ensures { IfOk result (λ shown.
            string_bytes shown ≡ shown_of self.now.marked self.now.raw_name.now) }
    {
        if !self.marked {
            return String::from_str(alloc, self.raw_name);
        }
        let mut shown = String::with_capacity(alloc, self.raw_name.len().saturating_add(1))?;
        shown.push('\\')?;
        shown.push_str(self.raw_name)?;
        Ok(shown)
    }
}

/// The ranges of the lines of a text, in order: the pieces between line feeds, without a piece
/// after a line feed that ends the text. It takes no memory.
pub fn lines(text: &[u8]) -> Lines<'_>
    ensures ranges { result ≡ line_ranges text.now }
    // Each range holds its line.
    ensures lines { map (line_at text.now) result ≡ lines_of text.now }
    ensures within { All (IsWithin text.now) result }
    ensures count { length result ≤ length text.now }

    // What `lines_of` gives is the lines of the text, and nothing else is.
    ensures are_lines { AreLines text.now (lines_of text.now) }
    ensures no_other { (pieces : List (List ℕ)) → AreLines text.now pieces → pieces ≡ lines_of text.now }
{
    Lines::new(text)
}

/// Reads the bytes of one line, plain or tagged, without its line feed.
///
/// One carriage return at the very end is not part of the line. A line whose first byte is a
/// backslash is marked, and the escapes of its name are taken back. The first refusal that holds
/// is answered; all but `Memory` are found before memory is taken.
pub fn read_line(alloc: Global, line: &[u8]) -> Result<Line, LineFault>
    // What is answered is what the line says.
    ensures read { IfOk result (λ read.
        IsReadAs line.now read.digest (string_bytes read.name) (string_bytes read.shown)) }
    // What the line says is answered, or there is no memory for it.
    ensures only { (digest name shown : List ℕ) → IsReadAs line.now digest name shown → MatchResult result
        (λ read. (read.digest ≡ digest)
        × (string_bytes read.name ≡ name) × (string_bytes read.shown ≡ shown))
        (λ fault. fault ≡ LineFault.Memory) }

    // Each refusal comes exactly where it is the first that holds.
    ensures empty { IsErrOf result LineFault.Empty ↔ (first_refusal line.now ≡ Some LineFault.Empty) }
    ensures not_text { IsErrOf result LineFault.NotText ↔
        (first_refusal line.now ≡ Some LineFault.NotText) }
    ensures short { IsErrOf result LineFault.Short ↔ (first_refusal line.now ≡ Some LineFault.Short) }
    ensures not_digits { IsErrOf result LineFault.NotDigits ↔
        (first_refusal line.now ≡ Some LineFault.NotDigits) }
    ensures no_spaces { IsErrOf result LineFault.NoSpaces ↔
        (first_refusal line.now ≡ Some LineFault.NoSpaces) }
    ensures no_name { IsErrOf result LineFault.NoName ↔ (first_refusal line.now ≡ Some LineFault.NoName) }
    ensures bad_escape { IsErrOf result LineFault.BadEscape ↔
        (first_refusal line.now ≡ Some LineFault.BadEscape) }
    ensures bad_character { IsErrOf result LineFault.BadCharacter ↔
        (first_refusal line.now ≡ Some LineFault.BadCharacter) }

    // Want of memory comes only in the place of an answer.
    ensures memory { IsErrOf result LineFault.Memory → first_refusal line.now ≡ None }

    // A line is refused by one fault, or says one thing, and never both.
    ensures one_outcome { HasOneOutcome line.now }

    // It is plain or tagged, and never both.
    ensures one_form { HasOneForm line.now }
{
    let parts = parse_line(line)?;
    let name = parts.name(alloc)?;
    let shown = parts.shown(alloc)?;
    Ok(Line {
        digest: parts.digest,
        name,
        shown,
    })
}

/// The parts of the line, or the first refusal that holds, in the order of the numbers of `LineFault`, which decide. It
/// takes no memory.
fn parse_line(line: &[u8]) -> Result<Parts<'_>, LineFault>
    ensures refused { IfErr result (λ fault. first_refusal line.now ≡ Some fault) }
    ensures taken { IfOk result (λ parts.
        HasParts line.now parts.digest parts.raw_name.now parts.marked parts.escapes) }
{
    let text = without_carriage_return(line);
    if text.is_empty() {
        return Err(LineFault::Empty);
    }
    let Ok(text) = str::from_utf8(text) else {
        return Err(LineFault::NotText);
    };
    let (marked, rest) = after_mark(text);
    parse_after_mark(marked, rest)
}

/// The line without the carriage return at its very end, where it has one.
fn without_carriage_return(line: &[u8]) -> &[u8]
    ensures { result.now ≡ without_carriage_return line.now }
{
    line.strip_suffix(b"\r").unwrap_or(line)
}

/// Whether a line is marked, and what follows its mark.
fn after_mark(text: &str) -> (bool, &str)
    requires { 0 < length text.now }
    ensures mark { result.0 ≡ has_mark text.now }
    ensures rest { result.1.now ≡ after_mark text.now }
{
    if text.as_bytes()[0] == b'\\' {
        (true, &text[1..])
    } else {
        (false, text)
    }
}

/// The digest of a line and its name as it stands, which may be empty.
#[derive(Drop)]
struct Cut<'a> {
    digest: [u8; 32],
    raw_name: &'a str,
}

/// The parts of what follows the mark, or the first refusal that holds of it.
fn parse_after_mark(marked: bool, rest: &str) -> Result<Parts<'_>, LineFault>
    ensures refused { IfErr result (λ fault. refusal_after_mark marked rest.now ≡ Some fault) }
    ensures mark { IfOk result (λ parts. parts.marked ≡ marked) }
    ensures taken { IfOk result (λ parts.
        AreParts marked rest.now parts.digest parts.raw_name.now parts.escapes) }
{
    let cut = cut_up(rest)?;
    let raw_name = cut.raw_name;
    if raw_name.is_empty() {
        return Err(LineFault::NoName);
    }
    let Some(escapes) = escapes_of(marked, raw_name.as_bytes()) else {
        return Err(LineFault::BadEscape);
    };
    if holds_bad_character(raw_name.as_bytes()) {
        return Err(LineFault::BadCharacter);
    }
    Ok(Parts {
        digest: cut.digest,
        raw_name,
        marked,
        escapes,
    })
}

/// What follows the mark, cut up as it begins, or the first refusal of all but those of the name.
fn cut_up(rest: &str) -> Result<Cut<'_>, LineFault>
    ensures refused { IfErr result (λ fault. (marked : Bool) → refusal_of marked (layout_of rest.now) ≡ Some fault) }
    ensures taken { IfOk result (λ cut. IsCut (layout_of rest.now) cut.digest cut.raw_name.now) }
{
    if rest.as_bytes().starts_with(b"BLAKE3 (") {
        cut_tagged(rest)
    } else {
        cut_plain(rest)
    }
}

/// What follows the mark of a plain line, cut up.
fn cut_plain(rest: &str) -> Result<Cut<'_>, LineFault>
    ensures refused { IfErr result (λ fault. (marked : Bool) → refusal_of marked (plain_layout rest.now) ≡ Some fault) }
    ensures taken { IfOk result (λ cut. IsCut (plain_layout rest.now) cut.digest cut.raw_name.now) }
{
    let bytes = rest.as_bytes();
    if bytes.len() < 66 {
        return Err(LineFault::Short);
    }
    let Some(digest) = digest_of(&bytes[..64]) else {
        return Err(LineFault::NotDigits);
    };
    if &bytes[64..66] != b"  ".as_slice() {
        return Err(LineFault::NoSpaces);
    }
    let raw_name = &rest[66..];
    Ok(Cut { digest, raw_name })
}

/// What follows the mark of a tagged line, cut up from its end.
fn cut_tagged(rest: &str) -> Result<Cut<'_>, LineFault>
    requires { is_tagged rest.now ≡ true }
    ensures refused { IfErr result (λ fault. (marked : Bool)
        → refusal_of marked (tagged_layout rest.now) ≡ Some fault) }
    ensures taken { IfOk result (λ cut. IsCut (tagged_layout rest.now) cut.digest cut.raw_name.now) }
{
    let bytes = rest.as_bytes();
    if bytes.len() < 76 {
        return Err(LineFault::Short);
    }
    let start = bytes.len() - 64;
    let Some(digest) = digest_of(&bytes[start..]) else {
        return Err(LineFault::NotDigits);
    };
    if &bytes[start - 4..start] != b") = ".as_slice() {
        return Err(LineFault::NoSpaces);
    }
    let raw_name = &rest[8..start - 4];
    Ok(Cut { digest, raw_name })
}

/// How many escapes the name of a line has: none where the line is not marked. `None` where a
/// marked line has a bad one.
fn escapes_of(marked: bool, name: &[u8]) -> Option<usize>
    ensures lawful { IsNone result ↔ IsTrue (marked && has_bad_escape name.now) }
    ensures counted { IsTrue marked →
        IfSome result (λ n. length (unescaped name.now) + n ≡ length name.now) }
{
    if marked { count_escapes(name) } else { Some(0) }
}

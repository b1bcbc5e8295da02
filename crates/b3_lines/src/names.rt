//! Names in check lines: what is escaped in them, taken back, and not allowed.

ghost use Rattle.std.specs.Prelude.{◌≡◌, ◌+◌, ◌++◌, false, length, IsTrue, ◌↔◌, OnOk, IfOk, IfSome, IsNone};
ghost use Rattle.std.specs.String.{string_bytes};
ghost use Rattle.memchr.specs.Find.{places};
ghost use Rattle.b3_lines.specs.Names.{escape, escape_meaning, escaped, has_bad_escape, holds_bad_character, is_escaped, may_follow_backslash, unescaped};
ghost use Rattle.b3_lines.specs.Writing.{is_marked};

use memchr::{memchr, memchr2, memchr3, memchr3_iter, memmem};
use std::alloc::{AllocError, Global};

/// How many characters of a name are to be escaped.
pub(crate) fn count_to_escape(name: &[u8]) -> usize
    ensures { result ≡ length (places is_escaped name.now) }
{
    memchr3_iter(b'\\', b'\n', b'\r', name).count()
}

/// A character as it is written, for one of the three that are escaped.
fn escape(character: u8) -> &'static [u8]
    requires { IsTrue (is_escaped character) }
    ensures { result.now ≡ escape character }
{
    match character {
        b'\n' => b"\\n",
        b'\r' => b"\\r",
        _ => b"\\\\",
    }
}

/// Appends the name, escaped.
pub(crate) fn push_escaped(line: &mut Vec<u8>, name: &[u8]) -> Result<(), AllocError>
    ensures { OnOk result (line.new.items ≡ line.old.items ++ escaped name.now) }
{
    let mut rest = name;
    while let Some(at) = memchr3(b'\\', b'\n', b'\r', rest) {
        line.extend_from_slice(&rest[..at])?;
        line.extend_from_slice(escape(rest[at]))?;
        rest = &rest[at + 1..];
    }
    line.extend_from_slice(rest)
}

/// Appends the name, escaped where it is marked: another name has nothing to search for.
pub(crate) fn push_name(line: &mut Vec<u8>, name: &[u8], marked: bool) -> Result<(), AllocError>
    requires { marked ≡ is_marked name.now }
    ensures { OnOk result (line.new.items ≡ line.old.items ++ escaped name.now) }
{
    if marked {
        push_escaped(line, name)
    } else {
        line.extend_from_slice(name)
    }
}

/// Whether a character may follow a backslash.
fn may_follow_backslash(character: u8) -> bool
    ensures { result ≡ may_follow_backslash character }
{
    matches!(character, b'\\' | b'n' | b'r')
}

/// How many escapes an escaped name has, or `None` where a backslash is followed by none of a
/// backslash, `n` and `r`.
pub(crate) fn count_escapes(text: &[u8]) -> Option<usize>
    ensures lawful { IsNone result ↔ IsTrue (has_bad_escape text.now) }
    ensures count { IfSome result (λ n. length (unescaped text.now) + n ≡ length text.now) }
{
    let mut count = 0;
    let mut rest = text;
    while let Some(at) = memchr(b'\\', rest) {
        if at + 1 == rest.len() || !may_follow_backslash(rest[at + 1]) {
            return None;
        }
        count += 1;
        rest = &rest[at + 2..];
    }
    Some(count)
}

/// What a backslash and this character stand for.
fn escape_meaning(character: u8) -> char
    ensures { result ≡ escape_meaning character }
{
    match character {
        b'n' => '\n',
        b'r' => '\r',
        _ => '\\',
    }
}

/// The name that an escaped text spells, in memory of just its length, for the number of its
/// escapes.
pub(crate) fn unescaped(alloc: Global, text: &str, escapes: usize) -> Result<String, AllocError>
    requires lawful { has_bad_escape text.now ≡ false }
    requires count { length (unescaped text.now) + escapes ≡ length text.now }
    ensures { IfOk result (λ name. string_bytes name ≡ unescaped text.now) }
{
    let mut name = String::with_capacity(alloc, text.len() - escapes)?;
    let mut rest = text;
    while let Some(at) = memchr(b'\\', rest.as_bytes()) {
        name.push_str(&rest[..at])?;
        name.push(escape_meaning(rest.as_bytes()[at + 1]))?;
        rest = &rest[at + 2..];
    }
    name.push_str(rest)?;
    Ok(name)
}

/// Whether NUL or U+FFFD stands in a name, escaped or not.
pub fn holds_bad_character(name: &[u8]) -> bool
    ensures { result ≡ holds_bad_character name.now }
{
    // The first byte of U+FFFD is seldom there, so that one search is mostly enough.
    if memchr2(0, 0xEF, name).is_none() {
        return false;
    }
    memchr(0, name).is_some() || memmem::find(name, "\u{FFFD}".as_bytes()).is_some()
}

//! What is said to the two sinks.

ghost use Rattle.std.specs.Prelude.{if◌then◌else◌, [], ◌≡◌, ◌++◌, ◌^◌, ◌<◌, ◌≤◌, true, false, IfOk, option_copied};
ghost use Rattle.std.specs.String.{string_bytes};
ghost use Rattle.hex.specs.Hex.{encode_lower};
ghost use Rattle.b3_lines.specs.Writing.{plain, tagged};
ghost use Rattle.b3_io.specs.Sums.{complaint, digest_text, failed_report, is_bad_name, line_feed, name_report, not_text, shows_name};
ghost use Rattle.b3_io.specs.Checks.{answer_as, err_report, list_end_report, refusal, refused_report, unless_silent, unnamed_list_report, unread_list_report, verdict_on, verdict_report, verdict_text, verdict_words, warning_report};
ghost use Rattle.b3_io.specs.Tasks.{counted, bytes_of, len_of, report_of};

use crate::judging::{Answer, Verdict, judge};
use crate::options::{CheckOptions, Form};
use crate::prefixed;
use crate::shelf::NoContent;
use crate::tally::Tally;
use crate::texts::{complaint, line_reason, not_text, warning};
use b3_lines::{Line, LineFault, write_line, write_tagged};
use std::alloc::{AllocError, Global};

/// A text for each sink, and what is counted.
#[derive(Drop)]
pub struct Message {
    pub out: Vec<u8>,
    pub err: Vec<u8>,
    pub tally: Tally,
}

impl Message {
    /// A name fails.
    pub fn failed(alloc: Global, name: &str, why: &str) -> Result<Message, AllocError>
        ensures { IfOk result (λ message. report_of message ≡ failed_report name.now why.now) }
    {
        let none = Tally::none();
        Ok(Message {
            out: Vec::new(alloc),
            err: complaint(alloc, name, why)?,
            tally: Tally { failed: 1, ..none },
        })
    }

    /// The name of this number in a list of names is not text.
    pub fn not_text(alloc: Global, list: &str, number: u64) -> Result<Message, AllocError>
        ensures { IfOk result (λ message. report_of message ≡ failed_report list.now (not_text number)) }
    {
        let why = not_text(alloc, number)?;
        Message::failed(alloc, list, why.as_str())
    }

    /// A list cannot be read.
    pub fn unread_list(
        alloc: Global,
        options: &CheckOptions,
        name: &str,
    ) -> Result<Message, AllocError>
        ensures { IfOk result (λ message. report_of message ≡ unread_list_report options.now name.now) }
    {
        let text = complaint(alloc, name, "cannot read")?;
        let none = Tally::none();
        Ok(Message::on_err(alloc, options, text, Tally { lists: 1, ..none }))
    }

    /// The name of a list, which has this number in a list of names, is not text.
    pub fn unnamed_list(
        alloc: Global,
        options: &CheckOptions,
        names: &str,
        number: u64,
    ) -> Result<Message, AllocError>
        ensures { IfOk result (λ message. report_of message ≡ unnamed_list_report options.now names.now number) }
    {
        let why = not_text(alloc, number)?;
        let text = complaint(alloc, names, why.as_str())?;
        let none = Tally::none();
        Ok(Message::on_err(alloc, options, text, Tally { lists: 1, ..none }))
    }

    /// What is said of a list after its lines, in which this was counted.
    pub fn list_end(
        alloc: Global,
        options: &CheckOptions,
        name: &str,
        tally: &Tally,
    ) -> Result<Message, AllocError>
        ensures report { IfOk result (λ message. report_of message ≡ list_end_report options.now name.now tally.now) }
        ensures one { IfOk result (λ message. counted message.tally ≤ 1) }
    {
        let is_unverified = options.ignore_missing && tally.is_unverified();
        let has_no_line = options.strict && tally.has_no_line();
        let mut text = complaint_if(alloc, is_unverified, name, "no file was verified")?;
        let more = complaint_if(alloc, has_no_line, name, "no check line found")?;
        text.extend_from_slice(more.as_slice())?;
        let lists = u64::from(is_unverified || has_no_line);
        let none = Tally::none();
        Ok(Message::on_err(alloc, options, text, Tally { lists, ..none }))
    }

    // A text for the error output alone, if there is to be any text.
    fn on_err(alloc: Global, options: &CheckOptions, text: Vec<u8>, tally: Tally) -> Message
        ensures { report_of result ≡ err_report options.now text.items tally }
    {
        Message {
            out: Vec::new(alloc),
            err: unless_silent(alloc, options, text),
            tally,
        }
    }

    /// The line of this number of a list is refused.
    pub fn refused(
        alloc: Global,
        options: &CheckOptions,
        list: &str,
        number: u64,
        fault: LineFault,
    ) -> Result<Message, AllocError>
        ensures { IfOk result (λ message. report_of message ≡ refused_report options.now list.now number fault) }
    {
        let text = refusal(alloc, options, list, number, fault.reason())?;
        let tally = Tally {
            failed: 1,
            malformed: 1,
            ..Tally::none()
        };
        Ok(Message::on_err(alloc, options, text, tally))
    }

    /// How many names and lines failed, if any.
    pub fn warning(
        alloc: Global,
        options: &CheckOptions,
        tally: &Tally,
    ) -> Result<Message, AllocError>
        ensures { IfOk result (λ message. report_of message ≡ warning_report options.now tally.now) }
    {
        let text = warning(alloc, tally.failed)?;
        Ok(Message::on_err(alloc, options, text, Tally::none()))
    }

    /// The name of a line has this digest, or none for this reason.
    pub fn of_line(
        alloc: Global,
        options: &CheckOptions,
        line: &Line,
        digest: Result<&[u8], NoContent>,
    ) -> Result<Message, AllocError>
        requires { len_of digest ≡ 32 }
        ensures { IfOk result (λ message. report_of message ≡ verdict_report options.now (string_bytes line.now.shown)
            (verdict_on line.now.digest (bytes_of digest.entry))) }
    {
        let verdict = judge(line, &answer(digest));
        let text = verdict_text(alloc, options, line.shown.as_str(), verdict)?;
        Ok(Message {
            out: unless_silent(alloc, options, text),
            err: Vec::new(alloc),
            tally: Tally::of_verdict(options, verdict),
        })
    }

    /// A name has this digest, or none for this reason.
    pub fn of_name(
        alloc: Global,
        form: Form,
        name: &str,
        digest: Result<&[u8], NoContent>,
    ) -> Result<Message, AllocError>
        requires { shows_name form ≡ true → is_bad_name name.now ≡ false }
        ensures { IfOk result (λ message. report_of message ≡ name_report form name.now (bytes_of digest.entry)) }
    {
        let Ok(digest) = digest else {
            return Message::failed(alloc, name, "cannot read");
        };
        let none = Tally::none();
        Ok(Message {
            out: digest_text(alloc, form, digest, name)?,
            err: Vec::new(alloc),
            tally: Tally { ok: 1, ..none },
        })
    }
}

// What is written for a digest.
fn digest_text(alloc: Global, form: Form, digest: &[u8], name: &str) -> Result<Vec<u8>, AllocError>
    requires { shows_name form ≡ true → is_bad_name name.now ≡ false }
    ensures { IfOk result (λ text. text.items ≡ digest_text form digest.now name.now) }
{
    match form {
        Form::Named => plain_line(alloc, digest, name),
        Form::Bare => bare_line(alloc, digest),
        Form::Raw => Vec::from_slice(alloc, digest),
        Form::Tagged => tagged_line(alloc, digest, name),
    }
}

// The plain line of a digest and a name that a line can show.
fn plain_line(alloc: Global, digest: &[u8], name: &str) -> Result<Vec<u8>, AllocError>
    requires { is_bad_name name.now ≡ false }
    ensures { IfOk result (λ line. line.items ≡ plain digest.now name.now) }
{
    match write_line(alloc, digest, name) {
        Ok(line) => Ok(line),
        Err(LineFault::Memory) => Err(AllocError),
        Err(_) => unreachable!(),
    }
}

// Their tagged line.
fn tagged_line(alloc: Global, digest: &[u8], name: &str) -> Result<Vec<u8>, AllocError>
    requires { is_bad_name name.now ≡ false }
    ensures { IfOk result (λ line. line.items ≡ tagged digest.now name.now) }
{
    match write_tagged(alloc, digest, name) {
        Ok(line) => Ok(line),
        Err(LineFault::Memory) => Err(AllocError),
        Err(_) => unreachable!(),
    }
}

// The digits of a digest and a line feed.
fn bare_line(alloc: Global, digest: &[u8]) -> Result<Vec<u8>, AllocError>
    ensures { IfOk result (λ line. line.items ≡ encode_lower digest.now ++ line_feed) }
{
    let mut line = hex::encode(alloc, digest)?.into_bytes();
    line.push(b'\n')?;
    Ok(line)
}

// The answer to the name of a line, by its digest, or by why it has none.
fn answer(digest: Result<&[u8], NoContent>) -> Answer
    requires { len_of digest ≡ 32 }
    ensures { result ≡ answer_as (bytes_of digest.entry) }
{
    let bytes = match digest {
        Ok(bytes) => bytes,
        Err(NoContent::Missing) => return Answer::Missing,
        Err(NoContent::CannotRead) => return Answer::CannotRead,
    };
    let mut digest = [0; 32];
    digest.copy_from_slice(bytes);
    Answer::Digest(digest)
}

// What is said of a name for this reason, if it is one.
fn complaint_if(alloc: Global, is_due: bool, name: &str, why: &str) -> Result<Vec<u8>, AllocError>
    ensures { IfOk result (λ text. text.items ≡ (if is_due then complaint name.now why.now else [])) }
{
    if is_due {
        complaint(alloc, name, why)
    } else {
        Ok(Vec::new(alloc))
    }
}

// The same text, but none where the status alone is to tell.
fn unless_silent(alloc: Global, options: &CheckOptions, text: Vec<u8>) -> Vec<u8>
    ensures { result.items ≡ unless_silent options.now text.items }
{
    if options.status {
        return Vec::new(alloc);
    }
    text
}

// What is written of a line, by its verdict.
fn verdict_text(
    alloc: Global,
    options: &CheckOptions,
    shown: &str,
    verdict: Verdict,
) -> Result<Vec<u8>, AllocError>
    ensures { IfOk result (λ text. text.items ≡ verdict_text options.now shown.now verdict) }
{
    let Some(words) = verdict_words(options, verdict) else {
        return Ok(Vec::new(alloc));
    };
    let len = shown.len().saturating_add(words.len()).saturating_add(1);
    let mut text = Vec::with_capacity(alloc, len)?;
    text.extend_from_slice(shown.as_bytes())?;
    text.extend_from_slice(words.as_bytes())?;
    text.extend_from_slice(b"\n")?;
    Ok(text)
}

// The words of a verdict, if anything is said.
fn verdict_words(options: &CheckOptions, verdict: Verdict) -> Option<&'static str>
    ensures { option_copied result ≡ verdict_words options.now verdict }
{
    match verdict {
        Verdict::Good if options.quiet => None,
        Verdict::Missing if options.ignore_missing => None,
        Verdict::Good => Some(": OK"),
        Verdict::Differs => Some(": FAILED"),
        Verdict::Missing | Verdict::Unreadable => Some(": FAILED (cannot read)"),
    }
}

// What is said of a line of a list that is refused.
fn refusal(
    alloc: Global,
    options: &CheckOptions,
    list: &str,
    number: u64,
    reason: &str,
) -> Result<Vec<u8>, AllocError>
    ensures { IfOk result (λ text. text.items ≡ refusal options.now list.now number reason.now) }
{
    let why = line_reason(alloc, number, reason)?;
    if options.warn {
        return complaint(alloc, list, why.as_str());
    }
    let mut text = Vec::new(alloc);
    text.extend_from_slice(prefixed!("").as_bytes())?;
    text.extend_from_slice(why.as_bytes())?;
    text.extend_from_slice(b"\n")?;
    Ok(text)
}

ghost use Rattle.std.specs.Prelude.{◌≡◌, ◌++◌, [], string_bytes};

use b3_io::prefixed;

/// Why the words of a call ask for nothing that can be done.
#[derive(Clone, Copy, Debug, PartialEq, Eq)]
pub enum Usage {
    /// An option that goes with no check.
    CheckExcludes(&'static str),
    /// Two kinds of key.
    TwoKeys,
    /// `--quiet` where nothing is checked.
    QuietAlone,
    /// Raw output of more than one file.
    RawOne,
    /// A key where standard input is to be hashed too.
    KeyNeedsFiles,
    /// An option that goes with no tagged lines.
    TagExcludes(&'static str),
    /// Bytes past the end of the output.
    SeekPastEnd,
    /// `--ignore-missing` where nothing is checked.
    IgnoreMissingAlone,
    /// `--status` where nothing is checked.
    StatusAlone,
    /// `--strict` where nothing is checked.
    StrictAlone,
    /// `--warn` where nothing is checked.
    WarnAlone,
    /// Files beside a list of names.
    ListTakesNoFile,
}

impl Usage {
    ghost use Rattle.b3_program.specs.Usages.{usage_text};

    /// The text for the user, without a line feed: its beginning, and the option that it ends with.
    pub fn text(&self) -> (&'static str, &'static str)
        ensures { result.0.now ++ result.1.now ≡ usage_text self.now }
    {
        match *self {
            Usage::CheckExcludes(option) => (prefixed!("--check cannot be used with "), option),
            Usage::TwoKeys => (prefixed!("--keyed cannot be used with --derive-key"), ""),
            Usage::QuietAlone => (prefixed!("--quiet needs --check"), ""),
            Usage::RawOne => (prefixed!("--raw takes one input"), ""),
            Usage::KeyNeedsFiles => (prefixed!("--keyed needs files"), ""),
            Usage::TagExcludes(option) => (prefixed!("--tag cannot be used with "), option),
            Usage::SeekPastEnd => {
                let text = prefixed!("--seek and --length pass the end of the output");
                (text, "")
            }
            Usage::IgnoreMissingAlone => (prefixed!("--ignore-missing needs --check"), ""),
            Usage::StatusAlone => (prefixed!("--status needs --check"), ""),
            Usage::StrictAlone => (prefixed!("--strict needs --check"), ""),
            Usage::WarnAlone => (prefixed!("--warn needs --check"), ""),
            Usage::ListTakesNoFile => (prefixed!("--files0-from takes no FILE"), ""),
        }
    }
}

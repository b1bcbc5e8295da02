ghost use Rattle.std.specs.Prelude.{◌≡◌, ◌≤◌, ◌^◌, ◌&&◌, not, vec_len};
ghost use Rattle.std.specs.Option.{ForSome};
ghost use Rattle.b3_io.specs.Options.{max_output_len};

/// What the words of a call say.
#[derive(Debug, Drop)]
pub struct Words {
    /// Lists are checked.
    pub check: bool,
    /// The hash is keyed by standard input.
    pub keyed: bool,
    /// The context of a derived key.
    pub derive_key: Option<String>,
    /// How many bytes of the output are written.
    pub length: Option<u32>,
    /// The first byte of the output that is written.
    pub seek: Option<u64>,
    /// The bytes of the output are written, and no digits.
    pub raw: bool,
    /// Digests are written without names.
    pub no_names: bool,
    /// Digests are written in tagged lines.
    pub tag: bool,
    /// Nothing is said of files that are OK.
    pub quiet: bool,
    /// Missing files are passed over.
    pub ignore_missing: bool,
    /// Nothing is written by a check.
    pub status: bool,
    /// A list without a check line fails.
    pub strict: bool,
    /// The list of each malformed line is named.
    pub warn: bool,
    /// How many threads hash.
    pub num_threads: Option<u16>,
    /// The list in which the names of the files are.
    pub files0_from: Option<String>,
    /// A line on the terminal shows how far the run is.
    pub progress: bool,
    /// The files, as they were given.
    pub files: Vec<String>,
    ghost length_in_range: { ForSome length (λ n. n ≤ max_output_len) },
    ghost files_in_range: { vec_len files ≤ 2 ^ 30 },
}

impl Words {
    /// Whether progress is to be shown: not where nothing is written.
    pub fn wants_progress(&self) -> bool
        ensures { result ≡ (self.now.progress && not self.now.status) }
    {
        self.progress && !self.status
    }
}

//! What the program's own texts begin with.

/// A text of the program, with what each of them begins with.
#[macro_export]
macro_rules! prefixed {
    ($text:literal) => {
        concat!("b3sum: ", $text)
    };
}

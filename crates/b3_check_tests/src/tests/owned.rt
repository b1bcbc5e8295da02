// Texts and lists that tests own. Where memory is refused, the process ends.

use std::alloc::Global;
use std::process::Abort;

/// Appends an item.
pub fn append<T: Drop>(rt: &impl Abort, list: &mut Vec<T>, item: T) {
    list.push(item).expect(rt, "memory");
}

/// Appends these bytes.
pub fn append_bytes(rt: &impl Abort, list: &mut Vec<u8>, bytes: &[u8]) {
    list.extend_from_slice(bytes).expect(rt, "memory");
}

/// Appends a text.
pub fn append_text(rt: &impl Abort, all: &mut String, text: &str) {
    all.push_str(text).expect(rt, "memory");
}

/// These bytes.
pub fn bytes_of(rt: &impl Abort, alloc: Global, bytes: &[u8]) -> Vec<u8> {
    Vec::from_slice(alloc, bytes).expect(rt, "memory")
}

/// This text.
pub fn string_of(rt: &impl Abort, alloc: Global, text: &str) -> String {
    String::from_str(alloc, text).expect(rt, "memory")
}

/// These names.
pub fn strings(rt: &impl Abort, alloc: Global, names: &[&str]) -> Vec<String> {
    let mut strings = Vec::new(alloc);
    for name in names {
        append(rt, &mut strings, string_of(rt, alloc, name));
    }
    strings
}

/// A text with this end, so often.
pub fn repeated(rt: &impl Abort, alloc: Global, text: &str, end: &str, times: usize) -> String {
    let mut all = String::new(alloc);
    for _ in 0..times {
        append_text(rt, &mut all, text);
        append_text(rt, &mut all, end);
    }
    all
}

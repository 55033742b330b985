use std::alloc::{AllocError, Global};

/// The characters of a text in UTF-8 on one line: a line feed is written as `\n`.
pub(crate) fn one_line(heap: Global, bytes: &[u8]) -> Result<String, AllocError> {
    String::from_utf8_lossy(heap, bytes)?.replace(heap, '\n', "\\n")
}

// The words of a statement.
use anyhow::Context;
use std::alloc::Global;

// The first word, and what follows the blank behind it.
pub(crate) fn first(line: &str) -> (&str, &str) {
    line.split_once(' ').unwrap_or((line, ""))
}

// `-` stands for a name of no bytes.
pub(crate) fn name(word: &str) -> &[u8] {
    if word == "-" { b"" } else { word.as_bytes() }
}

pub(crate) fn bytes(heap: Global, word: &str) -> anyhow::Result<Vec<u8>> {
    hexadecimal::bytes_named(heap, word.as_bytes())?.context("not hexadecimal digits")
}

pub(crate) fn twenty(heap: Global, word: &str) -> anyhow::Result<[u8; 20]> {
    bytes(heap, word)?
        .as_array()
        .copied()
        .context("not twenty bytes")
}

ghost use Rattle.std.specs.Prelude.{◌≡◌};
ghost use Rattle.sha1_hmac.specs.Message.{digest};
ghost use Rattle.sha1_hmac.specs.Keyed.{hmac_of};
ghost use Rattle.vectors.specs.Copies.{copies};

use anyhow::{Context, anyhow};
use hexadecimal::Digits;
use sha1_hmac::{Hmac, Sha1};
use std::alloc::Global;

// SHA-1 of a text that comes in two pieces, cut at `cut`.
fn in_pieces(text: &[u8], cut: usize) -> [u8; 20]
    ensures { result ≡ digest text.now }
{
    let (front, back) = text.split_at(cut.min(text.len()));
    let mut hash = Sha1::new();
    hash.update(front);
    hash.update(back);
    hash.finish()
}

// HMAC-SHA1 of a text that comes in two pieces, cut at `cut`. A trait over the two states, with a relation of states to texts and an impl for each, would be longer than these calls.
fn hmac_in_pieces(key: [u8; 20], text: &[u8], cut: usize) -> [u8; 20]
    ensures { result ≡ hmac_of key text.now }
{
    let (front, back) = text.split_at(cut.min(text.len()));
    let mut state = Hmac::new(key);
    state.update(front);
    state.update(back);
    state.finish()
}

// How many of the cuts into two pieces give another answer than the whole text.
fn differing_cuts<F: Fn(usize) -> [u8; 20]>(text: &[u8], whole: [u8; 20], in_pieces: F) -> usize
    requires { F.IsAlwaysCallable in_pieces }
{
    (0..text.len())
        .filter(|cut| in_pieces(*cut) != whole)
        .count()
}

// SHA-1 of a text `count` times in a row.
fn repeated(count: u32, text: &[u8]) -> [u8; 20]
    ensures { result ≡ digest (copies count text.now) }
{
    let mut state = Sha1::new();
    for _i in 0..count {
        state.update(text);
    }
    state.finish()
}

// The bytes that a word names.
fn decode(heap: Global, word: &str) -> anyhow::Result<Vec<u8>> {
    hexadecimal::bytes_named(heap, word.as_bytes())?.context("not hexadecimal digits")
}

fn hash_case(heap: Global, text: &str) -> anyhow::Result<String> {
    let text = decode(heap, text)?;
    let whole = sha1_hmac::sha1(&text);
    let differing = differing_cuts(&text, whole, |cut| in_pieces(&text, cut));
    let digest = Digits { bytes: &whole };
    Ok(format!(in heap; "{digest}, other at {differing} cuts")?)
}

fn repeat_case(heap: Global, words: &str) -> anyhow::Result<String> {
    let (count, text) = words.split_once(' ').context("no count")?;
    let text = decode(heap, text)?;
    let digest = repeated(count.parse::<u32>()?, &text);
    let digest = Digits { bytes: &digest };
    Ok(format!(in heap; "{digest}")?)
}

fn hmac_case(heap: Global, words: &str) -> anyhow::Result<String> {
    let (key, text) = words.split_once(' ').context("no key")?;
    let key = sha1_hmac::key_from(&decode(heap, key)?).context("a long key")?;
    let text = decode(heap, text)?;
    let whole = sha1_hmac::hmac(key, &text);
    let differing = differing_cuts(&text, whole, |cut| hmac_in_pieces(key, &text, cut));
    let digest = Digits { bytes: &whole };
    Ok(format!(in heap; "{digest}, other at {differing} cuts")?)
}

// What the crate answers to one line.
pub(crate) fn answer(heap: Global, line: &str) -> anyhow::Result<String> {
    let (kind, words) = line.split_once(' ').context("no case")?;
    match kind {
        "sha1" => hash_case(heap, words),
        "repeat" => repeat_case(heap, words),
        "hmac" => hmac_case(heap, words),
        _ => Err(anyhow!("an unknown case")),
    }
}

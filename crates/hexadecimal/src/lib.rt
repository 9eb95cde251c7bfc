// Bytes as hexadecimal digits, two for each byte.
#![tactic(auto)]

ghost use Rattle.std.specs.Prelude.{◌≡◌, ℕ, ◌+◌, ◌*◌, ◌<◌, List, [], ◌∷◌, ◌++◌, length, IfOk, vec_items, vec_len, codes, fold, true, ◌&&◌, Some, MatchOption, OnOk, nat_lt};
ghost use Rattle.std.specs.Option.{option_map};
ghost use Rattle.std.specs.Str.{bytes_eq};
ghost use Rattle.hexadecimal.specs.Hex.{hex_character, hex_value, hex_text, hex_bytes, bytes_named};

use std::alloc::{AllocError, Global};
use std::fmt;

// Bytes that are printed as digits, in lower case.
#[derive(Clone, Copy)]
pub struct Digits<'a> {
    pub bytes: &'a [u8],
}

impl fmt::Display for Digits<'_> {
    ghost output = { λ d. Some (hex_text d.bytes.now) };

    fn fmt<W: fmt::Write>(&self, f: &mut fmt::Formatter<W>) -> fmt::Result {
        for b in self.bytes {
            f.write_char(char::from(character_of(*b / 16)))?;
            f.write_char(char::from(character_of(*b % 16)))?;
        }
        Ok(())
    }
}

// The number of a digit, in either case.
fn value_of(c: u8) -> Option<u8>
    ensures { MatchOption result (hex_value c ≡ 16) (λ v. (v < 16) × (hex_value c ≡ v)) }
{
    match c {
        b'0'..=b'9' => Some(c - b'0'),
        b'a'..=b'f' => Some(c - b'a' + 10),
        b'A'..=b'F' => Some(c - b'A' + 10),
        _ => None,
    }
}

// The digit of a number below 16.
fn character_of(v: u8) -> u8
    requires { v < 16 }
    ensures { result ≡ hex_character v }
{
    match v {
        0..=9 => b'0' + v,
        _ => b'a' + (v - 10),
    }
}

fn is_digit(c: u8) -> bool
    ensures { result ≡ nat_lt (hex_value c) 16 }
{
    value_of(c).is_some()
}

// Whether each byte is a digit. With no early exit the bytes are tested several at a time.
fn all_digits(hex: &[u8]) -> bool
    ensures { result ≡ fold (λ all c. all && nat_lt (hex_value c) 16) true hex.now }
{
    hex.iter().fold(true, |all, c| all & is_digit(*c))
}

// The bytes that digits write, two for each, if they are so many and each is a digit.
pub fn decode(heap: Global, hex: &[u8]) -> Result<Option<Vec<u8>>, AllocError>
    ensures reads_exactly_pairs_of_digits { IfOk result (λ o. option_map vec_items o ≡ hex_bytes hex.now) }
{
    // Tested before memory is taken: a word that is refused needs none.
    if hex.len() % 2 != 0 || !all_digits(hex) {
        return Ok(None);
    }
    let mut out = Vec::new(heap);
    let mut rest = hex;
    while let Some(([high, low], after)) = rest.split_first_chunk::<2>() {
        let (Some(high), Some(low)) = (value_of(*high), value_of(*low)) else {
            return Ok(None);
        };
        out.push(high * 16 + low)?;
        rest = after;
    }
    if rest.is_empty() {
        Ok(Some(out))
    } else {
        Ok(None)
    }
}

// The bytes that a word names: digits, or '-' for no bytes.
pub fn bytes_named(heap: Global, word: &[u8]) -> Result<Option<Vec<u8>>, AllocError>
    ensures digits_or_a_dash { IfOk result (λ o. option_map vec_items o ≡ bytes_named word.now) }
{
    match word {
        [] => Ok(None),
        [b'-'] => Ok(Some(Vec::new(heap))),
        _ => decode(heap, word),
    }
}

// Adds the digits of some bytes, in lower case.
pub fn push(out: &mut Vec<u8>, bytes: &[u8]) -> Result<(), AllocError>
    ensures adds_two_digits_a_byte { OnOk result (out.new.items ≡ out.old.items ++ hex_text bytes.now) }
{
    for b in bytes {
        out.push(character_of(*b / 16))?;
        out.push(character_of(*b % 16))?;
    }
    Ok(())
}

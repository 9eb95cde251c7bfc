// What a line says.
#![tactic(auto)]

ghost use Rattle.std.specs.Prelude.{◌≡◌};
ghost use Rattle.statement.specs.Lines.{space, blank, comment};
ghost use Rattle.statement.specs.Statements.{says, said};

use crate::lines::split_once;

pub mod lines;

// A statement, with its argument where it stands in the line.
#[derive(Drop)]
pub enum Statement<'a> {
    // A blank line, or a comment: it begins with '#'.
    Nothing,
    // `hash TEXT`: read a key hash.
    Hash(&'a [u8]),
    // `text HEX`: write the text of a key hash.
    Text(&'a [u8]),
    // `covers TERMHEX NAME`: whether a permission term covers a name.
    Covers(&'a [u8]),
    // `sha1 HEX`: the digest of some bytes.
    Sha1(&'a [u8]),
    // `hmac KEYHEX HEX`: the tag of some bytes under a key.
    Hmac(&'a [u8]),
    // Anything else.
    Unknown,
}

// Whether a line has only spaces and tabs.
fn is_blank(line: &[u8]) -> bool
    ensures { result ≡ blank line.now }
{
    line.iter().all(|c| *c == b' ' || *c == b'\t')
}

// Whether a line begins with '#'.
fn is_comment(line: &[u8]) -> bool
    ensures { result ≡ comment line.now }
{
    matches!(line, [b'#', ..])
}

// The statement that a line makes.
pub fn parse(line: &[u8]) -> Statement<'_>
    ensures says_what_the_line_says { said result ≡ says line.now }
{
    if is_blank(line) || is_comment(line) {
        return Statement::Nothing;
    }
    let (word, argument) = split_once(line, b' ');
    // A `match` over these words is cut into some thirty ways over single bytes, and the check finds no proof of the last arm.
    if word == b"hash".as_slice() {
        return Statement::Hash(argument);
    }
    if word == b"text".as_slice() {
        return Statement::Text(argument);
    }
    if word == b"covers".as_slice() {
        return Statement::Covers(argument);
    }
    if word == b"sha1".as_slice() {
        return Statement::Sha1(argument);
    }
    if word == b"hmac".as_slice() {
        return Statement::Hmac(argument);
    }
    Statement::Unknown
}

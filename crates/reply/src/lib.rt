// What is answered to a statement, and the line that says so.
#![tactic(auto)]

ghost use Rattle.std.specs.Prelude.{◌≡◌, List, [], ◌∷◌, ◌++◌, Some, IfOk, codes};
ghost use Rattle.hexadecimal.specs.Hex.{hex_text, hex_bytes, bytes_named};
ghost use Rattle.reply.specs.Replies.{hash_reply, text_reply, covers_reply, sha1_reply, hmac_reply, reply_to, reason, printed};
ghost use Rattle.statement.specs.Lines.{before, after};
ghost use Rattle.statement.specs.Statements.{said};

use keyhash::element;
use refusal::Refusal;
use statement::Statement;
use statement::lines::split_once;
use std::alloc::{AllocError, Global};
use std::fmt;

// What is wrong with a line that is no statement.
#[derive(Clone, Copy, PartialEq, Eq, Debug)]
pub enum Mistake {
    UnknownStatement,
    NoText,
    NotFortyDigits,
    NoTermAndName,
    NoBytes,
    NoKeyAndBytes,
}

// The answer to a statement.
#[derive(Clone, Copy)]
pub enum Reply {
    // The hash that a text reads as.
    Hash([u8; 20]),
    // A text that is the text of no hash.
    Malformed,
    // The text of a hash.
    Text([u8; 119]),
    // Whether a term covers a name, or that one of them is malformed.
    Covers(Result<bool, Refusal>),
    // A digest or a tag.
    Digest([u8; 20]),
    // The line is no statement.
    Mistaken(Mistake),
}

// The reason that is given.
impl fmt::Display for Mistake {
    ghost output = { λ mistake. Some (reason mistake) };

    fn fmt<W: fmt::Write>(&self, f: &mut fmt::Formatter<W>) -> fmt::Result {
        f.write_str(match self {
            Mistake::UnknownStatement =>
                "unknown statement, expected: hash TEXT, text HEX, covers TERMHEX NAME, sha1 HEX or hmac KEYHEX HEX",
            Mistake::NoText => "no text, expected: hash TEXT",
            Mistake::NotFortyDigits => "not 40 hexadecimal digits, expected: text HEX",
            Mistake::NoBytes => "not hexadecimal digits, expected: sha1 HEX",
            Mistake::NoKeyAndBytes =>
                "not a key of at most 20 bytes and hexadecimal digits, expected: hmac KEYHEX HEX",
            Mistake::NoTermAndName =>
                "not hexadecimal digits and a name, expected: covers TERMHEX NAME",
        })
    }
}

// The answer to `hash TEXT`.
fn read(text: &[u8]) -> Reply
    ensures { result ≡ hash_reply text.now }
{
    if text.is_empty() {
        return Reply::Mistaken(Mistake::NoText);
    }
    match element::read(text) {
        Ok(hash) => Reply::Hash(hash),
        Err(_) => Reply::Malformed,
    }
}

// The answer to `text HEX`.
fn write(heap: Global, hex: &[u8]) -> Result<Reply, AllocError>
    ensures { IfOk result (λ x. x ≡ text_reply (hex_bytes hex.now)) }
{
    let Some(bytes) = hexadecimal::decode(heap, hex)? else {
        return Ok(Reply::Mistaken(Mistake::NotFortyDigits));
    };
    let Some(hash) = bytes.as_array::<20>() else {
        return Ok(Reply::Mistaken(Mistake::NotFortyDigits));
    };
    Ok(Reply::Text(element::write(*hash)))
}

// The answer to `covers TERMHEX NAME`.
fn judge(heap: Global, argument: &[u8]) -> Result<Reply, AllocError>
    ensures { IfOk result (λ x. x ≡ covers_reply (before 32 argument.now) (after 32 argument.now)) }
{
    let (digits, name) = split_once(argument, b' ');
    if name.is_empty() {
        return Ok(Reply::Mistaken(Mistake::NoTermAndName));
    }
    let Some(term) = hexadecimal::bytes_named(heap, digits)? else {
        return Ok(Reply::Mistaken(Mistake::NoTermAndName));
    };
    Ok(Reply::Covers(permission::covers(term.as_slice(), name)))
}

// The answer to `sha1 HEX`.
fn digest_of(heap: Global, word: &[u8]) -> Result<Reply, AllocError>
    ensures { IfOk result (λ x. x ≡ sha1_reply (bytes_named word.now)) }
{
    let Some(bytes) = hexadecimal::bytes_named(heap, word)? else {
        return Ok(Reply::Mistaken(Mistake::NoBytes));
    };
    Ok(Reply::Digest(sha1_hmac::sha1(bytes.as_slice())))
}

// The answer to `hmac KEYHEX HEX`.
fn tag_of(heap: Global, argument: &[u8]) -> Result<Reply, AllocError>
    ensures { IfOk result (λ x. x ≡ hmac_reply (bytes_named (before 32 argument.now)) (bytes_named (after 32 argument.now))) }
{
    let (first, second) = split_once(argument, b' ');
    let Some(secret) = hexadecimal::bytes_named(heap, first)? else {
        return Ok(Reply::Mistaken(Mistake::NoKeyAndBytes));
    };
    let Some(bytes) = hexadecimal::bytes_named(heap, second)? else {
        return Ok(Reply::Mistaken(Mistake::NoKeyAndBytes));
    };
    let Some(key) = sha1_hmac::key_from(secret.as_slice()) else {
        return Ok(Reply::Mistaken(Mistake::NoKeyAndBytes));
    };
    Ok(Reply::Digest(sha1_hmac::hmac(key, bytes.as_slice())))
}

// The answer to a statement, if it says something.
pub fn evaluate(heap: Global, statement: Statement<'_>) -> Result<Option<Reply>, AllocError>
    ensures answer_as_defined { IfOk result (λ o. o ≡ reply_to (said statement.entry)) }
{
    match statement {
        Statement::Nothing => Ok(None),
        Statement::Hash(text) => Ok(Some(read(text))),
        Statement::Text(hex) => Ok(Some(write(heap, hex)?)),
        Statement::Covers(argument) => Ok(Some(judge(heap, argument)?)),
        Statement::Sha1(word) => Ok(Some(digest_of(heap, word)?)),
        Statement::Hmac(argument) => Ok(Some(tag_of(heap, argument)?)),
        Statement::Unknown => Ok(Some(Reply::Mistaken(Mistake::UnknownStatement))),
    }
}

// The line that is printed for an answer, less its line feed. Digits are pushed and not formatted: through a formatter, which takes
// each character by itself, an input of hashes takes twice as long.
pub fn line(heap: Global, number: u64, reply: &Reply) -> Result<Vec<u8>, AllocError>
    ensures line_as_defined { IfOk result (λ v. v.items ≡ printed number reply.now) }
{
    match reply {
        Reply::Hash(hash) => {
            let mut line = Vec::new(heap);
            line.extend_from_slice(b"hash ")?;
            hexadecimal::push(&mut line, hash)?;
            Ok(line)
        }
        Reply::Malformed => Vec::from_slice(heap, b"malformed"),
        Reply::Text(text) => {
            let mut line = Vec::from_slice(heap, b"text ")?;
            line.extend_from_slice(text)?;
            Ok(line)
        }
        Reply::Covers(Ok(true)) => Vec::from_slice(heap, b"yes"),
        Reply::Covers(Ok(false)) => Vec::from_slice(heap, b"no"),
        Reply::Covers(Err(_)) => Vec::from_slice(heap, b"malformed"),
        Reply::Digest(value) => {
            let mut line = Vec::new(heap);
            hexadecimal::push(&mut line, value)?;
            Ok(line)
        }
        Reply::Mistaken(mistake) => {
            Ok(format!(in heap; "error {number}: {mistake}")?.into_bytes())
        }
    }
}

// Entries for a web front in C. A slice passes as a pointer and a length, and an answer is a number, which C reads.
#![tactic(auto)]

ghost use Rattle.std.specs.Prelude.{◌≡◌};
ghost use Rattle.webfront.specs.Entries.{hash_read, hash_written, cover_told, answer, output};

use keyhash::element;
use refusal::Refusal;

// Reads the escaped hash element `text` into `hash`. Answers 0, or 402 where the text is malformed or `hash` is not 20 bytes.
#[unsafe(no_mangle)]
pub extern "C" fn hub_hash_read(text: &[u8], hash: &mut [u8]) -> u32
    ensures answer_as_defined { result ≡ answer (hash_read text.now hash.old) }
    ensures output_is_result_or_untouched { hash.new ≡ output (hash_read text.now hash.old) hash.old }
{
    answer_to(read_hash(text, hash))
}

// Writes the escaped hash element of `hash` into `text`. Answers 0, or 402 where `hash` is not 20 bytes or `text` is not 119.
#[unsafe(no_mangle)]
pub extern "C" fn hub_hash_write(hash: &[u8], text: &mut [u8]) -> u32
    ensures answer_as_defined { result ≡ answer (hash_written hash.now text.old) }
    ensures output_is_result_or_untouched { text.new ≡ output (hash_written hash.now text.old) text.old }
{
    answer_to(write_hash(hash, text))
}

// Writes 1 into `covered` where the permission term covers the name, and 0 where it does not. Answers 0, or 402 where the term or the name is malformed or `covered` is not one byte.
#[unsafe(no_mangle)]
pub extern "C" fn hub_term_covers(term: &[u8], name: &[u8], covered: &mut [u8]) -> u32
    ensures answer_as_defined { result ≡ answer (cover_told term.now name.now covered.old) }
    ensures output_is_result_or_untouched { covered.new ≡ output (cover_told term.now name.now covered.old) covered.old }
{
    answer_to(tell_cover(term, name, covered))
}

// 0, or the refusal's error code.
fn answer_to(outcome: Result<(), Refusal>) -> u32
    ensures { result ≡ answer outcome }
{
    match outcome {
        Ok(()) => 0,
        Err(refusal) => u32::from(refusal.code()),
    }
}

fn read_hash(text: &[u8], hash: &mut [u8]) -> Result<(), Refusal>
    ensures answer_as_defined { answer result ≡ answer (hash_read text.now hash.old) }
    ensures output_is_result_or_untouched { hash.new ≡ output (hash_read text.now hash.old) hash.old }
{
    if hash.len() != 20 {
        return Err(Refusal::Malformed);
    }
    hash.copy_from_slice(&element::read(text)?);
    Ok(())
}

fn write_hash(hash: &[u8], text: &mut [u8]) -> Result<(), Refusal>
    ensures answer_as_defined { answer result ≡ answer (hash_written hash.now text.old) }
    ensures output_is_result_or_untouched { text.new ≡ output (hash_written hash.now text.old) text.old }
{
    let hash: &[u8; 20] = hash.as_array().ok_or(Refusal::Malformed)?;
    if text.len() != element::LENGTH {
        return Err(Refusal::Malformed);
    }
    text.copy_from_slice(&element::write(*hash));
    Ok(())
}

fn tell_cover(term: &[u8], name: &[u8], covered: &mut [u8]) -> Result<(), Refusal>
    ensures answer_as_defined { answer result ≡ answer (cover_told term.now name.now covered.old) }
    ensures output_is_result_or_untouched { covered.new ≡ output (cover_told term.now name.now covered.old) covered.old }
{
    if covered.len() != 1 {
        return Err(Refusal::Malformed);
    }
    covered[0] = u8::from(permission::covers(term, name)?);
    Ok(())
}

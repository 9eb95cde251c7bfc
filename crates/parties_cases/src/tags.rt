// Statements to the verifiers.
use crate::words;
use anyhow::anyhow;
use parties::hmac_verifier::HmacVerifier;
use parties::verified_signatures::{VerifiedSignature, VerifiedSignatures};
use parties::verifier::Verifier;
use std::alloc::Global;

fn verified<V: Verifier>(heap: Global, verifier: &V, words: &str) -> anyhow::Result<String> {
    let (key, rest) = words::first(words);
    let (text, tag) = words::first(rest);
    let key = words::twenty(heap, key)?;
    let text = words::bytes(heap, text)?;
    let tag = words::bytes(heap, tag)?;
    let answer = if verifier.verify(&key, &text, &tag) {
        "stands"
    } else {
        "does not stand"
    };
    Ok(format!(in heap; "{answer}")?)
}

pub(crate) fn hmac_answer(heap: Global, words: &str) -> anyhow::Result<String> {
    verified(heap, &HmacVerifier, words)
}

fn signature(heap: Global, words: &str) -> anyhow::Result<VerifiedSignature> {
    let (key_hash, rest) = words::first(words);
    let (text_digest, tag) = words::first(rest);
    Ok(VerifiedSignature {
        key_hash: words::twenty(heap, key_hash)?,
        text_digest: words::twenty(heap, text_digest)?,
        tag: words::twenty(heap, tag)?,
    })
}

pub(crate) fn list_answer(
    heap: Global,
    list: &mut Vec<VerifiedSignature>,
    words: &str,
) -> anyhow::Result<String> {
    let (word, rest) = words::first(words);
    match word {
        "clear" => list.clear(),
        "add" => list.push(signature(heap, rest)?)?,
        "verify" => return verified(
            heap,
            &VerifiedSignatures {
                list: list.as_slice(),
            },
            rest,
        ),
        _ => return Err(anyhow!("an unknown statement to the list")),
    }
    let count = list.len();
    Ok(format!(in heap; "{count} listed")?)
}

pub(crate) fn widths(heap: Global) -> anyhow::Result<String> {
    let hmac = HmacVerifier::tag_width();
    let list = VerifiedSignatures::tag_width();
    Ok(format!(in heap; "{hmac} {list}")?)
}

// One envelope: read, refused, and written again.
use crate::show;
use crate::verifier::SixteenBytes;
use actions::types::{Action, Arguments};
use anyhow::Context;
use parties::hmac_verifier::HmacVerifier;
use std::alloc::Global;
use std::io;
use wire::envelope::Envelope;
use wire::request::{Request, Signer};
use wire::types::Kind;

fn digits_of(heap: Global, digits: &str) -> anyhow::Result<Vec<u8>> {
    hexadecimal::bytes_named(heap, digits.as_bytes())?.context("not hexadecimal digits")
}

// The bytes that a line names.
pub fn bytes_of(heap: Global, line: &str) -> anyhow::Result<Vec<u8>> {
    let Some((digits, zeros)) = line.split_once(' ') else {
        return digits_of(heap, line);
    };
    let mut bytes = digits_of(heap, digits)?;
    for _ in 0..zeros.parse::<u32>()? {
        bytes.push(0)?;
    }
    Ok(bytes)
}

// Who signs an envelope that says the same. Not by `From`: neither type is of this crate.
fn signer_of(envelope: &Envelope) -> Signer {
    match envelope.kind() {
        Kind::Unmarked => Signer::Nobody,
        Kind::Session => Signer::InSession {
            id: envelope.key_number(),
            sequence_number: u32::try_from(envelope.sequence_number()).unwrap_or(u32::MAX),
            key_hash: envelope.signer(),
        },
        Kind::PublicKey => Signer::ByPublicKey {
            lifetime_base: envelope.key_number(),
            key_hash: envelope.signer(),
        },
    }
}

// Whether the writer makes the same signed text of what was read, and leaves the rest of its buffer.
fn is_written_again(envelope: &Envelope) -> bool {
    let request = Request {
        signer: signer_of(envelope),
        action_code: envelope.action_code(),
        control_number: envelope.control_number(),
        arguments: envelope.arguments().bytes,
    };
    let mut out = [0xEE; 800];
    match request.write::<HmacVerifier, SixteenBytes>(&mut out) {
        Ok(n) => { n < out.len() && &out[0..n] == envelope.signed_text().bytes && out[n] == 0xEE }
        Err(_) => false,
    }
}

pub fn judge(rt: &HostRuntime, bytes: &[u8]) -> io::Result<()> {
    let Ok(envelope) = Envelope::read::<HmacVerifier, SixteenBytes>(bytes) else {
        return println!(rt; "malformed header");
    };
    let Ok(action) = Action::try_from(envelope.action_code()) else {
        return println!(rt; "unknown action");
    };
    let given = envelope.arguments().bytes;
    let Ok(arguments) = Arguments::read::<HmacVerifier, SixteenBytes>(action, given) else {
        return println!(rt; "malformed arguments");
    };
    show::header(rt, &envelope)?;
    show::arguments(rt, &arguments)?;
    let again = is_written_again(&envelope);
    println!(rt; " written again {again}")
}

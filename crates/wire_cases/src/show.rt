// What an envelope and its arguments say, as text.
use actions::types::Arguments;
use hexadecimal::Digits;
use records::Scope;
use std::io;
use wire::envelope::{Envelope, Part};
use wire::types::Kind;

fn labelled(rt: &HostRuntime, label: &str, bytes: &[u8]) -> io::Result<()> {
    let digits = Digits { bytes };
    print!(rt; " {label} {digits}")
}

fn part(rt: &HostRuntime, label: &str, part: Part) -> io::Result<()> {
    let offset = part.offset;
    let length = part.bytes.len();
    print!(rt; " {label} {offset}+{length}")
}

// Not by `Display`: the type is of another crate, and these words are of this program.
fn kind(k: Kind) -> &'static str {
    match k {
        Kind::Unmarked => "unmarked",
        Kind::Session => "session",
        Kind::PublicKey => "public key",
    }
}

pub fn header(rt: &HostRuntime, envelope: &Envelope) -> io::Result<()> {
    let kind = kind(envelope.kind());
    let control = envelope.control_number();
    let key = envelope.key_number();
    let number = envelope.sequence_number();
    print!(rt; "{kind} control {control} key {key} number {number}")?;
    labelled(rt, "signer", &envelope.signer())?;
    part(rt, "arguments", envelope.arguments())?;
    part(rt, "text", envelope.signed_text())?;
    part(rt, "tag", envelope.tag())?;
    labelled(rt, "tag", envelope.tag().bytes)
}

fn scope(rt: &HostRuntime, scope: &Scope) -> io::Result<()> {
    let delegate = scope.delegate;
    let from = scope.not_before;
    let to = scope.not_after;
    let length = scope.term_length;
    print!(rt; " delegate {delegate} from {from} to {to} length {length}")?;
    labelled(rt, "term", &scope.term)
}

pub fn arguments(rt: &HostRuntime, arguments: &Arguments) -> io::Result<()> {
    match arguments {
        Arguments::TakeOwnership { proof } => {
            print!(rt; " TakeOwnership")?;
            labelled(rt, "proof", proof)
        }
        Arguments::SetSessionKeys { key } => {
            print!(rt; " SetSessionKeys")?;
            labelled(rt, "key", key)
        }
        Arguments::ExpireSessionKeys => print!(rt; " ExpireSessionKeys"),
        Arguments::GrantOwnership { hash } => {
            print!(rt; " GrantOwnership")?;
            labelled(rt, "hash", hash)
        }
        Arguments::RevokeOwnership { hash } => {
            print!(rt; " RevokeOwnership")?;
            labelled(rt, "hash", hash)
        }
        Arguments::AddAclEntry { entry } => {
            print!(rt; " AddACLEntry")?;
            labelled(rt, "subject", &entry.subject)?;
            scope(rt, &entry.scope)
        }
        Arguments::DeleteAclEntry { entry } => {
            print!(rt; " DeleteACLEntry")?;
            labelled(rt, "subject", &entry.subject)?;
            scope(rt, &entry.scope)
        }
        Arguments::CacheCertificate {
            certificate,
            bytes,
            issuer_tag,
        } => {
            let length = bytes.len();
            print!(rt; " CacheCertificate of {length}")?;
            labelled(rt, "issuer", &certificate.issuer)?;
            labelled(rt, "subject", &certificate.subject)?;
            labelled(rt, "device", &certificate.device)?;
            scope(rt, &certificate.scope)?;
            labelled(rt, "by", issuer_tag)
        }
        Arguments::FactorySecurityReset => print!(rt; " FactorySecurityReset"),
        Arguments::Perform { name, payload } => {
            print!(rt; " Perform")?;
            labelled(rt, "name", name)?;
            labelled(rt, "payload", payload)
        }
    }
}

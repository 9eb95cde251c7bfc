// The arguments of an action, read from the bytes that hold them.
ghost use Rattle.std.specs.Prelude.{◌≡◌, ◌≤◌};
ghost use Rattle.actions.specs.Arguments.{Arguments.take_ownership, Arguments.set_session_keys, bytes_in, nothing_in, caching_of, caching_in, performing_of, perform_in, arguments_in};
ghost use Rattle.actions.specs.Forms.{ReadExactly};
ghost use Rattle.actions.specs.Views.{saying, answered};

use crate::types::{Action, Arguments};
use keyhash::element;
use parties::verifier::Verifier;
use records::{Certificate, Entry};
use refusal::Refusal;
use wire::types::TagLengths;

const CERTIFICATE_LENGTH: usize = 126;

const LONGEST_PAYLOAD: usize = 512;

// A tag of the session verifier.
#[tactic(auto, unfolding(crate::specs::Arguments::bytes_in))]
fn proof_in<'a>(bytes: &'a [u8], width: usize) -> Result<Arguments<'a>, Refusal>
    ensures { answered result ≡ bytes_in width take_ownership bytes.now }
{
    if bytes.len() != width {
        return Err(Refusal::Malformed);
    }
    Ok(Arguments::TakeOwnership { proof: bytes })
}

#[tactic(auto, unfolding(crate::specs::Arguments::bytes_in))]
fn key_in<'a>(bytes: &'a [u8]) -> Result<Arguments<'a>, Refusal>
    ensures { answered result ≡ bytes_in 20 set_session_keys bytes.now }
{
    let key = bytes.as_array().ok_or(Refusal::Malformed)?;
    Ok(Arguments::SetSessionKeys { key: *key })
}

// A certificate and a tag of the public verifier.
#[tactic(auto, unfolding(crate::specs::Arguments::caching_in))]
fn certificate_in<'a>(bytes: &'a [u8], lengths: TagLengths) -> Result<Arguments<'a>, Refusal>
    ensures { answered result ≡ caching_in lengths.public bytes.now }
{
    if bytes.len() != CERTIFICATE_LENGTH + lengths.public {
        return Err(Refusal::Malformed);
    }
    let (signed, issuer_tag) = bytes.split_at(CERTIFICATE_LENGTH);
    caching(signed, issuer_tag)
}

#[tactic(auto, unfolding(crate::specs::Arguments::caching_of))]
fn caching<'a>(bytes: &'a [u8], issuer_tag: &'a [u8]) -> Result<Arguments<'a>, Refusal>
    ensures { answered result ≡ caching_of bytes.now issuer_tag.now }
{
    let certificate = Certificate::read(bytes)?;
    Ok(Arguments::CacheCertificate {
        certificate,
        bytes,
        issuer_tag,
    })
}

// The length of a name, the name, and a payload.
#[tactic(auto, unfolding(crate::specs::Arguments::perform_in))]
fn command_in<'a>(bytes: &'a [u8]) -> Result<Arguments<'a>, Refusal>
    ensures { answered result ≡ perform_in bytes.now }
{
    let [n, rest @ ..] = bytes else {
        return Err(Refusal::Malformed);
    };
    let n = usize::from(*n);
    if n > rest.len() {
        return Err(Refusal::Malformed);
    }
    let (name, payload) = rest.split_at(n);
    performing(name, payload)
}

#[tactic(auto, unfolding(crate::specs::Arguments::performing_of))]
fn performing<'a>(name: &'a [u8], payload: &'a [u8]) -> Result<Arguments<'a>, Refusal>
    ensures { answered result ≡ performing_of name.now payload.now }
{
    if !(permission::is_name(name) & (payload.len() <= LONGEST_PAYLOAD)) {
        return Err(Refusal::Malformed);
    }
    Ok(Arguments::Perform { name, payload })
}

// No bytes at all.
#[tactic(auto, unfolding(crate::specs::Arguments::nothing_in))]
fn nothing_in<'a>(bytes: &[u8], arguments: Arguments<'a>) -> Result<Arguments<'a>, Refusal>
    ensures { answered result ≡ nothing_in (saying arguments.entry) bytes.now }
{
    if bytes.is_empty() {
        Ok(arguments)
    } else {
        Err(Refusal::Malformed)
    }
}

// Reads the arguments, where the tags are so long.
fn read_with<'a>(
    action: Action,
    bytes: &'a [u8],
    lengths: TagLengths,
) -> Result<Arguments<'a>, Refusal>
    ensures { answered result ≡ arguments_in lengths.session lengths.public action bytes.now }
{
    match action {
        Action::TakeOwnership => proof_in(bytes, lengths.session),
        Action::SetSessionKeys => key_in(bytes),
        Action::ExpireSessionKeys => nothing_in(bytes, Arguments::ExpireSessionKeys),
        Action::GrantOwnership => Ok(Arguments::GrantOwnership {
            hash: element::read(bytes)?,
        }),
        Action::RevokeOwnership => Ok(Arguments::RevokeOwnership {
            hash: element::read(bytes)?,
        }),
        Action::AddAclEntry => Ok(Arguments::AddAclEntry {
            entry: Entry::read(bytes)?,
        }),
        Action::DeleteAclEntry => Ok(Arguments::DeleteAclEntry {
            entry: Entry::read(bytes)?,
        }),
        Action::CacheCertificate => certificate_in(bytes, lengths),
        Action::FactorySecurityReset => nothing_in(bytes, Arguments::FactorySecurityReset),
        Action::Perform => command_in(bytes),
    }
}

impl<'a> Arguments<'a> {
    // The arguments that the bytes hold for an action, for these two verifiers.
    pub fn read<S: Verifier, P: Verifier>(
        action: Action,
        bytes: &'a [u8],
    ) -> Result<Arguments<'a>, Refusal>
        ensures as_defined { answered result ≡ arguments_in S.Verifier.width P.Verifier.width action bytes.now }
        ensures arguments_are_read_exactly { ReadExactly S.Verifier.width P.Verifier.width }
    {
        read_with(action, bytes, TagLengths::of::<S, P>())
    }
}

// An envelope, read where it lies.
ghost use Rattle.std.specs.Prelude.{◌≡◌, ◌+◌, ◌≤◌, true, length, take, drop, is_ok, Decides};
ghost use Rattle.std.specs.Str.{bytes_eq};
ghost use Rattle.wire.specs.Envelope.{kind_of, kind_in, header_length, arguments_place, arguments_length, tag_place, tag_length, no_signer, unused_fields_zero, places_agree, sound_of_kind, sound_header, WellFormedHeader, PartsLie};
ghost use Rattle.wire.specs.Header.{placed, header_of, header_in};
ghost use Rattle.wire.specs.Views.{part as part_of, header as headerFrom, answered};

use crate::fields::{array_at, u16_at, u32_at, u64_at};
use crate::header::Header;
use crate::layout::*;
use crate::types::{Kind, TagLengths};
use parties::verifier::Verifier;
use refusal::Refusal;

// A part of an envelope, and the place where it begins.
#[derive(Clone, Copy)]
pub struct Part<'a> {
    pub offset: usize,
    pub bytes: &'a [u8],
}

// An envelope with a well-formed header.
#[derive(Clone, Copy)]
pub struct Envelope<'a> {
    kind: Kind,
    action_code: u8,
    control_number: u16,
    key_number: u64,
    sequence_number: u64,
    signer: [u8; 20],
    arguments: Part<'a>,
    signed_text: Part<'a>,
    tag: Part<'a>,
}

// Cuts an envelope into its parts, once they are known to lie within it.
#[tactic(auto, unfolding(crate::specs::Envelope::number_at, crate::specs::Envelope::kind_of, crate::specs::Envelope::signer, crate::specs::Envelope::arguments, crate::specs::Envelope::signed_text, crate::specs::Envelope::tag))]
fn opened<'a>(header: &Header<'a>) -> Envelope<'a>
    requires of_kind { kind_in header.now.bytes.now ≡ header.now.kind }
    requires arguments_within { arguments_place header.now.bytes.now + arguments_length header.now.bytes.now ≤ length header.now.bytes.now }
    requires tag_within { tag_place header.now.bytes.now + tag_length header.now.bytes.now ≤ length header.now.bytes.now }
    ensures { headerFrom result ≡ header_of header.now.bytes.now }
{
    let Header { kind, bytes } = *header;
    let arguments = usize::from(u16_at(bytes, ARGUMENTS_OFFSET));
    let arguments_length = usize::from(u16_at(bytes, ARGUMENTS_LENGTH));
    let tag = usize::from(u16_at(bytes, TAG_OFFSET));
    let tag_length = usize::from(u16_at(bytes, TAG_LENGTH));
    Envelope {
        kind,
        action_code: bytes[ACTION_CODE],
        control_number: u16_at(bytes, CONTROL_NUMBER),
        key_number: u64_at(bytes, KEY_NUMBER),
        sequence_number: u64::from(u32_at(bytes, SEQUENCE_NUMBER)),
        signer: array_at(bytes, SIGNER),
        arguments: part_of(bytes, arguments, arguments_length),
        signed_text: part_of(bytes, 0, tag),
        tag: part_of(bytes, tag, tag_length),
    }
}

fn part_of<'a>(bytes: &'a [u8], offset: usize, count: usize) -> Part<'a>
    requires { offset + count ≤ length bytes.now }
    ensures { part_of result ≡ placed offset (take count (drop offset bytes.now)) }
{
    Part {
        offset,
        bytes: &bytes[offset..offset + count],
    }
}

// The kind of an envelope, by its first byte.
#[tactic(auto, unfolding(crate::specs::Envelope::kind_of))]
fn kind_in(bytes: &[u8]) -> Option<Kind>
    ensures { result ≡ kind_of bytes.now }
{
    let [number, ..] = bytes else {
        return None;
    };
    Kind::try_from(*number).ok()
}

// Reads an envelope whose tags are so long.
fn read_with<'a>(bytes: &'a [u8], lengths: TagLengths) -> Result<Envelope<'a>, Refusal>
    ensures as_defined { answered result ≡ header_in lengths.session lengths.public bytes.now }
    ensures accepts_exactly_the_well_formed { Decides (is_ok result) (WellFormedHeader lengths.session lengths.public bytes.now) }
    ensures parts_lie_as_laid_out { sound_header lengths.session lengths.public bytes.now ≡ true → PartsLie lengths.session lengths.public bytes.now }
{
    let kind = kind_in(bytes).ok_or(Refusal::Malformed)?;
    let width = lengths.for_kind(kind);
    let header = Header::sound(bytes, kind, width).ok_or(Refusal::Malformed)?;
    Ok(opened(&header))
}

impl<'a> Envelope<'a> {
    // The envelope that the bytes are, for these two verifiers.
    pub fn read<S: Verifier, P: Verifier>(bytes: &'a [u8]) -> Result<Envelope<'a>, Refusal>
        ensures as_defined { answered result ≡ header_in S.Verifier.width P.Verifier.width bytes.now }
        ensures accepts_exactly_the_well_formed { Decides (is_ok result) (WellFormedHeader S.Verifier.width P.Verifier.width bytes.now) }
        ensures parts_lie_as_laid_out { sound_header S.Verifier.width P.Verifier.width bytes.now ≡ true → PartsLie S.Verifier.width P.Verifier.width bytes.now }
    {
        read_with(bytes, TagLengths::of::<S, P>())
    }

    pub fn kind(&self) -> Kind
        ensures { result ≡ (headerFrom self.now).kind }
    {
        self.kind
    }

    pub fn action_code(&self) -> u8
        ensures { result ≡ (headerFrom self.now).action_code }
    {
        self.action_code
    }

    pub fn control_number(&self) -> u16
        ensures { result ≡ (headerFrom self.now).control_number }
    {
        self.control_number
    }

    // The id of a session, or the lifetime base that a public key signs for.
    pub fn key_number(&self) -> u64
        ensures { result ≡ (headerFrom self.now).key_number }
    {
        self.key_number
    }

    pub fn sequence_number(&self) -> u64
        ensures { result ≡ (headerFrom self.now).sequence_number }
    {
        self.sequence_number
    }

    // The signer's key hash.
    pub fn signer(&self) -> [u8; 20]
        ensures { result ≡ (headerFrom self.now).signer }
    {
        self.signer
    }

    pub fn arguments(&self) -> Part<'a>
        ensures { part_of result ≡ (headerFrom self.now).arguments }
    {
        self.arguments
    }

    // Everything before the tag.
    pub fn signed_text(&self) -> Part<'a>
        ensures { part_of result ≡ (headerFrom self.now).signed_text }
    {
        self.signed_text
    }

    pub fn tag(&self) -> Part<'a>
        ensures { part_of result ≡ (headerFrom self.now).tag }
    {
        self.tag
    }
}

// The signed text of an envelope, written from its fields.
ghost use Rattle.std.specs.Prelude.{◌≡◌, ℕ, ◌+◌, ◌^◌, ◌<◌, ◌≤◌, true, ◌++◌, length, take, drop, is_ok};
ghost use Rattle.records.specs.Records.{big_endian};
ghost use Rattle.wire.specs.Writing.{text_length, longest, front_bytes, signed_text_of, Fits, writing, filled, writing_for, filled_for, ReadsBack};
ghost use Rattle.wire.specs.Requests.{kind_by, key_number_by, sequence_number_by, signer_by, fields_of};

use crate::layout::{KEY_NUMBER, SEQUENCE_NUMBER, SIGNER, header_length};
use crate::types::{Kind, TagLengths};
use parties::verifier::Verifier;
use refusal::Refusal;

// Who signs an envelope, and what its header then says.
#[derive(Clone, Copy)]
pub enum Signer {
    Nobody,
    InSession {
        id: u64,
        sequence_number: u32,
        key_hash: [u8; 20],
    },
    ByPublicKey {
        lifetime_base: u64,
        key_hash: [u8; 20],
    },
}

// What an envelope is to say.
#[derive(Clone, Copy)]
pub struct Request<'a> {
    pub signer: Signer,
    pub action_code: u8,
    pub control_number: u16,
    pub arguments: &'a [u8],
}

impl Signer {
    fn kind(self) -> Kind
        ensures { result ≡ kind_by self }
    {
        match self {
            Signer::Nobody => Kind::Unmarked,
            Signer::InSession { .. } => Kind::Session,
            Signer::ByPublicKey { .. } => Kind::PublicKey,
        }
    }

    fn key_number(self) -> u64
        ensures { result ≡ key_number_by self }
    {
        match self {
            Signer::Nobody => 0,
            Signer::InSession { id, .. } => id,
            Signer::ByPublicKey { lifetime_base, .. } => lifetime_base,
        }
    }

    fn sequence_number(self) -> u32
        ensures { result ≡ sequence_number_by self }
    {
        match self {
            Signer::InSession {
                sequence_number,
                ..
            } => sequence_number,
            _ => 0,
        }
    }

    fn key_hash(self) -> [u8; 20]
        ensures { result ≡ signer_by self }
    {
        match self {
            Signer::Nobody => [0; 20],
            Signer::InSession { key_hash, .. } => key_hash,
            Signer::ByPublicKey { key_hash, .. } => key_hash,
        }
    }
}

// A key hash has so many bytes.
const HASH_LENGTH: usize = 20;

// The longest envelope: its length is held in two bytes.
const LONGEST: usize = 0xFFFF;

impl Request<'_> {
    // The first fourteen bytes, where the tag has `width` bytes.
    fn front(&self, width: usize) -> [u8; 14]
        requires { text_length (fields_of self.now) + width ≤ longest }
        ensures bytes { result ≡ front_bytes width (fields_of self.now) }
        ensures action_fits { self.now.action_code < 256 }
        ensures control_fits { self.now.control_number < 256 ^ 2 }
    {
        let kind = self.signer.kind();
        let header = header_length(kind);
        let arguments = self.arguments.len();
        let [c0, c1] = self.control_number.to_be_bytes();
        let [t0, t1] = ((header + arguments + width) as u16).to_be_bytes();
        let [h0, h1] = (header as u16).to_be_bytes();
        let [a0, a1] = (arguments as u16).to_be_bytes();
        let [g0, g1] = ((header + arguments) as u16).to_be_bytes();
        let [w0, w1] = (width as u16).to_be_bytes();
        [
            kind.number(),
            self.action_code,
            c0,
            c1,
            t0,
            t1,
            h0,
            h1,
            a0,
            a1,
            g0,
            g1,
            w0,
            w1,
        ]
    }

    // Writes the text at the front of `out`, and answers its length.
    fn put_text(&self, width: usize, out: &mut [u8]) -> usize
        requires lengths_fit { text_length (fields_of self.now) + width ≤ longest }
        requires room { text_length (fields_of self.now) ≤ length out.old }
        ensures length { result ≡ text_length (fields_of self.now) }
        ensures buffer { out.new ≡ signed_text_of width (fields_of self.now) ++ drop (text_length (fields_of self.now)) out.old }
        ensures fields_fit { Fits width (fields_of self.now) }
    {
        let (front, rest) = out.split_at_mut(KEY_NUMBER);
        let (key_number, rest) = rest.split_at_mut(SEQUENCE_NUMBER - KEY_NUMBER);
        let (sequence_number, rest) = rest.split_at_mut(SIGNER - SEQUENCE_NUMBER);
        let (signer, rest) = rest.split_at_mut(HASH_LENGTH);
        let (arguments, _) = rest.split_at_mut(self.arguments.len());
        front.copy_from_slice(&self.front(width));
        key_number.copy_from_slice(&self.signer.key_number().to_be_bytes());
        sequence_number.copy_from_slice(&self.signer.sequence_number().to_be_bytes());
        signer.copy_from_slice(&self.signer.key_hash());
        arguments.copy_from_slice(self.arguments);
        SIGNER + HASH_LENGTH + self.arguments.len()
    }

    // The same for any buffer, where the tag has `width` bytes.
    fn write_with(&self, width: usize, out: &mut [u8]) -> Result<usize, Refusal>
        requires { width ≤ 20 }
        ensures as_defined { result ≡ writing width (fields_of self.now) (length out.old) }
        ensures buffer { out.new ≡ filled width (fields_of self.now) out.old }
        ensures fields_fit { is_ok result ≡ true → Fits width (fields_of self.now) }
    {
        let header = header_length(self.signer.kind());
        if self.arguments.len() > LONGEST - header - width {
            return Err(Refusal::Malformed);
        }
        if out.len() < header + self.arguments.len() {
            return Err(Refusal::ShortBuffer);
        }
        Ok(self.put_text(width, out))
    }

    // The same, where the tags are so long.
    fn write_for(&self, lengths: TagLengths, out: &mut [u8]) -> Result<usize, Refusal>
        ensures as_defined { result ≡ writing_for lengths.session lengths.public (fields_of self.now) (length out.old) }
        ensures buffer { out.new ≡ filled_for lengths.session lengths.public (fields_of self.now) out.old }
        ensures reads_back { is_ok result ≡ true → ReadsBack lengths.session lengths.public (fields_of self.now) }
    {
        self.write_with(lengths.for_kind(self.signer.kind()), out)
    }

    // Writes the signed text of the envelope that says this, for these two verifiers, and answers its length.
    // What follows the text in `out` stays, and a refusal leaves all of it.
    pub fn write<S: Verifier, P: Verifier>(&self, out: &mut [u8]) -> Result<usize, Refusal>
        ensures as_defined { result ≡ writing_for S.Verifier.width P.Verifier.width (fields_of self.now) (length out.old) }
        ensures buffer { out.new ≡ filled_for S.Verifier.width P.Verifier.width (fields_of self.now) out.old }
        ensures reads_back { is_ok result ≡ true → ReadsBack S.Verifier.width P.Verifier.width (fields_of self.now) }
    {
        self.write_for(TagLengths::of::<S, P>(), out)
    }
}

// The header of an envelope: whether its fields agree, and the envelope that it tells of.
ghost use Rattle.std.specs.Prelude.{◌≡◌, ◌≤◌, true, false, length, MatchOption};
ghost use Rattle.wire.specs.Envelope.{header_length, places_agree, unused_fields_zero, sound_of_kind};

use crate::fields::{array_at, u16_at, u32_at, u64_at};
use crate::layout::*;
use crate::types::Kind;

// What stands in place of a signer's hash where no one signs.
const NO_SIGNER: [u8; 20] = [0; 20];

// The kind that an envelope's first byte names, and bytes that a header of this kind fits in.
#[derive(Clone, Copy)]
pub(crate) struct Header<'a> {
    pub(crate) kind: Kind,
    pub(crate) bytes: &'a [u8],
    ghost header_within: { header_length kind ≤ length bytes.now },
}

impl<'a> Header<'a> {
    // The header of an envelope of that kind with a tag of `width` bytes, where it is well formed.
    #[tactic(auto, unfolding(crate::specs::Envelope::sound_of_kind))]
    pub(crate) fn sound(bytes: &'a [u8], kind: Kind, width: usize) -> Option<Header<'a>>
        ensures { MatchOption result (sound_of_kind width kind bytes.now ≡ false) (λ header. (sound_of_kind width kind bytes.now ≡ true) × (header.kind ≡ kind) × (header.bytes.now ≡ bytes.now)) }
    {
        if bytes.len() < header_length(kind) {
            return None;
        }
        let header = Header { kind, bytes };
        if header.places_agree(width) & header.unused_fields_zero() {
            Some(header)
        } else {
            None
        }
    }

    // Whether the arguments follow the header, the tag of `width` bytes follows them, and nothing follows the tag.
    #[tactic(auto, unfolding(crate::specs::Envelope::places_agree))]
    fn places_agree(&self, width: usize) -> bool
        ensures { result ≡ places_agree width self.now.kind self.now.bytes.now }
    {
        let bytes = self.bytes;
        let total = usize::from(u16_at(bytes, TOTAL_LENGTH));
        let arguments = usize::from(u16_at(bytes, ARGUMENTS_OFFSET));
        let arguments_end = arguments + usize::from(u16_at(bytes, ARGUMENTS_LENGTH));
        let tag = usize::from(u16_at(bytes, TAG_OFFSET));
        let tag_length = usize::from(u16_at(bytes, TAG_LENGTH));
        ((total == bytes.len()) & (arguments == header_length(self.kind)))
            & (((tag == arguments_end) & (tag + tag_length == total)) & (tag_length == width))
    }

    // Whether the fields that the kind has no use for are zero.
    fn unused_fields_zero(&self) -> bool
        ensures { result ≡ unused_fields_zero self.now.kind self.now.bytes.now }
    {
        let bytes = self.bytes;
        match self.kind {
            Kind::Unmarked => {
                ((u64_at(bytes, KEY_NUMBER) == 0) & (u32_at(bytes, SEQUENCE_NUMBER) == 0))
                    & (array_at(bytes, SIGNER) == NO_SIGNER)
            }
            Kind::Session => true,
            Kind::PublicKey => u32_at(bytes, SEQUENCE_NUMBER) == 0,
        }
    }
}

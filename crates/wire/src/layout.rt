// Where the fields of an envelope lie, and what depends on its kind.
ghost use Rattle.std.specs.Prelude.{◌≡◌};
ghost use Rattle.wire.specs.Envelope.{header_length};

use crate::types::Kind;

// Where the fields lie.
pub const ACTION_CODE: usize = 1;

pub const CONTROL_NUMBER: usize = 2;

pub const TOTAL_LENGTH: usize = 4;

pub const ARGUMENTS_OFFSET: usize = 6;

pub const ARGUMENTS_LENGTH: usize = 8;

pub const TAG_OFFSET: usize = 10;

pub const TAG_LENGTH: usize = 12;

pub const KEY_NUMBER: usize = 14;

pub const SEQUENCE_NUMBER: usize = 22;

pub const SIGNER: usize = 26;

const HEADER_LENGTH: usize = 46;

pub fn header_length(kind: Kind) -> usize
    ensures { result ≡ header_length kind }
{
    HEADER_LENGTH
}

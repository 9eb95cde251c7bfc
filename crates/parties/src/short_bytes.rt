ghost use Rattle.std.specs.Prelude.{◌≡◌, ◌≤◌, length};
ghost use Rattle.std.specs.Option.{SomeIff};

use std::marker::Model;

// At most sixteen bytes, in place, with zeros behind them. The kit's vector would do, but it is not `Copy`, as a stored command has to be.
#[derive(Clone, Copy)]
pub struct ShortBytes {
    bytes: [u8; 16],
    len: usize,
}

impl Model for ShortBytes {
    ghost use Rattle.std.specs.Prelude.{ℕ, ◌-◌, List, ◌++◌, length, take, replicate};
    ghost use Rattle.std.proofs.Common.{ap₂};
    ghost use Rattle.parties.specs.ZeroFilled.{IsZeroFilled, bytes_again, length_again};

    ghost Value = { List ℕ };

    ghost view = { λ s. take s.len s.bytes };

    ghost invariant = { λ s. IsZeroFilled s.len s.bytes };

    ghost inverse = { λ xs. record { bytes = xs ++ replicate (16 - length xs) 0; len = length xs } };

    ghost inverse_ok = { λ s h. ap₂ (λ bytes len. record { bytes = bytes; len = len }) (bytes_again s.len s.bytes h) (length_again s.len s.bytes h) };
}

impl Default for ShortBytes {
    fn default() -> ShortBytes {
        ShortBytes {
            bytes: [0; 16],
            len: 0,
        }
    }
}

impl ShortBytes {
    // The bytes, where there is room for them.
    pub(crate) fn copied(s: &[u8]) -> Option<ShortBytes>
        ensures { SomeIff result (length s.now ≤ 16) s.now }
    {
        if s.len() > 16 {
            return None;
        }
        let mut bytes = [0; 16];
        bytes[..s.len()].copy_from_slice(s);
        Some(ShortBytes {
            bytes,
            len: s.len(),
        })
    }

    pub(crate) fn as_slice(&self) -> &[u8]
        ensures { result.now ≡ self.now }
    {
        &self.bytes[..self.len]
    }
}

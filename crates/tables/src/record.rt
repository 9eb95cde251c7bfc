// What a table asks of its records: a key by which one is found, and a test that decides whether two keys are equal.
ghost use Rattle.std.specs.Prelude.{◌≡◌, Bool, Decides};
ghost use Rattle.std.specs.Str.{bytes_eq};
ghost use Rattle.std.proofs.lemmas.Slice.Eq.{bytes_eq-Decides};

pub trait Record: Copy {
    // The whole record, or a part of it that names it.
    type Key;

    ghost key: { Self → Self.Key };

    ghost equal: { Self.Key → Self.Key → Bool };

    fn has_key(&self, sought: &Self::Key) -> bool
        ensures { result ≡ equal (key self.now) sought.now };

    ghost decides: { (a b : Self.Key) → Decides (equal a b) (a ≡ b) };
}

// A hash is its own key.
impl Record for [u8; 20] {
    type Key = [u8; 20];

    ghost key = { λ h. h };

    ghost equal = { bytes_eq };

    ghost decides = { bytes_eq-Decides };

    fn has_key(&self, sought: &[u8; 20]) -> bool {
        *self == *sought
    }
}

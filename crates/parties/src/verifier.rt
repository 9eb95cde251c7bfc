ghost use Rattle.std.specs.Prelude.{◌≡◌, ℕ, ◌≤◌, Bool, List};
ghost use Rattle.parties.specs.Standing.{OtherLengthsNeverStand};

// Decides whether a tag stands for a key and a text.
pub trait Verifier {
    const TAG_LENGTH: usize;

    // The tag length, as clauses name it.
    ghost width: { ℕ };

    // Whether a tag stands for a key and a text, in this order: key, text, tag.
    ghost stands: { Self → List ℕ → List ℕ → List ℕ → Bool };

    // The clauses here and above name the tag length as `width`, and this call is what ties the constant to it.
    fn tag_width() -> usize
        ensures is_the_width { result ≡ width }
        ensures has_1_to_20_bytes { (1 ≤ width) × (width ≤ 20) };

    fn verify(&self, key: &[u8; 20], text: &[u8], tag: &[u8]) -> bool
        ensures says_whether_it_stands { result ≡ stands self.now key.now text.now tag.now }
        ensures other_lengths_never_stand { OtherLengthsNeverStand width (stands self.now) };

    ghost from_1_to_20_bytes: { (1 ≤ width) × (width ≤ 20) };
}

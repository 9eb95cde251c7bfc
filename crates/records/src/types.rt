// Entries and certificates, and the scope that both carry. What is alike in them is the scope; one type for both, of one hash or of
// three, would have numbers where these have names.

// What an entry or a certificate allows: whether it may be passed on, when it applies, and to which names.
// The term is the first `term_length` bytes of `term`; zeros fill the rest. An array with a length, as it is on the wire and in fixed
// memory: a record has no heap, and is `Copy`.
#[derive(Clone, Copy, PartialEq, Eq)]
pub struct Scope {
    pub delegate: bool,
    pub not_before: u64,
    pub not_after: u64,
    pub term_length: u8,
    pub term: [u8; 48],
}

// What an owner allows the subject, by its key hash.
#[derive(Clone, Copy, PartialEq, Eq)]
pub struct Entry {
    pub subject: [u8; 20],
    pub scope: Scope,
}

// What the issuer allows the subject on one device, each by its hash.
#[derive(Clone, Copy, PartialEq, Eq)]
pub struct Certificate {
    pub issuer: [u8; 20],
    pub subject: [u8; 20],
    pub device: [u8; 20],
    pub scope: Scope,
}

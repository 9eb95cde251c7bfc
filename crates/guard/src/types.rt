use parties::verifier::Verifier;
use records::{Certificate, Entry};
use sessions::Sessions;
use tables::Table;

// What a hub keeps to decide which requests reach its service. Fixed memory, and no heap.
#[derive(Drop)]
pub struct Guard {
    pub(crate) device: [u8; 20],
    pub(crate) password: [u8; 20],
    pub(crate) base: u64,
    pub(crate) owners: Table<[u8; 20], 8>,
    pub(crate) entries: Table<Entry, 32>,
    pub(crate) certificates: Table<Certificate, 16>,
    pub(crate) sessions: Sessions,
}

// What is brought to a guard: an envelope, the control number of the URL that it came to, a reading of the clock, and the two
// verifiers.
#[derive(Drop)]
pub struct Delivery<'a, V: Verifier, P: Verifier> {
    pub envelope: &'a [u8],
    pub control: u16,
    pub clock: u64,
    pub session: &'a V,
    pub public: &'a P,
}

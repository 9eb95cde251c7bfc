// Sessions and their names.
// An open session: who signs under it, by which key, and the last number that was used. It is neither printed nor compared as a whole:
// the key is a secret.
#[derive(Clone, Copy, Default)]
pub struct Session {
    pub id: u64,
    pub signer: [u8; 20],
    pub key: [u8; 20],
    pub last: u64,
}

// What a session is found by.
#[derive(Clone, Copy, PartialEq, Eq, Debug)]
pub struct SessionName {
    pub id: u64,
    pub signer: [u8; 20],
}

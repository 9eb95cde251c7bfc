use records::{Certificate, Entry};

// What an envelope can ask for, and its code.
#[derive(Clone, Copy, PartialEq, Eq, Debug)]
pub enum Action {
    TakeOwnership = 0x01,
    SetSessionKeys = 0x02,
    ExpireSessionKeys = 0x03,
    GrantOwnership = 0x04,
    RevokeOwnership = 0x05,
    AddAclEntry = 0x06,
    DeleteAclEntry = 0x07,
    CacheCertificate = 0x08,
    FactorySecurityReset = 0x09,
    Perform = 0x0A,
}

// What an action is given. Tags, names and payloads are parts of the envelope.
#[derive(Clone, Copy)]
pub enum Arguments<'a> {
    // A tag of the session verifier under the password.
    TakeOwnership {
        proof: &'a [u8],
    },
    SetSessionKeys {
        key: [u8; 20],
    },
    ExpireSessionKeys,
    GrantOwnership {
        hash: [u8; 20],
    },
    RevokeOwnership {
        hash: [u8; 20],
    },
    AddAclEntry {
        entry: Entry,
    },
    DeleteAclEntry {
        entry: Entry,
    },
    // The issuer's tag is over the bytes of the certificate.
    CacheCertificate {
        certificate: Certificate,
        bytes: &'a [u8],
        issuer_tag: &'a [u8],
    },
    FactorySecurityReset,
    Perform {
        name: &'a [u8],
        payload: &'a [u8],
    },
}

// A certificate: 126 bytes, the hashes of the issuer, the subject and the device, and a scope.
ghost use Rattle.std.specs.Prelude.{◌≡◌, Ok, Decides};
ghost use Rattle.records.specs.Records.{certificate_bytes, certificate_in};
ghost use Rattle.records.specs.Equality.{same_certificate};
ghost use Rattle.records.specs.Inverse.{WellFormedScope, CertificatesInverse};
ghost use Rattle.records.specs.Equal.{same_certificate_decides};

use crate::bytes::array_at;
use crate::types::{Certificate, Scope};
use refusal::Refusal;
use tables::Record;

const ISSUER: usize = 0;

const SUBJECT: usize = 20;

const DEVICE: usize = 40;

const SCOPE: usize = 60;

const HASH: usize = 20;

const LENGTH: usize = 126;

impl Certificate {
    // The certificate that the bytes hold.
    pub fn read(bytes: &[u8]) -> Result<Certificate, Refusal>
        ensures as_defined { result ≡ certificate_in bytes.now }
        ensures reading_and_writing_are_inverse { CertificatesInverse }
    {
        if bytes.len() != LENGTH {
            return Err(Refusal::Malformed);
        }
        let (_, scope) = bytes.split_at(SCOPE);
        Ok(Certificate {
            issuer: array_at(bytes, ISSUER),
            subject: array_at(bytes, SUBJECT),
            device: array_at(bytes, DEVICE),
            scope: Scope::read(scope)?,
        })
    }

    // Its bytes, whatever the fields hold.
    pub fn write(&self) -> [u8; 126]
        ensures as_defined { result ≡ certificate_bytes self.now }
        ensures reads_back { WellFormedScope self.now.scope → certificate_in result ≡ Ok self.now }
    {
        let mut out = [0; LENGTH];
        let (issuer, rest) = out.split_at_mut(HASH);
        let (subject, rest) = rest.split_at_mut(HASH);
        let (device, scope) = rest.split_at_mut(HASH);
        issuer.copy_from_slice(&self.issuer);
        subject.copy_from_slice(&self.subject);
        device.copy_from_slice(&self.device);
        scope.copy_from_slice(&self.scope.write());
        out
    }
}

// A certificate is its own key.
impl Record for Certificate {
    type Key = Certificate;

    ghost key = { λ c. c };

    ghost equal = { same_certificate };

    ghost decides = { same_certificate_decides };

    fn has_key(&self, sought: &Certificate) -> bool
        ensures same { result ≡ same_certificate self.now sought.now }
        ensures yes_exactly_where_all_bytes_are_equal { Decides result (certificate_bytes self.now ≡ certificate_bytes sought.now) }
    {
        // Records that differ mostly differ in their windows.
        self.scope.same_window(&sought.scope) & (self == sought)
    }
}

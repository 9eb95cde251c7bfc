// Who signs: sessions, public keys, and the certificates that anyone may bring.
ghost use Rattle.std.specs.Prelude.{◌≡◌, [], ◌∷◌, ◌++◌, length, IfOk, if◌then◌else◌, Some, None, Err, MatchOption, nat_lt};
ghost use Rattle.std.specs.Str.{bytes_eq};
ghost use Rattle.refusal.specs.declared.Refusal.TheVariants.{OtherDevice, BadIssuerTag, TableFull};
ghost use Rattle.std.specs.List.{position};
ghost use Rattle.records.specs.Equality.{same_certificate};
ghost use Rattle.machine.specs.Lists.{any_of, first_of, without};
ghost use Rattle.machine.specs.Machine.{accepted, is_accepted, passing, listing, signs, screened_by_session, screened_by_key, new_session, session_limit, certificate_limit};
ghost use Rattle.requests.specs.Received.{signed_by};
ghost use Rattle.guard.specs.View.{meaning, presenting, unplaced};

use crate::listing::list;
use parties::verifier::Verifier;
use records::Certificate;
use refusal::Refusal;
use requests::Request;
use sessions::{Session, SessionName, Sessions};
use tables::Table;

// Not by `From`: neither type is of this crate.
fn session_name(request: &Request) -> SessionName
    ensures { result ≡ record { id = request.now.key_number; signer = request.now.signer } }
{
    SessionName {
        id: request.key_number,
        signer: request.signer,
    }
}

// The session that signs a request, and its place.
fn find_session<'a>(sessions: &'a Sessions, request: &Request) -> Option<(usize, &'a Session)>
    ensures { MatchOption result (first_of (signs (signed_by request.now)) sessions.now ≡ None) (λ p. (first_of (signs (signed_by request.now)) sessions.now ≡ Some p.1.now) × (position (signs (signed_by request.now)) sessions.now ≡ Some p.0)) }
{
    let i = sessions.find(&session_name(request))?;
    Some((i, sessions.get(i)?))
}

// Stages 4 to 6 for a request that a session signs: the place of this session.
pub(crate) fn screen_session<V: Verifier>(
    sessions: &Sessions,
    request: &Request,
    session: &V,
) -> Result<usize, Refusal>
    ensures answer { unplaced result ≡ screened_by_session (presenting (signed_by request.now) 0 0 (meaning V.Verifier.width (V.Verifier.stands session.now)) (meaning V.Verifier.width (V.Verifier.stands session.now))) (first_of (signs (signed_by request.now)) sessions.now) }
    ensures place { IfOk result (λ i. position (signs (signed_by request.now)) sessions.now ≡ Some i) }
{
    let (i, found) = find_session(sessions, request).ok_or(Refusal::NoSession)?;
    if !session.verify(&found.key, request.text, request.tag) {
        return Err(Refusal::BadTag);
    }
    if request.number <= found.last {
        return Err(Refusal::StaleNumber);
    }
    Ok(i)
}

// Stages 5 and 6 for a request that a public key signs.
pub(crate) fn screen_key<P: Verifier>(
    base: u64,
    request: &Request,
    public: &P,
) -> Result<(), Refusal>
    ensures { result ≡ screened_by_key base (presenting (signed_by request.now) 0 0 (meaning P.Verifier.width (P.Verifier.stands public.now)) (meaning P.Verifier.width (P.Verifier.stands public.now))) }
{
    if !public.verify(&request.signer, request.text, request.tag) {
        return Err(Refusal::BadTag);
    }
    if request.key_number != base {
        return Err(Refusal::OtherBase);
    }
    if base == u64::MAX {
        return Err(Refusal::BaseExhausted);
    }
    Ok(())
}

pub(crate) fn open_session(
    sessions: &mut Sessions,
    request: &Request,
    key: [u8; 20],
) -> Result<(), Refusal>
    ensures answer { result ≡ passing (nat_lt (length sessions.old) session_limit) TableFull accepted }
    ensures after { sessions.new ≡ (if is_accepted result then sessions.old ++ new_session (signed_by request.now) key ∷ [] else sessions.old) }
{
    let session = Session {
        id: request.key_number,
        signer: request.signer,
        key,
        last: 0,
    };
    sessions.append(session)?;
    Ok(())
}

pub(crate) fn expire_session(sessions: &mut Sessions, request: &Request)
    ensures { sessions.new ≡ without (signs (signed_by request.now)) sessions.old }
{
    sessions.remove(&session_name(request));
}

pub(crate) fn cache<P: Verifier>(
    certificates: &mut Table<Certificate, 16>,
    device: &[u8; 20],
    certificate: Certificate,
    bytes: &[u8],
    issuer_tag: &[u8],
    public: &P,
) -> Result<(), Refusal>
    ensures answer { result ≡ passing (bytes_eq certificate.device device.now) OtherDevice (passing (P.Verifier.stands public.now certificate.issuer bytes.now issuer_tag.now) BadIssuerTag (listing (any_of (λ c. same_certificate c certificate) certificates.old) (length certificates.old) certificate_limit)) }
    ensures after { certificates.new ≡ (if is_accepted result then certificates.old ++ certificate ∷ [] else certificates.old) }
{
    if certificate.device != *device {
        return Err(Refusal::OtherDevice);
    }
    if !public.verify(&certificate.issuer, bytes, issuer_tag) {
        return Err(Refusal::BadIssuerTag);
    }
    list(certificates, &certificate, certificate)
}

// What owners do: take, grant and revoke ownership, and keep entries. Functions over the tables that they need: as methods they
// would borrow the whole guard, to change one table while another is read. Granting asks the table that it changes, adding another: one
// function for both would borrow a table twice. So it is of revoking and deleting, and only revoking refuses the signer itself.
ghost use Rattle.std.specs.Prelude.{◌≡◌, ◌+◌, ◌≤◌, not, ◌&&◌, [], ◌∷◌, ◌++◌, length, take, if◌then◌else◌, ◌==◌};
ghost use Rattle.std.specs.Str.{bytes_eq};
ghost use Rattle.refusal.specs.declared.Refusal.TheVariants.{NotAuthorised, RevokesItself, NotListed};
ghost use Rattle.records.specs.Equality.{same_entry};
ghost use Rattle.records.specs.Records.{big_endian};
ghost use Rattle.machine.specs.Lists.{any_of, without};
ghost use Rattle.machine.specs.Delegation.{is_owner};
ghost use Rattle.machine.specs.Machine.{accepted, is_accepted, passing, listing, owner_limit, entry_limit};

use crate::listing::{list, lists, unlist};
use parties::verifier::Verifier;
use records::Entry;
use refusal::Refusal;
use tables::Table;

// What the proof of a TakeOwnership stands for: the key number and the signer's hash.
fn proof_text(key_number: u64, signer: &[u8; 20]) -> [u8; 28]
    ensures { result ≡ big_endian 8 key_number ++ signer.now }
{
    let mut text = [0; 28];
    let (number, hash) = text.split_at_mut(8);
    number.copy_from_slice(&key_number.to_be_bytes());
    hash.copy_from_slice(signer);
    text
}

pub(crate) fn is_owner(owners: &Table<[u8; 20], 8>, hash: &[u8; 20]) -> bool
    ensures { result ≡ is_owner owners.now hash.now }
{
    lists(owners, hash)
}

// Stage 7 of what only owners do.
pub(crate) fn require_owner(owners: &Table<[u8; 20], 8>, signer: &[u8; 20]) -> Result<(), Refusal>
    ensures { result ≡ passing (is_owner owners.now signer.now) NotAuthorised accepted }
{
    if is_owner(owners, signer) {
        Ok(())
    } else {
        Err(Refusal::NotAuthorised)
    }
}

// The signer becomes the first owner.
pub(crate) fn take_ownership<V: Verifier>(
    owners: &mut Table<[u8; 20], 8>,
    password: &[u8; 20],
    key_number: u64,
    signer: &[u8; 20],
    proof: &[u8],
    session: &V,
) -> Result<(), Refusal>
    ensures answer { result ≡ passing (length owners.old == 0 && V.Verifier.stands session.now password.now (big_endian 8 key_number ++ signer.now) proof.now) NotAuthorised accepted }
    ensures after { owners.new ≡ (if is_accepted result then owners.old ++ signer.now ∷ [] else owners.old) }
{
    let text = proof_text(key_number, signer);
    if !owners.is_empty() || !session.verify(password, &text, proof) {
        return Err(Refusal::NotAuthorised);
    }
    owners.append(*signer)?;
    Ok(())
}

pub(crate) fn grant(
    owners: &mut Table<[u8; 20], 8>,
    signer: &[u8; 20],
    hash: [u8; 20],
) -> Result<(), Refusal>
    ensures answer { result ≡ passing (is_owner owners.old signer.now) NotAuthorised (listing (is_owner owners.old hash) (length owners.old) owner_limit) }
    ensures after { owners.new ≡ (if is_accepted result then owners.old ++ hash ∷ [] else owners.old) }
{
    require_owner(owners, signer)?;
    list(owners, &hash, hash)
}

// An owner cannot revoke itself, so that one is left.
pub(crate) fn revoke(
    owners: &mut Table<[u8; 20], 8>,
    signer: &[u8; 20],
    hash: [u8; 20],
) -> Result<(), Refusal>
    ensures answer { result ≡ passing (is_owner owners.old signer.now) NotAuthorised (passing (not (bytes_eq signer.now hash)) RevokesItself (passing (is_owner owners.old hash) NotListed accepted)) }
    ensures after { owners.new ≡ (if is_accepted result then without (λ o. bytes_eq o hash) owners.old else owners.old) }
{
    require_owner(owners, signer)?;
    if *signer == hash {
        return Err(Refusal::RevokesItself);
    }
    unlist(owners, &hash)
}

pub(crate) fn add_entry(
    owners: &Table<[u8; 20], 8>,
    entries: &mut Table<Entry, 32>,
    signer: &[u8; 20],
    entry: Entry,
) -> Result<(), Refusal>
    ensures answer { result ≡ passing (is_owner owners.now signer.now) NotAuthorised (listing (any_of (λ e. same_entry e entry) entries.old) (length entries.old) entry_limit) }
    ensures after { entries.new ≡ (if is_accepted result then entries.old ++ entry ∷ [] else entries.old) }
{
    require_owner(owners, signer)?;
    list(entries, &entry, entry)
}

pub(crate) fn delete_entry(
    owners: &Table<[u8; 20], 8>,
    entries: &mut Table<Entry, 32>,
    signer: &[u8; 20],
    entry: Entry,
) -> Result<(), Refusal>
    ensures answer { result ≡ passing (is_owner owners.now signer.now) NotAuthorised (passing (any_of (λ e. same_entry e entry) entries.old) NotListed accepted) }
    ensures after { entries.new ≡ (if is_accepted result then without (λ e. same_entry e entry) entries.old else entries.old) }
{
    require_owner(owners, signer)?;
    unlist(entries, &entry)
}

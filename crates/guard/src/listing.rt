// The two rules of every table: what is listed is not listed again, and what is not listed cannot be removed.
ghost use Rattle.std.specs.Prelude.{◌≡◌, [], ◌∷◌, ◌++◌, length, if◌then◌else◌};
ghost use Rattle.tables.specs.Place.{named};
ghost use Rattle.refusal.specs.declared.Refusal.TheVariants.{NotListed};
ghost use Rattle.machine.specs.Lists.{any_of, without};
ghost use Rattle.machine.specs.Machine.{accepted, is_accepted, passing, listing};

use refusal::Refusal;
use tables::{Record, Table};

// Whether the key names a record.
pub(crate) fn lists<T: Record, const N: usize>(table: &Table<T, N>, key: &T::Key) -> bool
    ensures { result ≡ any_of (named T.Record.key T.Record.equal key.now) table.now }
{
    table.contains(key)
}

// Adds a record that the key does not name yet.
pub(crate) fn list<T: Record, const N: usize>(
    table: &mut Table<T, N>,
    key: &T::Key,
    x: T,
) -> Result<(), Refusal>
    ensures answer { result ≡ listing (any_of (named T.Record.key T.Record.equal key.now) table.old) (length table.old) N }
    ensures after { table.new ≡ (if is_accepted result then table.old ++ x ∷ [] else table.old) }
{
    if lists(table, key) {
        return Err(Refusal::AlreadyListed);
    }
    table.append(x)?;
    Ok(())
}

// Removes the record that the key names.
pub(crate) fn unlist<T: Record, const N: usize>(
    table: &mut Table<T, N>,
    key: &T::Key,
) -> Result<(), Refusal>
    ensures answer { result ≡ passing (any_of (named T.Record.key T.Record.equal key.now) table.old) NotListed accepted }
    ensures after { table.new ≡ (if is_accepted result then without (named T.Record.key T.Record.equal key.now) table.old else table.old) }
{
    if !lists(table, key) {
        return Err(Refusal::NotListed);
    }
    table.remove(key);
    Ok(())
}

// Find, append and remove over bare slices and arrays, once for every type of record.
ghost use Rattle.std.specs.Prelude.{◌≡◌, ◌+◌, ◌-◌, ◌<◌, ◌≤◌, [], ◌∷◌, ◌++◌, length, take, None, MatchOption, slice_get};
ghost use Rattle.std.specs.List.{remove, position};
ghost use Rattle.std.specs.Option.{option_copied};
ghost use Rattle.tables.specs.Place.{named, FirstPlace};

use crate::record::Record;

// The first `len` records, or all where there are fewer.
pub fn front<T>(rows: &[T], len: usize) -> &[T]
    ensures front { result.now ≡ take len rows.now }
{
    &rows[0..len.min(rows.len())]
}

// The record at place i, counted from 0.
pub fn get<T>(rows: &[T], i: usize) -> Option<&T>
    ensures place { option_copied result ≡ slice_get rows.now i }
{
    rows.get(i)
}

// The first place at which a record with that key stands.
pub fn find<T: Record>(rows: &[T], key: &T::Key) -> Option<usize>
    ensures position { result ≡ position (named T.Record.key T.Record.equal key.now) rows.now }
    ensures first_place { FirstPlace (λ x. T.Record.key x ≡ key.now) rows.now result }
{
    rows.iter().position(|row| row.has_key(key))
}

// Writes the record behind the first `len`, where a place is free.
pub fn append<T: Copy, const N: usize>(rows: &mut [T; N], len: usize, x: T)
    ensures places { length rows.new ≡ N }
    ensures size { length rows.new ≡ length rows.old }
    ensures grown { len < N → take (len + 1) rows.new ≡ take len rows.old ++ x ∷ [] }
    ensures full { N ≤ len → rows.new ≡ rows.old }
{
    if len < N {
        rows[len] = x;
    }
}

// Takes the record at place i out of the first `len`, and moves each one after it down by one. Nothing changes where there is none, or where there are not so many places.
#[tactic(auto, using(std::proofs::lemmas::Option::gets, crate::proofs::Places::nothing_to_remove))]
pub fn remove<T: Copy, const N: usize>(rows: &mut [T; N], len: usize, i: usize) -> Option<T>
    ensures size { length rows.new ≡ length rows.old }
    ensures value { len ≤ N → result ≡ slice_get (take len rows.old) i }
    ensures closed { len ≤ N → MatchOption result ((rows.new ≡ rows.old) × (take len rows.old ≡ remove (take len rows.old) i)) (λ _. (i < len) × (take (len - 1) rows.new ≡ remove (take len rows.old) i)) }
    ensures too_many { N < len → (result ≡ None) × (rows.new ≡ rows.old) }
{
    if len > N || i >= len {
        return None;
    }
    let gone = rows[i];
    rows.copy_within(i + 1..len, i);
    Some(gone)
}

// The table and its calls. Contracts see a table as the list of the records that it keeps, first to last.
ghost use Rattle.std.specs.Prelude.{◌≡◌, ◌+◌, ◌<◌, ◌≤◌, not, [], length, is_some, ◌==◌, slice_get, slice_index_or, MatchOption};
ghost use Rattle.std.specs.List.{remove, position};
ghost use Rattle.std.specs.Option.{option_copied, option_and_then, option_map_or};
ghost use Rattle.std.specs.Borrow.{sem};
ghost use Rattle.refusal.specs.declared.Refusal.TheVariants.{TableFull};
ghost use Rattle.tables.specs.Kept.{has_room, append_answer, appended};
ghost use Rattle.tables.specs.Place.{named, FirstPlace};

use crate::cells::Cells;
use crate::record::Record;
use crate::rows;
use refusal::Refusal;
use std::marker::Model;

// What an append to a full table answers.
#[derive(Clone, Copy, PartialEq, Eq, Debug)]
pub struct Full;

impl From<Full> for Refusal {
    ghost from_gives = { λ _ why. why ≡ TableFull };

    fn from(_full: Full) -> Refusal {
        Refusal::TableFull
    }
}

// At most N records, in the order in which they came.
#[derive(Drop)]
pub struct Table<T, const N: usize> {
    cells: Cells<T, N>,
    len: usize,
}

impl<T, const N: usize> Model for Table<T, N> {
    ghost use Rattle.std.specs.Prelude.{◌≡◌, ◌≤◌, List, length, take};
    ghost use Rattle.std.specs.Coded.{coded_list};

    ghost Value = { List T };

    ghost coded = { coded_list T.code };

    ghost view = { λ t. take t.len t.cells.items };

    ghost invariant = { λ t. (t.len ≤ N) × (length t.cells.items ≡ N) };
}

impl<T, const N: usize> Table<T, N> {
    ghost use Rattle.tables.specs.Lends.{lends_record, lends_get};

    pub fn len(&self) -> usize
        ensures count { result ≡ length self.now }
        ensures fits { result ≤ N }
    {
        self.as_slice().len()
    }

    pub fn is_empty(&self) -> bool
        ensures none_kept { result ≡ (length self.now == 0) }
    {
        self.len == 0
    }

    pub fn is_full(&self) -> bool
        ensures no_room { result ≡ not (has_room N self.now) }
    {
        self.len == N
    }

    // How many more records it takes.
    pub fn free(&self) -> usize
        ensures rest { result + length self.now ≡ N }
    {
        N - self.len
    }

    // The kept records, first to last.
    pub fn as_slice(&self) -> &[T]
        ensures kept { result.now ≡ self.now }
        ensures fits { length result.now ≤ N }
    {
        let rows = &self.cells.items[..];
        rows::front(rows, self.len)
    }

    // The record at place i, counted from 0.
    pub fn get(&self, i: usize) -> Option<&T>
        ensures place { option_copied result ≡ slice_get self.now i }
    {
        rows::get(self.as_slice(), i)
    }

    // Lends the record at place i: what its holder writes there is all that changes.
    pub fn get_mut(&mut self, i: usize) -> Option<&mut T>
        ensures* lent { sem 𝓛 (lends_get T.row N.row self.entry i result) }
        ensures value { MatchOption result (length self.old ≤ i) (λ x. (i < length self.old) × ((d : T) → x.now ≡ slice_index_or self.old i d)) }
    {
        if i < self.len() {
            Some(self.record_mut(i))
        } else {
            None
        }
    }

    fn record_mut(&mut self, i: usize) -> &mut T
        requires { i < length self.old }
        ensures* lent { sem 𝓛 (lends_record T.row N.row self.entry i result) }
        ensures value { result.now ≡ slice_index_or self.old i result.now }
    {
        self.cells.cell_mut(i)
    }

    pub fn clear(&mut self)
        ensures empty { self.new ≡ [] }
    {
        self.len = 0;
    }
}

impl<T: Record, const N: usize> Table<T, N> {
    // An empty table; `blank` fills the free places and is never answered.
    pub fn new(blank: T) -> Table<T, N>
        ensures empty { result ≡ [] }
    {
        Table {
            cells: Cells { items: [blank; N] },
            len: 0,
        }
    }

    // The first place at which a record with that key stands.
    pub fn find(&self, key: &T::Key) -> Option<usize>
        ensures position { result ≡ position (named T.Record.key T.Record.equal key.now) self.now }
        ensures first_place { FirstPlace (λ x. T.Record.key x ≡ key.now) self.now result }
    {
        rows::find(self.as_slice(), key)
    }

    pub fn contains(&self, key: &T::Key) -> bool
        ensures is_kept { result ≡ is_some (position (named T.Record.key T.Record.equal key.now) self.now) }
    {
        self.find(key).is_some()
    }

    // Puts a record at the end; a full table keeps what it has.
    pub fn append(&mut self, x: T) -> Result<(), Full>
        ensures answer { result ≡ append_answer N self.old }
        ensures after { self.new ≡ appended N self.old x }
    {
        if self.is_full() {
            return Err(Full);
        }
        rows::append(&mut self.cells.items, self.len, x);
        self.len += 1;
        Ok(())
    }

    // Takes the record at place i out and closes the gap; where none is kept there, nothing changes.
    pub fn remove_at(&mut self, i: usize) -> Option<T>
        ensures value { result ≡ slice_get self.old i }
        ensures after { self.new ≡ remove self.old i }
    {
        let gone = rows::remove(&mut self.cells.items, self.len, i)?;
        self.len -= 1;
        Some(gone)
    }

    // Takes out the first record with that key; where none has it, nothing changes.
    pub fn remove(&mut self, key: &T::Key) -> Option<T>
        ensures value { result ≡ option_and_then (slice_get self.old) (position (named T.Record.key T.Record.equal key.now) self.old) }
        ensures after { self.new ≡ option_map_or (remove self.old) (position (named T.Record.key T.Record.equal key.now) self.old) self.old }
    {
        let i = self.find(key)?;
        self.remove_at(i)
    }
}

// An empty table, whose free places hold the default record.
impl<T: Record + Default, const N: usize> Default for Table<T, N> {
    ghost is_default = { λ t. t ≡ [] };

    fn default() -> Table<T, N> {
        Table::new(T::default())
    }
}

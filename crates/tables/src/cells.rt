// The places of a table.
ghost use Rattle.std.specs.Prelude.{◌≡◌, ◌<◌, slice_index_or};
ghost use Rattle.std.specs.Borrow.{sem};

// An array in a struct of its own, so that a contract can say what a loan of one of its places leaves.
#[derive(Drop)]
pub(crate) struct Cells<T, const N: usize> {
    pub(crate) items: [T; N],
}

impl<T, const N: usize> Cells<T, N> {
    ghost use Rattle.tables.specs.Lends.{lends_cell};

    // Lends the place i.
    pub(crate) fn cell_mut(&mut self, i: usize) -> &mut T
        requires { i < N }
        ensures* lent { sem 𝓛 (lends_cell T.row N.row self.entry i result) }
        ensures value { result.now ≡ slice_index_or self.old.items i result.now }
    {
        &mut self.items[i]
    }
}

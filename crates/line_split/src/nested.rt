//! A list of rows, each of which grows.
ghost use Rattle.std.specs.Prelude.{◌≡◌, ◌<◌, ◌++◌, ◌∷◌, [], OnOk, IfOk, length, map, replicate, set, slice_index_or};

use std::alloc::Global;
use std::marker::Model;
use tb_base::Memory;

/// Rows of items.
#[derive(Drop)]
pub(crate) struct Nested<T> {
    rows: Vec<Vec<T>>,
}

impl<T> Model for Nested<T> {
    ghost use Rattle.std.specs.Prelude.{List, map};

    ghost Value = { List (List T) };

    ghost view = { λ p. map (λ v. v.items) p.rows.items };
}

impl<T: Drop> Nested<T> {
    /// No row.
    pub(crate) fn new(alloc: Global) -> Nested<T>
        ensures { result ≡ [] }
    {
        Nested {
            rows: Vec::new(alloc),
        }
    }

    /// So many rows without an item.
    pub(crate) fn with_rows(alloc: Global, count: usize) -> Result<Nested<T>, Memory>
        ensures { IfOk result (λ rows. rows ≡ replicate count []) }
    {
        let mut rows = Nested::new(alloc);
        for _row in 0..count {
            rows.open(alloc)?;
        }
        Ok(rows)
    }

    /// These rows.
    pub(crate) fn of(rows: Vec<Vec<T>>) -> Nested<T>
        ensures { result ≡ map (λ v. v.items) rows.items }
    {
        Nested { rows }
    }

    /// The rows.
    pub(crate) fn into_rows(self) -> Vec<Vec<T>>
        ensures { map (λ v. v.items) result.items ≡ self }
    {
        self.rows
    }

    /// How many rows there are.
    pub(crate) fn len(&self) -> usize
        ensures { result ≡ length self.now }
    {
        self.rows.len()
    }

    /// A row.
    pub(crate) fn row(&self, i: usize) -> &[T]
        requires { i < length self.now }
        ensures { result.now ≡ slice_index_or self.now i [] }
    {
        self.rows[i].as_slice()
    }

    /// Puts a row in the place of another.
    pub(crate) fn put(&mut self, i: usize, row: Vec<T>)
        requires { i < length self.old }
        ensures { self.new ≡ set self.old i row.items }
    {
        self.rows[i] = row;
    }

    /// A row more, behind the others.
    pub(crate) fn open_row(&mut self, row: Vec<T>) -> Result<(), Memory>
        ensures { OnOk result (self.new ≡ self.old ++ row.items ∷ []) }
    {
        self.rows.push(row)?;
        Ok(())
    }

    /// A row more, behind the others, without an item.
    pub(crate) fn open(&mut self, alloc: Global) -> Result<(), Memory>
        ensures { OnOk result (self.new ≡ self.old ++ [] ∷ []) }
    {
        self.open_row(Vec::new(alloc))
    }

    /// A row more, behind the others, with one item.
    pub(crate) fn open_with(&mut self, alloc: Global, item: T) -> Result<(), Memory>
        ensures { OnOk result (self.new ≡ self.old ++ (item ∷ []) ∷ []) }
    {
        let mut row = Vec::new(alloc);
        row.push(item)?;
        self.open_row(row)
    }

    /// An item more, at the end of a row.
    pub(crate) fn add(&mut self, i: usize, item: T) -> Result<(), Memory>
        requires { i < length self.old }
        ensures { OnOk result
            (self.new ≡ set self.old i (slice_index_or self.old i [] ++ item ∷ [])) }
    {
        let row = &mut self.rows[i];
        row.push(item)?;
        Ok(())
    }
}

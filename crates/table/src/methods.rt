// What a table does, by the list of its items and its limit.
ghost use Rattle.std.specs.Prelude.{◌≡◌, ◌≤◌, min, length, IfOk};
ghost use Rattle.std.specs.Option.{option_map};
ghost use Rattle.std.specs.List.{slice_get};
ghost use Rattle.table.specs.Contents.{empty, put, put_all, cut, outcome};

use super::{Full, Table};
use std::alloc::{AllocError, Global};

impl<T, const MAX: usize> Table<T, MAX> {
    /// An empty table of the given limit; a limit over the maximum counts as the maximum.
    pub fn with_limit(heap: Global, limit: usize) -> Result<Table<T, MAX>, AllocError>
        ensures { IfOk result (λ t. t ≡ empty (min limit MAX)) }
    {
        let limit = limit.min(MAX);
        let items = Vec::with_capacity(heap, limit)?;
        Ok(Table { items, limit })
    }

    pub fn limit(&self) -> usize
        ensures value { result ≡ self.now.limit }
        ensures bound { result ≤ MAX }
    {
        self.limit
    }

    pub fn len(&self) -> usize
        ensures value { result ≡ length self.now.items }
        ensures few { result ≤ self.now.limit }
        ensures bound { result ≤ MAX }
    {
        self.items.len()
    }

    pub fn as_slice(&self) -> &[T]
        ensures items { result.now ≡ self.now.items }
        ensures bound { length result.now ≤ MAX }
    {
        self.items.as_slice()
    }

    /// The item at a place, if there is one.
    pub fn get(&self, i: usize) -> Option<&T>
        ensures { option_map (λ x. x.now) result ≡ slice_get self.now.items i }
    {
        self.as_slice().get(i)
    }

    /// One more item, or a refusal where the limit is reached, which changes nothing.
    pub fn push(&mut self, item: T) -> Result<(), Full>
    where
        T: Drop,
        ensures { outcome self.new result ≡ put item self.old }
    {
        if self.len() == self.limit {
            return Err(Full);
        }
        self.items.push_reserved(item);
        Ok(())
    }

    /// Many more items, or a refusal where there is not a place for each, which changes nothing.
    pub fn extend_from_slice(&mut self, items: &[T]) -> Result<(), Full>
    where
        T: Copy,
        ensures { outcome self.new result ≡ put_all items.now self.old }
    {
        if items.len() > self.limit - self.len() {
            return Err(Full);
        }
        self.items.extend_from_slice(items).map_err(|_| Full)
    }

    /// Takes back what stands behind the first `len` items.
    pub fn truncate(&mut self, len: usize)
    where
        T: Drop,
        ensures { self.new ≡ cut len self.old }
    {
        self.items.truncate(len);
    }
}

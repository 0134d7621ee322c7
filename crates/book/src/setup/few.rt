ghost use Rattle.std.specs.Prelude.{◌≡◌, ◌<◌, ◌≤◌, length, take, ⊤};

use std::alloc::AllocError;

// Up to N items, in their order. Places of the array past the count are not used. No list on the heap: settings are copied,
// and their check must not fail for want of memory.
pub(crate) struct Few<T, const N: usize> {
    count: usize,
    items: [T; N],
    ghost there: { length (take count items) ≡ count },
}

// A derive gives these to no generic struct with a ghost field.
impl<T: Copy, const N: usize> Clone for Few<T, N> {
    ghost is_clone = { λ s r. r ≡ s };

    ghost is_infallible = { λ _. ⊤ };

    fn clone(&self) -> Result<Few<T, N>, AllocError> {
        Ok(*self)
    }
}

impl<T: Copy, const N: usize> Copy for Few<T, N> {}

impl<T: Copy + Default, const N: usize> Few<T, N> {
    ghost use Rattle.book.specs.Few.{items_of};

    // The items of a slice, of which no more than N are taken.
    pub(crate) fn of(items: &[T]) -> Few<T, N>
        ensures { items_of result ≡ take N items.now }
    {
        let count = items.len().min(N);
        let mut all = [T::default(); N];
        all[..count].copy_from_slice(&items[..count]);
        Few { count, items: all }
    }
}

impl<T: Copy, const N: usize> Few<T, N> {
    ghost use Rattle.book.specs.Few.{items_of};
    ghost use Rattle.book.specs.Sets.{placed};

    pub(crate) fn len(&self) -> usize
        ensures { result ≡ length (items_of self.now) }
    {
        self.count
    }

    pub(crate) fn as_slice(&self) -> &[T]
        ensures { result.now ≡ items_of self.now }
    {
        &self.items[..self.count]
    }

    // The item at a place, if it is there.
    pub(crate) fn get(&self, at: u8) -> Option<T>
        ensures { (d : T) → result ≡ placed (items_of self.now) at d }
    {
        self.as_slice().get(usize::from(at)).copied()
    }
}

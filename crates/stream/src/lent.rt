// What is lent to a finder or to the writer: a row of items. There is no heap, so it stands in an array that holds the longest one.
ghost use Rattle.std.specs.Prelude.{ℕ, ◌<◌, ◌≤◌};

#[derive(Drop)]
pub struct Lent<T, const N: usize> {
    items: [T; N],
    len: usize,
    ghost in_range: { len ≤ N },
}

impl<T: Copy + Default, const N: usize> Lent<T, N> {
    // A row of no items.
    pub fn new() -> Lent<T, N> {
        Lent {
            items: [T::default(); N],
            len: 0,
        }
    }

    // Becomes a row of so many items, and never more than N; item i is item(i). It is filled where it stands, since to move it takes longer.
    pub fn fill<F: Fn(u32) -> T>(&mut self, len: u32, item: F)
        requires { (i : ℕ) → i < len → F.pre item i }
    {
        let items = &mut self.items;
        for (i, place) in (0..len).zip(items.iter_mut()) {
            *place = item(i);
        }
        self.len = N.min(len as usize);
    }

    pub fn row(&self) -> &[T] {
        &self.items[..self.len]
    }

    pub fn row_mut(&mut self) -> &mut [T] {
        let len = self.len;
        let items = &mut self.items;
        &mut items[..len]
    }
}

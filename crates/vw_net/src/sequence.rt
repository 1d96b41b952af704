ghost use Rattle.std.specs.Prelude.{◌≡◌, ◌<◌, length, slice_set};

use std::marker::Model;

/// A `Vec` that contracts see as the list of its elements.
pub struct Sequence<T> {
    items: Vec<T>,
}

impl<T: Drop> Drop for Sequence<T> {
    fn drop(self) {
        let Sequence { items: _ } = self;
    }
}

impl<T> Model for Sequence<T> {
    ghost use Rattle.std.specs.Prelude.{List};

    ghost Value = { List T };

    ghost view = { λ s. s.items.items };
}

impl<T> Sequence<T> {
    /// The sequence of the elements of a `Vec`. It takes no memory.
    pub fn of(list: Vec<T>) -> Self
        ensures { result ≡ list.items }
    {
        Sequence { items: list }
    }

    /// How many elements it has.
    pub fn len(&self) -> usize
        ensures { result ≡ length self.now }
    {
        self.items.len()
    }

    /// The elements, in order.
    pub fn as_slice(&self) -> &[T]
        ensures { result.now ≡ self.now }
    {
        self.items.as_slice()
    }
}

/// Truth values, one for each column, net or latch.
pub type Bits = Sequence<bool>;

impl Sequence<bool> {
    /// Writes the value at a place.
    pub fn set(&mut self, at: usize, bit: bool)
        requires { at < length self.old }
        ensures { self.new ≡ slice_set self.old at bit }
    {
        self.items[at] = bit;
    }
}

//! Contexts: how a number is laid out in a stream, and where a list ends.

ghost use Rattle.std.specs.Prelude.{◌≡◌, Bool, ⊤, false};
ghost use Rattle.std.specs.Fn.{CalledAt};

pub use deku_num::ctx::{
    BitSize, ByteSize, Endian, Layout, NumberCtx, Order, ParseEndianError, Size,
};
use std::marker::PhantomData;

/// The context of a vector of bytes: this many bytes, which are read at once.
#[derive(Drop)]
pub struct ReadExact(pub usize);

/// A question about each item of a list, one after the other. A predicate may change its own state.
///
/// Each closure `FnMut(&T) -> bool` that may be called on every item is a predicate.
///
/// ```text
/// let zero = Limit::new_until(|byte: &u8| *byte == 0);          // its predicate is true of a zero
/// ```
pub trait Predicate<T>: Drop {
    // The predicate may be asked about every item.
    ghost asks_all: { Self → Type 0 };

    // What the predicate returns for an item, and what it is afterwards.
    ghost answers: { Self → T → Bool → Self → Type 0 };

    // The predicate was dropped in this state.
    ghost ended: { Self → Type 0 };

    /// Whether the predicate is true of the item.
    ///
    /// The caller's condition: it may be asked about every item. The same holds after the call.
    fn test(&mut self, item: &T) -> bool
        requires { asks_all self.old }
        ensures answered { answers self.old item.now result self.new }
        ensures again { asks_all self.new };

    /// Drops the predicate, after the last item that it was asked about.
    fn finish(self)
    where
        Self: Sized,
        ensures { ended self };
}

impl<T, P: FnMut(&T) -> bool + Drop> Predicate<T> for P {
    ghost asks_all = { λ p. P.IsAlwaysCallable p };

    ghost answers = { λ p x b q. CalledAt P.FnMut p x b q };

    ghost ended = { λ _. ⊤ };

    fn test(&mut self, item: &T) -> bool {
        self(item)
    }

    fn finish(self) {}
}

/// The predicate of limits that have none.
#[derive(Clone, Copy)]
pub struct Never;

/// True of no item.
impl<T> Predicate<T> for Never {
    ghost asks_all = { λ _. ⊤ };

    ghost answers = { λ p x b q. b ≡ false };

    ghost ended = { λ _. ⊤ };

    fn test(&mut self, _item: &T) -> bool {
        false
    }

    fn finish(self) {}
}

/// Where a list of items ends.
#[derive_where(Clone, Copy; P)]
pub enum Limit<T, P: Predicate<T>> {
    /// After this many items.
    Count(usize),
    /// After the first item of which the predicate is true.
    Until(P, PhantomData<T>),
    /// After the item with which exactly this many bytes are read. If an item goes past that,
    /// reading continues.
    ByteSize(ByteSize),
    /// After the item with which exactly this many bits are read. If an item goes past that,
    /// reading continues.
    BitSize(BitSize),
    /// At the end of the stream.
    End,
}

impl<T, P: FnMut(&T) -> bool + Drop> Limit<T, P> {
    /// The list ends after the first item of which the predicate is true. The predicate is asked
    /// about each item once, in order.
    ///
    /// ```text
    /// let limit = Limit::new_until(|byte: &u8| *byte == 0);  // up to and including the first zero
    /// ```
    pub fn new_until(predicate: P) -> Self
        ensures { result ≡ Limit.Until predicate (record {}) }
    {
        Limit::Until(predicate, PhantomData)
    }
}

impl<T> Limit<T, Never> {
    /// The list ends after this many items.
    ///
    /// ```text
    /// let limit = Limit::<u16, Never>::new_count(3);             // three numbers
    /// ```
    pub fn new_count(count: usize) -> Self
        ensures { result ≡ Limit.Count count }
    {
        Limit::Count(count)
    }

    /// The list ends after the item with which exactly this many bits are read. If an item goes
    /// past that, reading continues. Nothing is read for 0 bits.
    ///
    /// ```text
    /// let limit = Limit::<u8, Never>::new_bit_size(BitSize(16)); // two bytes
    /// ```
    pub fn new_bit_size(size: BitSize) -> Self
        ensures { result ≡ Limit.BitSize size }
    {
        Limit::BitSize(size)
    }

    /// The list ends after the item with which exactly this many bytes are read. If an item goes
    /// past that, reading continues. Nothing is read for 0 bytes.
    ///
    /// ```text
    /// let limit = Limit::<u16, Never>::new_byte_size(ByteSize(4)); // two numbers
    /// ```
    pub fn new_byte_size(size: ByteSize) -> Self
        ensures { result ≡ Limit.ByteSize size }
    {
        Limit::ByteSize(size)
    }

    /// The list ends at the end of the stream.
    ///
    /// ```text
    /// let limit = Limit::<u8, Never>::end();                     // all bytes that are left
    /// ```
    pub fn end() -> Self
        ensures { result ≡ Limit.End }
    {
        Limit::End
    }
}

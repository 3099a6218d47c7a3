//! Held bits and those after them, as one number of at most 64 bits.

ghost use Rattle.std.specs.Prelude.{◌≡◌, ◌<◌, ◌≤◌, ◌+◌, ◌*◌, ◌/◌};
ghost use Rattle.std.specs.Prelude.{◌%◌, ◌^◌, ◌++◌, take, All};
ghost use Rattle.deku_stream.specs.declared.ctx.Order.TheVariants.{Msb0};
ghost use Rattle.deku_stream.specs.Bits.{bits_of, facing};
ghost use Rattle.deku_stream.specs.Streams.{flow};
ghost use Rattle.deku_writer.specs.Pushing.{word_bits};

use deku_stream::ctx::Order;

/// The number of some bits and of n bits after them, in this order.
#[inline(always)]
pub fn join_number(order: Order, first: u8, a: usize, number: u64, n: usize) -> u64
    requires short { a < 8 }
    requires some { 0 < n }
    requires most { a + n ≤ 64 }
    requires first { first < 2 ^ a }
    requires number { number < 2 ^ n }
    ensures inside { result < 2 ^ (a + n) }
    ensures bits { facing order (bits_of (a + n) result) ≡ facing order (bits_of a first) ++ facing
        order (bits_of n number) }
{
    match order {
        Order::Msb0 => {
            if a == 0 {
                return number;
            }
            ((first as u64) << n) + number
        }
        Order::Lsb0 => first as u64 + (number << a),
    }
}

/// The number of a word's n bits, of which the first is the highest in `Msb0`, and the lowest in
/// `Lsb0`.
#[inline(always)]
pub fn number_of_word(order: Order, word: u64, n: usize) -> u64
    requires most { n ≤ 64 }
    requires inside { word < 2 ^ n }
    ensures inside { result < 2 ^ n }
    ensures bits { facing order (bits_of n result) ≡ word_bits order n word }
{
    match order {
        Order::Msb0 => high_number(word, n),
        Order::Lsb0 => word,
    }
}

// The number of a word's n bits, the high bits first: the whole bytes are reversed, and the bits
// after them follow.
#[inline(always)]
fn high_number(word: u64, n: usize) -> u64
    requires most { n ≤ 64 }
    requires inside { word < 2 ^ n }
    ensures inside { result < 2 ^ n }
    ensures bits { bits_of n result ≡ word_bits Msb0 n word }
{
    if n < 8 {
        return word;
    }
    let behind = n % 8;
    let front = word.swap_bytes() >> (64 - 8 * (n / 8));
    if behind == 0 {
        return front;
    }
    (front << behind) + (word >> (8 * (n / 8)))
}

/// The whole bytes of n bits in an order, as the first of eight, and the number of the bits after
/// them.
#[inline(always)]
pub fn cut_word(order: Order, joined: u64, n: usize) -> ([u8; 8], u8)
    requires some { 0 < n }
    requires most { n ≤ 64 }
    requires inside { joined < 2 ^ n }
    ensures inside { result.1 < 2 ^ (n % 8) }
    ensures bytes { All (λ b. b < 256) result.0 }
    ensures bits { facing order (bits_of n joined) ≡ flow order (take (n / 8) result.0) ++ facing
        order (bits_of (n % 8) result.1) }
{
    match order {
        Order::Msb0 => (
            (joined << (64 - n)).to_be_bytes(),
            (joined % (1 << (n % 8))) as u8,
        ),
        Order::Lsb0 => (joined.to_le_bytes(), above(joined, n)),
    }
}

// The number of the bits, of n, that are above the whole bytes.
#[inline(always)]
fn above(joined: u64, n: usize) -> u8
    requires most { n ≤ 64 }
    requires inside { joined < 2 ^ n }
    ensures number { result ≡ joined / 2 ^ (8 * (n / 8)) }
    ensures inside { result < 2 ^ (n % 8) }
{
    if n == 64 {
        return 0;
    }
    (joined >> (8 * (n / 8))) as u8
}

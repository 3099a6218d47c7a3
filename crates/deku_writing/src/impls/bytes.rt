//! Bytes that are written eight at a time, if the sink has room for them in memory.

ghost use Rattle.std.specs.Prelude.{◌≡◌, ◌≤◌, ◌<◌, Ok, All, pos, length, take};
ghost use Rattle.deku_bits.specs.declared.ctx.Order.TheVariants.{Msb0};
ghost use Rattle.deku_bits.specs.WriterCalls.{Writes};
ghost use Rattle.deku_num.specs.declared.ctx.Layout.{Layout as NumberLayout};
ghost use Rattle.deku_num.specs.declared.ctx.Size.TheVariants.{Whole};
ghost use Rattle.deku_num.specs.Numbers.{byte};
ghost use Rattle.deku_num.specs.NumberCalls.{WritesNumber};
ghost use Rattle.deku_writing.specs.Composing.{WritesEach};

use deku_bits::device::Sink;
use deku_bits::writer::Writer;
use deku_num::ctx::{Layout, Order, Size};

/// Writes the first of the bytes under a layout, as long as the sink has room for them in memory.
/// Returns how many they are: none unless the layout is `Msb0` and of the whole size.
pub fn write_first_bytes<W: Sink>(writer: &mut Writer<W>, bytes: &[u8], layout: Layout) -> usize
    ensures few { result ≤ length bytes.now }
    ensures writes { Writes W.known (WritesEach (λ x. WritesNumber byte layout (pos x)) (take result
        bytes.now)) writer.old (Ok tt) writer.new }
{
    let (Order::Msb0, Size::Whole) = (layout.order, layout.size) else {
        return 0;
    };
    let mut written = 0;
    while written < bytes.len() {
        let count = write_first_eight(writer, &bytes[written..]);
        if count == 0 {
            return written;
        }
        written += count;
    }
    written
}

// The same of at most eight bytes. Eight are one number, which is stored without a loop.
#[inline(always)]
fn write_first_eight<W: Sink>(writer: &mut Writer<W>, bytes: &[u8]) -> usize
    requires some { 0 < length bytes.now }
    ensures few { result ≤ length bytes.now }
    ensures writes { (l : NumberLayout) → l.order ≡ Msb0 → l.size ≡ Whole → Writes W.known
        (WritesEach (λ x. WritesNumber byte l (pos x)) (take result bytes.now)) writer.old (Ok tt)
        writer.new }
{
    if bytes.len() >= 8 {
        write_first_few(writer, bytes, 8)
    } else {
        write_first_few(writer, bytes, bytes.len())
    }
}

// The first `count` bytes if the sink has room for them in memory, or none.
#[inline(always)]
fn write_first_few<W: Sink>(writer: &mut Writer<W>, bytes: &[u8], count: usize) -> usize
    requires some { 0 < count }
    requires few { count ≤ 8 }
    requires enough { count ≤ length bytes.now }
    ensures few { result ≤ count }
    ensures writes { (l : NumberLayout) → l.order ≡ Msb0 → l.size ≡ Whole → Writes W.known
        (WritesEach (λ x. WritesNumber byte l (pos x)) (take result bytes.now)) writer.old (Ok tt)
        writer.new }
{
    let eight = padded(bytes, count);
    let number = u64::from_be_bytes(eight) >> (64 - 8 * count);
    if !writer.try_write_number(number, 8 * count, Order::Msb0) {
        return 0;
    }
    count
}

// The first n bytes, with zeros after them.
#[inline(always)]
fn padded(bytes: &[u8], n: usize) -> [u8; 8]
    requires few { n ≤ 8 }
    requires enough { n ≤ length bytes.now }
    ensures front { take n result ≡ take n bytes.now }
    ensures bytes { All (λ b. b < 256) result }
{
    let mut eight = [0; 8];
    if n == 8 {
        eight.copy_from_slice(&bytes[..8]);
    } else {
        eight[..n].copy_from_slice(&bytes[..n]);
    }
    eight
}

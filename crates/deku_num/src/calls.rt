//! Reading numbers from a reader, and writing them to a writer.

ghost use Rattle.std.specs.Prelude.{◌≡◌, ◌<◌, ◌≤◌, ◌%◌, ◌^◌, Bool, true};
ghost use Rattle.std.specs.Prelude.{false, List, length, codes, pos, Ok, OnOk, IfOk, IfErr, IfSome};
ghost use Rattle.std.specs.Prelude.{IsNone};
ghost use Rattle.deku_bits.specs.declared.error.DekuError.TheVariants.{Parse, InvalidParam};
ghost use Rattle.deku_bits.specs.Bits.{bits_of};
ghost use Rattle.deku_bits.specs.ReaderCalls.{Reads, ReadsWord, TakesBits};
ghost use Rattle.deku_bits.specs.ReaderCalls.{Fetched, FetchedInTime, KeepsSourceStopped};
ghost use Rattle.deku_bits.specs.WriterCalls.{Writes, KeepsSinkStopped};
ghost use Rattle.deku_num.specs.NumberLaws.{InType};
ghost use Rattle.deku_num.specs.Numbers.{width, IsAllowed, IsFieldOf};
ghost use Rattle.deku_num.specs.NumberCalls.{ReadsNumber, WritesNumber, IsLayoutRefusal, beyond};
ghost use Rattle.deku_num.specs.NumberCalls.{integers};

use crate::ctx::{Endian, Layout, Order, Size};
use crate::kernel::{
    Misfit, allowed_width, number_of_word, sign_extend, signed_word, unsigned_word,
};
use crate::kind::NumberType;
use deku_bits::device::{Sink, Source};
use deku_bits::error::DekuError;
use deku_bits::reader::Reader;
use deku_bits::writer::Writer;

/// Reads a number of an unsigned type of at most 128 bits.
///
/// The caller's conditions: the type is unsigned, and has at most 128 bits.
///
/// It fails, in this order,
///
/// - with `Parse("too much data")` if the size is beyond the type; nothing changes, even if the
///   reader has stopped;
/// - as `Reader::read_bits_into` fails to read the bits of the field; it also says what is left
///   then.
///
/// ```text
/// read_unsigned(&mut reader, u16_type, layout)?              // 0xABCD, of AB CD, big
/// ```
#[inline(always)]
pub fn read_unsigned<R: Source>(
    reader: &mut Reader<R>,
    number_type: NumberType,
    layout: Layout,
) -> Result<u128, DekuError>
    requires unsigned { number_type.signed ≡ false }
    requires within { number_type.bits ≤ 128 }
    ensures reads { Reads R.known (ReadsNumber number_type layout) reader.old (integers result)
        reader.new }
    ensures fetched { OnOk result (Fetched R.known (width number_type layout) reader.old
        reader.new) }
    ensures early { FetchedInTime reader.old reader.new }
    ensures stopped { KeepsSourceStopped reader.old reader.new }
    ensures refused { (IsAllowed number_type layout → ⊥) → reader.new ≡ reader.old }
    ensures in_type { IfOk result (λ v. number_type.bits % 8 ≡ 0 → v < 2 ^ number_type.bits) }
{
    let width = readable_width(number_type, layout)?;
    let word = reader.read_word(width, layout.order)?;
    Ok(number_of_word(word, width, layout.endian, layout.order))
}

/// Reads a number of a signed type of at most 128 bits.
///
/// The caller's conditions: the type is signed, and has at most 128 bits.
///
/// It fails, in this order,
///
/// - with `Parse("too much data")` if the size is beyond the type; nothing changes, even if the
///   reader has stopped;
/// - with `InvalidParam("signed big Lsb0 field of this width")` if the field is big and `Lsb0`, and
///   has more than eight bits that are not whole bytes; nothing changes;
/// - as `Reader::read_bits_into` fails to read the bits of the field; it also says what is left
///   then.
///
/// ```text
/// read_signed(&mut reader, i8_type, layout)?                 // -3, of the three bits 1, 0, 1
/// ```
#[inline(always)]
pub fn read_signed<R: Source>(
    reader: &mut Reader<R>,
    number_type: NumberType,
    layout: Layout,
) -> Result<i128, DekuError>
    requires signed { number_type.signed ≡ true }
    requires within { number_type.bits ≤ 128 }
    ensures reads { Reads R.known (ReadsNumber number_type layout) reader.old result reader.new }
    ensures fetched { OnOk result (Fetched R.known (width number_type layout) reader.old
        reader.new) }
    ensures early { FetchedInTime reader.old reader.new }
    ensures stopped { KeepsSourceStopped reader.old reader.new }
    ensures refused { (IsAllowed number_type layout → ⊥) → reader.new ≡ reader.old }
    ensures in_type { IfOk result (λ v. number_type.bits % 8 ≡ 0 → InType true number_type.bits v) }
{
    let width = readable_width(number_type, layout)?;
    if let Some(high) = try_take_number(reader, layout, width) {
        return Ok(sign_extend(high as u128, width));
    }
    let word = read_word(reader, width, layout.order)?;
    let number = number_of_word(word, width, layout.endian, layout.order);
    Ok(sign_extend(number, width))
}

// Reads a word. More than 64 bits are read by a call, so that what is inlined is short.
#[inline(always)]
fn read_word<R: Source>(
    reader: &mut Reader<R>,
    width: usize,
    order: Order,
) -> Result<u128, DekuError>
    requires { width ≤ 128 }
    ensures reads { Reads R.known (ReadsWord order width) reader.old result reader.new }
    ensures fetched { OnOk result (Fetched R.known width reader.old reader.new) }
    ensures early { FetchedInTime reader.old reader.new }
    ensures stopped { KeepsSourceStopped reader.old reader.new }
{
    if width <= 64 {
        reader.read_short_word(width, order)
    } else {
        read_long_word(reader, width, order)
    }
}

// Reads a word by a call.
#[cold]
#[inline(never)]
fn read_long_word<R: Source>(
    reader: &mut Reader<R>,
    width: usize,
    order: Order,
) -> Result<u128, DekuError>
    requires { width ≤ 128 }
    ensures reads { Reads R.known (ReadsWord order width) reader.old result reader.new }
    ensures fetched { OnOk result (Fetched R.known width reader.old reader.new) }
    ensures early { FetchedInTime reader.old reader.new }
    ensures stopped { KeepsSourceStopped reader.old reader.new }
{
    reader.read_word(width, order)
}

// The number of this many bits, with the high bits first, if the layout is big and the bits are in
// memory. Otherwise it returns `None`, and nothing moves.
#[inline(always)]
fn try_take_number<R: Source>(reader: &mut Reader<R>, layout: Layout, width: usize) -> Option<u64>
    ensures big { IfSome result (λ n. layout.endian ≡ Endian.Big) }
    ensures high { IfSome result (λ n. layout.order ≡ Order.Msb0) }
    ensures takes { IfSome result (λ n. Reads R.known (TakesBits Order.Msb0 width) reader.old
        (Ok (bits_of width n)) reader.new) }
    ensures below { IfSome result (λ n. n < 2 ^ width) }
    ensures fetched { IfSome result (λ n. Fetched R.known width reader.old reader.new) }
    ensures early { FetchedInTime reader.old reader.new }
    ensures stays { IsNone result → reader.new ≡ reader.old }
    ensures stopped { KeepsSourceStopped reader.old reader.new }
{
    let (Endian::Big, Order::Msb0) = (layout.endian, layout.order) else {
        return None;
    };
    if width > 64 {
        return None;
    }
    reader.try_read_number(width, Order::Msb0)
}

// The width in bits of a field that is read.
#[inline(always)]
fn readable_width(number_type: NumberType, layout: Layout) -> Result<usize, DekuError>
    ensures ok { IfOk result (λ n. (n ≡ width number_type layout) × IsAllowed number_type layout) }
    ensures err { IfErr result (λ e. IsLayoutRefusal Parse (codes "too much data") number_type
        layout e) }
{
    match allowed_width(number_type, layout) {
        Ok(width) => Ok(width),
        Err(Misfit::TooWide) => Err(DekuError::Parse("too much data")),
        Err(Misfit::Uneven) => Err(DekuError::InvalidParam("signed big Lsb0 field of this width")),
    }
}

/// Writes a number of an unsigned type of at most 128 bits, as the list of bits that has this
/// value.
///
/// The caller's conditions: the type is unsigned, and has at most 128 bits.
///
/// It fails, in this order,
///
/// - with `InvalidParam("bit size is larger than input")`, or `"byte size .."`, if the size is
///   beyond the type; nothing changes, even if the writer has stopped;
/// - with `InvalidParam("bit size of input is larger than requested size")` if the number does not
///   fit the bits; nothing changes;
/// - as `Writer::write_bits_order` fails to write the bits of the field; it also says what is left
///   then.
///
/// ```text
/// write_unsigned(&mut writer, 5, u8_type, layout)?;          // the three bits 1, 0, 1
/// ```
#[inline(always)]
pub fn write_unsigned<W: Sink>(
    writer: &mut Writer<W>,
    value: u128,
    number_type: NumberType,
    layout: Layout,
) -> Result<(), DekuError>
    requires unsigned { number_type.signed ≡ false }
    requires within { number_type.bits ≤ 128 }
    ensures writes { Writes W.known (WritesNumber number_type layout (pos value)) writer.old result
        writer.new }
    ensures stopped { KeepsSinkStopped writer.old writer.new }
    ensures refused { (IsAllowed number_type layout → ⊥) → writer.new ≡ writer.old }
    ensures unfit { ((bits : List Bool) → IsFieldOf number_type layout (pos value) bits → ⊥)
        → writer.new ≡ writer.old }
{
    let width = writable_width(number_type, layout)?;
    let Some(word) = unsigned_word(value, number_type, layout, width) else {
        return Err(DekuError::InvalidParam("bit size of input is larger than requested size"));
    };
    writer.write_word(word, width, layout.order)
}

/// Writes a number of a signed type of at most 128 bits, as the list of bits that has this value.
///
/// The caller's conditions: the type is signed, and has at most 128 bits.
///
/// It fails, in this order,
///
/// - with `InvalidParam("bit size is larger than input")`, or `"byte size .."`, if the size is
///   beyond the type; nothing changes, even if the writer has stopped;
/// - with `InvalidParam("signed big Lsb0 field of this width")` if the field is big and `Lsb0`, and
///   has more than eight bits that are not whole bytes; nothing changes;
/// - with `InvalidParam("bit size of input is larger than requested size")` if the number does not
///   fit the bits; nothing changes;
/// - as `Writer::write_bits_order` fails to write the bits of the field; it also says what is left
///   then.
///
/// ```text
/// write_signed(&mut writer, -3, i8_type, layout)?;           // the three bits 1, 0, 1
/// ```
#[inline(always)]
pub fn write_signed<W: Sink>(
    writer: &mut Writer<W>,
    value: i128,
    number_type: NumberType,
    layout: Layout,
) -> Result<(), DekuError>
    requires signed { number_type.signed ≡ true }
    requires within { number_type.bits ≤ 128 }
    ensures writes { Writes W.known (WritesNumber number_type layout value) writer.old result
        writer.new }
    ensures stopped { KeepsSinkStopped writer.old writer.new }
    ensures refused { (IsAllowed number_type layout → ⊥) → writer.new ≡ writer.old }
    ensures unfit { ((bits : List Bool) → IsFieldOf number_type layout value bits → ⊥)
        → writer.new ≡ writer.old }
{
    let width = writable_width(number_type, layout)?;
    let Some(word) = signed_word(value, number_type, layout, width) else {
        return Err(DekuError::InvalidParam("bit size of input is larger than requested size"));
    };
    writer.write_word(word, width, layout.order)
}

// The width in bits of a field that is written.
#[inline(always)]
fn writable_width(number_type: NumberType, layout: Layout) -> Result<usize, DekuError>
    ensures ok { IfOk result (λ n. (n ≡ width number_type layout) × IsAllowed number_type layout) }
    ensures err { IfErr result (λ e. IsLayoutRefusal InvalidParam (beyond layout.size) number_type
        layout e) }
{
    match allowed_width(number_type, layout) {
        Ok(width) => Ok(width),
        Err(Misfit::TooWide) => Err(DekuError::InvalidParam(size_beyond(layout.size))),
        Err(Misfit::Uneven) => Err(DekuError::InvalidParam("signed big Lsb0 field of this width")),
    }
}

// The text of the error for a size beyond the type, when a number is written.
fn size_beyond(size: Size) -> &'static str
    ensures { result.now ≡ beyond size }
{
    match size {
        Size::Bytes(_) => "byte size is larger than input",
        _ => "bit size is larger than input",
    }
}

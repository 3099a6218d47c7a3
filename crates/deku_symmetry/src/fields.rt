//! Items whose types state their layout: the parts of records.

ghost use Rattle.std.specs.Prelude.{refl};
ghost use Rattle.deku_bits.specs.Outcomes.{Mapped};
ghost use Rattle.deku_num.specs.declared.ctx.Endian.TheVariants.{Big, Little};
ghost use Rattle.deku_pieces.proofs.Turned.{mapped_symmetric};
ghost use Rattle.deku_bits.specs.declared.ctx.Order.TheVariants.{Lsb0};

use crate::traits::{Part, Symmetric};
use deku::ctx::{BitSize, Endian, Order};
use deku::device::{Sink, Source};
use deku::reader::Reader;
use deku::writer::Writer;
use deku::{DekuError, DekuReader, DekuWriter, Word};

/// A number of `N` bits, high bits first: big and `Msb0`. It fails as the number does under that
/// context.
///
/// ```text
/// (Msb::<u8, 4>(6), Msb::<u8, 4>(9)).pack(alloc, ())?       // 69
/// ```
#[derive(Debug, PartialEq, Eq, Drop)]
pub struct Msb<T, const N: usize>(pub T);

impl<T: DekuReader<(Endian, BitSize)>, const N: usize> DekuReader<()> for Msb<T, N> {
    ghost accepts = { λ _. T.accepts (Big, record { 0 = N }) };

    ghost no_read_ahead = { λ _. T.no_read_ahead (Big, record { 0 = N }) };

    ghost meaning = { λ _. Mapped (λ v. record { 0 = v }) (T.meaning (Big, record { 0 = N })) };

    #[inline(always)]
    fn from_reader_with_ctx<R: Source>(
        reader: &mut Reader<R>,
        _ctx: (),
    ) -> Result<Self, DekuError> {
        let value = T::from_reader_with_ctx(reader, (Endian::Big, BitSize(N)))?;
        Ok(Msb(value))
    }

    #[inline]
    fn from_word(word: u64, room: usize, order: Order, _ctx: &()) -> Option<(Self, usize)> {
        let (value, bits) = T::from_word(word, room, order, &(Endian::Big, BitSize(N)))?;
        Some((Msb(value), bits))
    }
}

impl<T: DekuWriter<(Endian, BitSize)>, const N: usize> DekuWriter<()> for Msb<T, N> {
    ghost accepts = { λ _. T.accepts (Big, record { 0 = N }) };

    ghost meaning = { λ v _. T.meaning v.0 (Big, record { 0 = N }) };

    #[inline(always)]
    fn to_writer<W: Sink>(&self, writer: &mut Writer<W>, _ctx: ()) -> Result<(), DekuError> {
        self.0.to_writer(writer, (Endian::Big, BitSize(N)))
    }

    #[inline]
    fn to_word(&self, order: Order, _ctx: &()) -> Option<Word> {
        self.0.to_word(order, &(Endian::Big, BitSize(N)))
    }
}

/// The pieces of the number.
impl<T: Part<(Endian, BitSize)>, const N: usize> Part<()> for Msb<T, N> {
    ghost pieces = { λ v _. T.pieces v.0 (Big, record { 0 = N }) };

    ghost same = { λ v w. T.same v.0 w.0 };

    ghost reads = { λ _. Mapped (λ v. record { 0 = v }) (T.reads (Big, record { 0 = N })) };

    ghost writes = { λ v _. T.writes v.0 (Big, record { 0 = N }) };

    ghost law = { λ _. mapped_symmetric (λ v. record { 0 = v }) (λ v. v.0) _ _ _ _ (λ v. refl)
        (T.law (Big, record { 0 = N })) };
}

impl<T: Symmetric<(Endian, BitSize)>, const N: usize> Symmetric<()> for Msb<T, N> {
    ghost symmetric = { λ _. mapped_symmetric (λ v. record { 0 = v }) (λ v. v.0) _ _ _ _ (λ v. refl)
        (T.symmetric (Big, record { 0 = N })) };
}

/// A number of `N` bits, low bits first: little and `Lsb0`. It fails as the number does under that
/// context.
///
/// ```text
/// (Lsb::<u8, 4>(1), Lsb::<u16, 12>(0x123)).pack(alloc, ())? // 31 12
/// ```
#[derive(Debug, PartialEq, Eq, Drop)]
pub struct Lsb<T, const N: usize>(pub T);

impl<T: DekuReader<(Endian, BitSize, Order)>, const N: usize> DekuReader<()> for Lsb<T, N> {
    ghost accepts = { λ _. T.accepts (Little, record { 0 = N }, Lsb0) };

    ghost no_read_ahead = { λ _. T.no_read_ahead (Little, record { 0 = N }, Lsb0) };

    ghost meaning = { λ _. Mapped (λ v. record { 0 = v })
        (T.meaning (Little, record { 0 = N }, Lsb0)) };

    #[inline(always)]
    fn from_reader_with_ctx<R: Source>(
        reader: &mut Reader<R>,
        _ctx: (),
    ) -> Result<Self, DekuError> {
        let value = T::from_reader_with_ctx(reader, (Endian::Little, BitSize(N), Order::Lsb0))?;
        Ok(Lsb(value))
    }

    #[inline]
    fn from_word(word: u64, room: usize, order: Order, _ctx: &()) -> Option<(Self, usize)> {
        let (value, bits) = T::from_word(
            word,
            room,
            order,
            &(Endian::Little, BitSize(N), Order::Lsb0),
        )?;
        Some((Lsb(value), bits))
    }
}

impl<T: DekuWriter<(Endian, BitSize, Order)>, const N: usize> DekuWriter<()> for Lsb<T, N> {
    ghost accepts = { λ _. T.accepts (Little, record { 0 = N }, Lsb0) };

    ghost meaning = { λ v _. T.meaning v.0 (Little, record { 0 = N }, Lsb0) };

    #[inline(always)]
    fn to_writer<W: Sink>(&self, writer: &mut Writer<W>, _ctx: ()) -> Result<(), DekuError> {
        self.0
            .to_writer(writer, (Endian::Little, BitSize(N), Order::Lsb0))
    }

    #[inline]
    fn to_word(&self, order: Order, _ctx: &()) -> Option<Word> {
        self.0
            .to_word(order, &(Endian::Little, BitSize(N), Order::Lsb0))
    }
}

/// The pieces of the number.
impl<T: Part<(Endian, BitSize, Order)>, const N: usize> Part<()> for Lsb<T, N> {
    ghost pieces = { λ v _. T.pieces v.0 (Little, record { 0 = N }, Lsb0) };

    ghost same = { λ v w. T.same v.0 w.0 };

    ghost reads = { λ _. Mapped (λ v. record { 0 = v })
        (T.reads (Little, record { 0 = N }, Lsb0)) };

    ghost writes = { λ v _. T.writes v.0 (Little, record { 0 = N }, Lsb0) };

    ghost law = { λ _. mapped_symmetric (λ v. record { 0 = v }) (λ v. v.0) _ _ _ _ (λ v. refl)
        (T.law (Little, record { 0 = N }, Lsb0)) };
}

impl<T: Symmetric<(Endian, BitSize, Order)>, const N: usize> Symmetric<()> for Lsb<T, N> {
    ghost symmetric = { λ _. mapped_symmetric (λ v. record { 0 = v }) (λ v. v.0) _ _ _ _ (λ v. refl)
        (T.symmetric (Little, record { 0 = N }, Lsb0)) };
}

/// A number of `N` bits in `Msb0`, with its low byte first: little and `Msb0`. It fails as the
/// number does under that context.
///
/// ```text
/// MsbLe::<u16, 10>(0x3AB).pack(alloc, ())?                  // AB C0
/// ```
#[derive(Debug, PartialEq, Eq, Drop)]
pub struct MsbLe<T, const N: usize>(pub T);

impl<T: DekuReader<(Endian, BitSize)>, const N: usize> DekuReader<()> for MsbLe<T, N> {
    ghost accepts = { λ _. T.accepts (Little, record { 0 = N }) };

    ghost no_read_ahead = { λ _. T.no_read_ahead (Little, record { 0 = N }) };

    ghost meaning = { λ _. Mapped (λ v. record { 0 = v }) (T.meaning (Little, record { 0 = N })) };

    #[inline(always)]
    fn from_reader_with_ctx<R: Source>(
        reader: &mut Reader<R>,
        _ctx: (),
    ) -> Result<Self, DekuError> {
        let value = T::from_reader_with_ctx(reader, (Endian::Little, BitSize(N)))?;
        Ok(MsbLe(value))
    }

    #[inline]
    fn from_word(word: u64, room: usize, order: Order, _ctx: &()) -> Option<(Self, usize)> {
        let (value, bits) = T::from_word(word, room, order, &(Endian::Little, BitSize(N)))?;
        Some((MsbLe(value), bits))
    }
}

impl<T: DekuWriter<(Endian, BitSize)>, const N: usize> DekuWriter<()> for MsbLe<T, N> {
    ghost accepts = { λ _. T.accepts (Little, record { 0 = N }) };

    ghost meaning = { λ v _. T.meaning v.0 (Little, record { 0 = N }) };

    #[inline(always)]
    fn to_writer<W: Sink>(&self, writer: &mut Writer<W>, _ctx: ()) -> Result<(), DekuError> {
        self.0.to_writer(writer, (Endian::Little, BitSize(N)))
    }

    #[inline]
    fn to_word(&self, order: Order, _ctx: &()) -> Option<Word> {
        self.0.to_word(order, &(Endian::Little, BitSize(N)))
    }
}

/// The pieces of the number.
impl<T: Part<(Endian, BitSize)>, const N: usize> Part<()> for MsbLe<T, N> {
    ghost pieces = { λ v _. T.pieces v.0 (Little, record { 0 = N }) };

    ghost same = { λ v w. T.same v.0 w.0 };

    ghost reads = { λ _. Mapped (λ v. record { 0 = v }) (T.reads (Little, record { 0 = N })) };

    ghost writes = { λ v _. T.writes v.0 (Little, record { 0 = N }) };

    ghost law = { λ _. mapped_symmetric (λ v. record { 0 = v }) (λ v. v.0) _ _ _ _ (λ v. refl)
        (T.law (Little, record { 0 = N })) };
}

impl<T: Symmetric<(Endian, BitSize)>, const N: usize> Symmetric<()> for MsbLe<T, N> {
    ghost symmetric = { λ _. mapped_symmetric (λ v. record { 0 = v }) (λ v. v.0) _ _ _ _ (λ v. refl)
        (T.symmetric (Little, record { 0 = N })) };
}

/// A number of `N` bits in `Lsb0`, with its high byte first: big and `Lsb0`. It fails as the number
/// does under that context. A signed number of more than eight bits always fails if its width is
/// not a multiple of eight.
///
/// ```text
/// (LsbBe::<u16, 13>(0x1001), LsbBe::<u8, 3>(4)).pack(alloc, ())? // 10 81
/// ```
#[derive(Debug, PartialEq, Eq, Drop)]
pub struct LsbBe<T, const N: usize>(pub T);

impl<T: DekuReader<(Endian, BitSize, Order)>, const N: usize> DekuReader<()> for LsbBe<T, N> {
    ghost accepts = { λ _. T.accepts (Big, record { 0 = N }, Lsb0) };

    ghost no_read_ahead = { λ _. T.no_read_ahead (Big, record { 0 = N }, Lsb0) };

    ghost meaning = { λ _. Mapped (λ v. record { 0 = v })
        (T.meaning (Big, record { 0 = N }, Lsb0)) };

    #[inline(always)]
    fn from_reader_with_ctx<R: Source>(
        reader: &mut Reader<R>,
        _ctx: (),
    ) -> Result<Self, DekuError> {
        let value = T::from_reader_with_ctx(reader, (Endian::Big, BitSize(N), Order::Lsb0))?;
        Ok(LsbBe(value))
    }

    #[inline]
    fn from_word(word: u64, room: usize, order: Order, _ctx: &()) -> Option<(Self, usize)> {
        let (value, bits) = T::from_word(
            word,
            room,
            order,
            &(Endian::Big, BitSize(N), Order::Lsb0),
        )?;
        Some((LsbBe(value), bits))
    }
}

impl<T: DekuWriter<(Endian, BitSize, Order)>, const N: usize> DekuWriter<()> for LsbBe<T, N> {
    ghost accepts = { λ _. T.accepts (Big, record { 0 = N }, Lsb0) };

    ghost meaning = { λ v _. T.meaning v.0 (Big, record { 0 = N }, Lsb0) };

    #[inline(always)]
    fn to_writer<W: Sink>(&self, writer: &mut Writer<W>, _ctx: ()) -> Result<(), DekuError> {
        self.0
            .to_writer(writer, (Endian::Big, BitSize(N), Order::Lsb0))
    }

    #[inline]
    fn to_word(&self, order: Order, _ctx: &()) -> Option<Word> {
        self.0
            .to_word(order, &(Endian::Big, BitSize(N), Order::Lsb0))
    }
}

/// The pieces of the number.
impl<T: Part<(Endian, BitSize, Order)>, const N: usize> Part<()> for LsbBe<T, N> {
    ghost pieces = { λ v _. T.pieces v.0 (Big, record { 0 = N }, Lsb0) };

    ghost same = { λ v w. T.same v.0 w.0 };

    ghost reads = { λ _. Mapped (λ v. record { 0 = v }) (T.reads (Big, record { 0 = N }, Lsb0)) };

    ghost writes = { λ v _. T.writes v.0 (Big, record { 0 = N }, Lsb0) };

    ghost law = { λ _. mapped_symmetric (λ v. record { 0 = v }) (λ v. v.0) _ _ _ _ (λ v. refl)
        (T.law (Big, record { 0 = N }, Lsb0)) };
}

impl<T: Symmetric<(Endian, BitSize, Order)>, const N: usize> Symmetric<()> for LsbBe<T, N> {
    ghost symmetric = { λ _. mapped_symmetric (λ v. record { 0 = v }) (λ v. v.0) _ _ _ _ (λ v. refl)
        (T.symmetric (Big, record { 0 = N }, Lsb0)) };
}

/// A number of whole bytes, with the high byte first: big and `Msb0`.
///
/// ```text
/// Be(0xC0FEu16).pack(alloc, ())?                            // C0 FE
/// ```
#[derive(Debug, PartialEq, Eq, Drop)]
pub struct Be<T>(pub T);

impl<T: DekuReader<Endian>> DekuReader<()> for Be<T> {
    ghost accepts = { λ _. T.accepts Big };

    ghost no_read_ahead = { λ _. T.no_read_ahead Big };

    ghost meaning = { λ _. Mapped (λ v. record { 0 = v }) (T.meaning Big) };

    #[inline(always)]
    fn from_reader_with_ctx<R: Source>(
        reader: &mut Reader<R>,
        _ctx: (),
    ) -> Result<Self, DekuError> {
        let value = T::from_reader_with_ctx(reader, Endian::Big)?;
        Ok(Be(value))
    }

    #[inline]
    fn from_word(word: u64, room: usize, order: Order, _ctx: &()) -> Option<(Self, usize)> {
        let (value, bits) = T::from_word(word, room, order, &Endian::Big)?;
        Some((Be(value), bits))
    }
}

impl<T: DekuWriter<Endian>> DekuWriter<()> for Be<T> {
    ghost accepts = { λ _. T.accepts Big };

    ghost meaning = { λ v _. T.meaning v.0 Big };

    #[inline(always)]
    fn to_writer<W: Sink>(&self, writer: &mut Writer<W>, _ctx: ()) -> Result<(), DekuError> {
        self.0.to_writer(writer, Endian::Big)
    }

    #[inline]
    fn to_word(&self, order: Order, _ctx: &()) -> Option<Word> {
        self.0.to_word(order, &Endian::Big)
    }
}

/// The pieces of the number.
impl<T: Part<Endian>> Part<()> for Be<T> {
    ghost pieces = { λ v _. T.pieces v.0 Big };

    ghost same = { λ v w. T.same v.0 w.0 };

    ghost reads = { λ _. Mapped (λ v. record { 0 = v }) (T.reads Big) };

    ghost writes = { λ v _. T.writes v.0 Big };

    ghost law = { λ _. mapped_symmetric (λ v. record { 0 = v }) (λ v. v.0) _ _ _ _ (λ v. refl)
        (T.law Big) };
}

impl<T: Symmetric<Endian>> Symmetric<()> for Be<T> {
    ghost symmetric = { λ _. mapped_symmetric (λ v. record { 0 = v }) (λ v. v.0) _ _ _ _ (λ v. refl)
        (T.symmetric Big) };
}

/// A number of whole bytes, with the low byte first: little and `Msb0`.
///
/// ```text
/// Le(0xC0FEu16).pack(alloc, ())?                            // FE C0
/// ```
#[derive(Debug, PartialEq, Eq, Drop)]
pub struct Le<T>(pub T);

impl<T: DekuReader<Endian>> DekuReader<()> for Le<T> {
    ghost accepts = { λ _. T.accepts Little };

    ghost no_read_ahead = { λ _. T.no_read_ahead Little };

    ghost meaning = { λ _. Mapped (λ v. record { 0 = v }) (T.meaning Little) };

    #[inline(always)]
    fn from_reader_with_ctx<R: Source>(
        reader: &mut Reader<R>,
        _ctx: (),
    ) -> Result<Self, DekuError> {
        let value = T::from_reader_with_ctx(reader, Endian::Little)?;
        Ok(Le(value))
    }

    #[inline]
    fn from_word(word: u64, room: usize, order: Order, _ctx: &()) -> Option<(Self, usize)> {
        let (value, bits) = T::from_word(word, room, order, &Endian::Little)?;
        Some((Le(value), bits))
    }
}

impl<T: DekuWriter<Endian>> DekuWriter<()> for Le<T> {
    ghost accepts = { λ _. T.accepts Little };

    ghost meaning = { λ v _. T.meaning v.0 Little };

    #[inline(always)]
    fn to_writer<W: Sink>(&self, writer: &mut Writer<W>, _ctx: ()) -> Result<(), DekuError> {
        self.0.to_writer(writer, Endian::Little)
    }

    #[inline]
    fn to_word(&self, order: Order, _ctx: &()) -> Option<Word> {
        self.0.to_word(order, &Endian::Little)
    }
}

/// The pieces of the number.
impl<T: Part<Endian>> Part<()> for Le<T> {
    ghost pieces = { λ v _. T.pieces v.0 Little };

    ghost same = { λ v w. T.same v.0 w.0 };

    ghost reads = { λ _. Mapped (λ v. record { 0 = v }) (T.reads Little) };

    ghost writes = { λ v _. T.writes v.0 Little };

    ghost law = { λ _. mapped_symmetric (λ v. record { 0 = v }) (λ v. v.0) _ _ _ _ (λ v. refl)
        (T.law Little) };
}

impl<T: Symmetric<Endian>> Symmetric<()> for Le<T> {
    ghost symmetric = { λ _. mapped_symmetric (λ v. record { 0 = v }) (λ v. v.0) _ _ _ _ (λ v. refl)
        (T.symmetric Little) };
}

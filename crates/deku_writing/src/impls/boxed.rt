//! Items on the heap.

ghost use Rattle.std.specs.Box.{boxed_slice_items};
ghost use Rattle.deku_writing.specs.Composing.{WritesEach};

use crate::traits::DekuWriter;
use deku_bits::device::Sink;
use deku_bits::error::DekuError;
use deku_bits::writer::Writer;
use std::alloc::Allocator;
use std::boxed::BoxedSlice;

/// The item is written.
impl<Ctx: Copy, T: DekuWriter<Ctx>> DekuWriter<Ctx> for Box<T> {
    ghost accepts = { T.accepts };

    ghost meaning = { λ v c. T.meaning v.value c };

    fn to_writer<W: Sink>(&self, writer: &mut Writer<W>, ctx: Ctx) -> Result<(), DekuError> {
        (**self).to_writer(writer, ctx)
    }
}

/// The items in order, under the items' context. It fails as the first item that fails, and what
/// was written before stays written. It takes no memory.
impl<Ctx: Copy, T: DekuWriter<Ctx>, A: Allocator> DekuWriter<Ctx> for BoxedSlice<T, A> {
    ghost accepts = { T.accepts };

    ghost meaning = { λ v c. WritesEach (λ x. T.meaning x c) (boxed_slice_items v) };

    fn to_writer<W: Sink>(&self, writer: &mut Writer<W>, ctx: Ctx) -> Result<(), DekuError> {
        self.as_slice().to_writer(writer, ctx)
    }
}

//! Laws of what is written. Each law is the postcondition of an empty function.

ghost use Rattle.std.specs.Prelude.{◌≡◌, ◌⊎◌, ℕ, ◌+◌, ◌*◌, Bool, List, Err};
ghost use Rattle.std.specs.Prelude.{ℤ, length, pos};
ghost use Rattle.std.specs.List.{All};
ghost use Rattle.std.specs.declared.io.ErrorKind.{ErrorKind};
ghost use Rattle.deku_bits.specs.declared.error.DekuError.TheVariants.{Io};
ghost use Rattle.deku_bits.specs.Devices.{DeviceFailed};
ghost use Rattle.deku_num.specs.declared.ctx.ByteSize.{ByteSize as ByteCount};
ghost use Rattle.deku_meanings.specs.declared.ctx.ReadExact.{ReadExact as ExactCount};
ghost use Rattle.deku_bits.specs.Causes.{OwnFaults, NoKind, WantsMemory, WantsPlace};
ghost use Rattle.deku_bits.specs.WriterCalls.{Finalizes};
ghost use Rattle.deku_num.specs.declared.ctx.Layout.{Layout as FieldLayout};
ghost use Rattle.deku_num.specs.declared.kind.NumberType.{NumberType as FieldType};
ghost use Rattle.deku_num.specs.NumberCalls.{ReadsNumber, WritesNumber};
ghost use Rattle.deku.specs.Wholes.{Behind, ReadsOnce, ReadsBytesOnce, WritesOnce, WritesOver};
ghost use Rattle.deku.specs.Wholes.{WritesBare};
ghost use Rattle.deku_meanings.specs.Composing.{Both, JoinedBy};
ghost use Rattle.deku_writing.specs.Composing.{WritesEach};
ghost use Rattle.deku.specs.Extents.{IsSized, NumberSizeLaw, KeepsSize, NumbersKeepSize};
ghost use Rattle.deku_num.specs.Numbers.{byte, unsigned, signed};
ghost use Rattle.deku_meanings.specs.declared.ctx.Limit.{Limit as LimitOf};
ghost use Rattle.deku_meanings.specs.declared.ctx.Limit.TheVariants.{Count};
ghost use Rattle.deku.specs.VectorLaws.{ReadsAsWritten};
ghost use Rattle.deku.specs.Rows.{VectorRows};

use crate::impls::cstring::CString;
use deku_bits::device::Source;
use deku_meanings::ctx::{Limit, Never, Predicate, ReadExact};
use deku_num::ctx::{ByteSize, NumberCtx};
use deku_num::size::DekuSize;
use deku_reading::DekuReader;
use deku_writing::DekuWriter;
use std::boxed::BoxedSlice;
use std::collections::{HashMap, HashSet};
use std::hash::{BuildHasher, Hash};
use std::net::{Ipv4Addr, Ipv6Addr};
use std::num::{
    NonZeroI8, NonZeroI16, NonZeroI32, NonZeroI64, NonZeroI128, NonZeroIsize, NonZeroU8,
    NonZeroU16, NonZeroU32, NonZeroU64, NonZeroU128, NonZeroUsize,
};

/// A value of a number type is written under a layout of its whole size, such as `()`, as exactly
/// the bits of its type.
pub fn number_size_law()
    ensures { NumberSizeLaw }
{}

/// A `bool` is written under `()` as exactly eight bits.
pub fn bool_size_law()
    ensures { (v : Bool) → IsSized 8 (⟦<bool as DekuWriter<()>>⟧.meaning v tt) }
{}

/// The unit value is written as no bits.
pub fn unit_size_law()
    ensures { IsSized 0 (⟦<() as DekuWriter<()>>⟧.meaning tt tt) }
{}

/// Two values that are written as exactly n and k bits are written, one after the other, as exactly
/// n + k bits. So is a pair of them. A longer tuple is its first item and then the tuple of the
/// rest.
pub fn joined_size_law<Ctx: Copy, A: DekuWriter<Ctx>, B: DekuWriter<Ctx>>()
    ensures { (c : Ctx) (v : A) (w : B) (n k : ℕ) → IsSized n (A.meaning v c)
        → IsSized k (B.meaning w c) → IsSized (n + k) (Both (A.meaning v c) (B.meaning w c)) }
{}

/// Items that are each written as exactly k bits are written, one after the other, as exactly k
/// bits times the number of items. The same holds for slices and arrays.
pub fn items_size_law<Ctx: Copy, T: DekuWriter<Ctx>>()
    ensures { (c : Ctx) (vs : List T) (k : ℕ) → All (λ v. IsSized k (T.meaning v c)) vs
        → IsSized (length vs * k) (WritesEach (λ v. T.meaning v c) vs) }
{}

/// If `size_bits` of a number type or of `bool` is n, each value of the type is written under `()`
/// as exactly n bits.
pub fn number_extent_law()
    ensures of_u8 { NumbersKeepSize byte pos ⟦<u8 as DekuSize>⟧.bits
        (λ v. ⟦<u8 as DekuWriter<()>>⟧.meaning v tt) }
    ensures of_u16 { NumbersKeepSize (unsigned 16) pos ⟦<u16 as DekuSize>⟧.bits
        (λ v. ⟦<u16 as DekuWriter<()>>⟧.meaning v tt) }
    ensures of_u32 { NumbersKeepSize (unsigned 32) pos ⟦<u32 as DekuSize>⟧.bits
        (λ v. ⟦<u32 as DekuWriter<()>>⟧.meaning v tt) }
    ensures of_u64 { NumbersKeepSize (unsigned 64) pos ⟦<u64 as DekuSize>⟧.bits
        (λ v. ⟦<u64 as DekuWriter<()>>⟧.meaning v tt) }
    ensures of_u128 { NumbersKeepSize (unsigned 128) pos ⟦<u128 as DekuSize>⟧.bits
        (λ v. ⟦<u128 as DekuWriter<()>>⟧.meaning v tt) }
    ensures of_usize { NumbersKeepSize (unsigned 64) pos ⟦<usize as DekuSize>⟧.bits
        (λ v. ⟦<usize as DekuWriter<()>>⟧.meaning v tt) }
    ensures of_i8 { NumbersKeepSize (signed 8) (λ v. v) ⟦<i8 as DekuSize>⟧.bits
        (λ v. ⟦<i8 as DekuWriter<()>>⟧.meaning v tt) }
    ensures of_i16 { NumbersKeepSize (signed 16) (λ v. v) ⟦<i16 as DekuSize>⟧.bits
        (λ v. ⟦<i16 as DekuWriter<()>>⟧.meaning v tt) }
    ensures of_i32 { NumbersKeepSize (signed 32) (λ v. v) ⟦<i32 as DekuSize>⟧.bits
        (λ v. ⟦<i32 as DekuWriter<()>>⟧.meaning v tt) }
    ensures of_i64 { NumbersKeepSize (signed 64) (λ v. v) ⟦<i64 as DekuSize>⟧.bits
        (λ v. ⟦<i64 as DekuWriter<()>>⟧.meaning v tt) }
    ensures of_i128 { NumbersKeepSize (signed 128) (λ v. v) ⟦<i128 as DekuSize>⟧.bits
        (λ v. ⟦<i128 as DekuWriter<()>>⟧.meaning v tt) }
    ensures of_isize { NumbersKeepSize (signed 64) (λ v. v) ⟦<isize as DekuSize>⟧.bits
        (λ v. ⟦<isize as DekuWriter<()>>⟧.meaning v tt) }
    ensures of_bool { (v : Bool) → KeepsSize ⟦<bool as DekuSize>⟧.bits
        (⟦<bool as DekuWriter<()>>⟧.meaning v tt) }
{}

/// A type that has a size and can be written under `()`. Each type that has both is one.
pub trait Extent: DekuSize + DekuWriter<()> {
    // If `size_bits` is n, the value is written under `()` as exactly n bits.
    ghost keeps_size: { Self → Type 0 };
}

impl<T: DekuSize + DekuWriter<()>> Extent for T {
    ghost keeps_size = { λ v. KeepsSize T.bits (T.meaning v tt) };
}

/// If `size_bits` of a tuple is n, the tuple is written under `()` as exactly n bits, provided that
/// its first item and the tuple of the rest are written as exactly the bits of their own sizes. The
/// same holds for each length up to eleven items.
pub fn tuple_extent_law<
    A: DekuSize + DekuWriter<()>,
    B: DekuSize + DekuWriter<()>,
    C: DekuSize + DekuWriter<()>,
    D: DekuSize + DekuWriter<()>,
    E: DekuSize + DekuWriter<()>,
    F: DekuSize + DekuWriter<()>,
    G: DekuSize + DekuWriter<()>,
    H: DekuSize + DekuWriter<()>,
    I: DekuSize + DekuWriter<()>,
    J: DekuSize + DekuWriter<()>,
    K: DekuSize + DekuWriter<()>,
>()
    ensures one { (a : A) → ⟦<A as Extent>⟧.keeps_size a
        → ⟦<(A,) as Extent>⟧.keeps_size (record { 0 = a }) }
    ensures two { (v : A × B) → ⟦<A as Extent>⟧.keeps_size v.0
        → ⟦<B as Extent>⟧.keeps_size v.1 → ⟦<(A, B) as Extent>⟧.keeps_size v }
    ensures three { (v : A × B × C) → ⟦<A as Extent>⟧.keeps_size v.0
        → ⟦<(B, C) as Extent>⟧.keeps_size (v.1, v.2) → ⟦<(A, B, C) as Extent>⟧.keeps_size v }
    ensures four { (v : A × B × C × D) → ⟦<A as Extent>⟧.keeps_size v.0
        → ⟦<(B, C, D) as Extent>⟧.keeps_size (v.1, v.2, v.3)
        → ⟦<(A, B, C, D) as Extent>⟧.keeps_size v }
    ensures five { (v : A × B × C × D × E) → ⟦<A as Extent>⟧.keeps_size v.0
        → ⟦<(B, C, D, E) as Extent>⟧.keeps_size (v.1, v.2, v.3, v.4)
        → ⟦<(A, B, C, D, E) as Extent>⟧.keeps_size v }
    ensures six { (v : A × B × C × D × E × F) → ⟦<A as Extent>⟧.keeps_size v.0
        → ⟦<(B, C, D, E, F) as Extent>⟧.keeps_size (v.1, v.2, v.3, v.4, v.5)
        → ⟦<(A, B, C, D, E, F) as Extent>⟧.keeps_size v }
    ensures seven { (v : A × B × C × D × E × F × G) → ⟦<A as Extent>⟧.keeps_size v.0
        → ⟦<(B, C, D, E, F, G) as Extent>⟧.keeps_size (v.1, v.2, v.3, v.4, v.5, v.6)
        → ⟦<(A, B, C, D, E, F, G) as Extent>⟧.keeps_size v }
    ensures eight { (v : A × B × C × D × E × F × G × H) → ⟦<A as Extent>⟧.keeps_size v.0
        → ⟦<(B, C, D, E, F, G, H) as Extent>⟧.keeps_size (v.1, v.2, v.3, v.4, v.5, v.6, v.7)
        → ⟦<(A, B, C, D, E, F, G, H) as Extent>⟧.keeps_size v }
    ensures nine { (v : A × B × C × D × E × F × G × H × I) → ⟦<A as Extent>⟧.keeps_size v.0
        → ⟦<(B, C, D, E, F, G, H, I) as Extent>⟧.keeps_size (v.1, v.2, v.3, v.4, v.5, v.6, v.7, v.8)
        → ⟦<(A, B, C, D, E, F, G, H, I) as Extent>⟧.keeps_size v }
    ensures ten { (v : A × B × C × D × E × F × G × H × I × J) → ⟦<A as Extent>⟧.keeps_size v.0
        → ⟦<(B, C, D, E, F, G, H, I, J) as Extent>⟧.keeps_size
        (v.1, v.2, v.3, v.4, v.5, v.6, v.7, v.8, v.9)
        → ⟦<(A, B, C, D, E, F, G, H, I, J) as Extent>⟧.keeps_size v }
    ensures eleven { (v : A × B × C × D × E × F × G × H × I × J × K)
        → ⟦<A as Extent>⟧.keeps_size v.0 → ⟦<(B, C, D, E, F, G, H, I, J, K) as Extent>⟧.keeps_size
        (v.1, v.2, v.3, v.4, v.5, v.6, v.7, v.8, v.9, v.10)
        → ⟦<(A, B, C, D, E, F, G, H, I, J, K) as Extent>⟧.keeps_size v }
{}

/// If `size_bits` of an array is n, the array is written under `()` as exactly n bits, provided
/// that each item is written as exactly the bits of its size.
pub fn array_extent_law<T: DekuSize + DekuWriter<()>, const N: usize>()
    ensures { (vs : List T) → length vs ≡ N → All (λ v. KeepsSize T.bits (T.meaning v tt)) vs
        → KeepsSize ⟦<[T; N] as DekuSize>⟧.bits (⟦<[T; N] as DekuWriter<()>>⟧.meaning vs tt) }
{}

/// A vector of whole numbers that is written is read back as itself, with a count of its length,
/// whatever follows it. This holds for each of the twelve types, if the values fit, the vector is
/// written from a byte boundary under one context whose layout is not rejected and is padded once,
/// and the bits can be counted. The only error is out of memory.
pub fn vector_law<C: NumberCtx>()
    ensures of_u8 { (c : C) → ReadsAsWritten byte (C.layout_of c) pos
        (λ n. ⟦<Vec<u8> as DekuReader<(Limit<u8, Never>, C)>>⟧.meaning (Count n, c))
        (λ v. ⟦<Vec<u8> as DekuWriter<C>>⟧.meaning v c) }
    ensures of_u16 { (c : C) → ReadsAsWritten (unsigned 16) (C.layout_of c) pos
        (λ n. ⟦<Vec<u16> as DekuReader<(Limit<u16, Never>, C)>>⟧.meaning (Count n, c))
        (λ v. ⟦<Vec<u16> as DekuWriter<C>>⟧.meaning v c) }
    ensures of_u32 { (c : C) → ReadsAsWritten (unsigned 32) (C.layout_of c) pos
        (λ n. ⟦<Vec<u32> as DekuReader<(Limit<u32, Never>, C)>>⟧.meaning (Count n, c))
        (λ v. ⟦<Vec<u32> as DekuWriter<C>>⟧.meaning v c) }
    ensures of_u64 { (c : C) → ReadsAsWritten (unsigned 64) (C.layout_of c) pos
        (λ n. ⟦<Vec<u64> as DekuReader<(Limit<u64, Never>, C)>>⟧.meaning (Count n, c))
        (λ v. ⟦<Vec<u64> as DekuWriter<C>>⟧.meaning v c) }
    ensures of_u128 { (c : C) → ReadsAsWritten (unsigned 128) (C.layout_of c) pos
        (λ n. ⟦<Vec<u128> as DekuReader<(Limit<u128, Never>, C)>>⟧.meaning (Count n, c))
        (λ v. ⟦<Vec<u128> as DekuWriter<C>>⟧.meaning v c) }
    ensures of_usize { (c : C) → ReadsAsWritten (unsigned 64) (C.layout_of c) pos
        (λ n. ⟦<Vec<usize> as DekuReader<(Limit<usize, Never>, C)>>⟧.meaning (Count n, c))
        (λ v. ⟦<Vec<usize> as DekuWriter<C>>⟧.meaning v c) }
    ensures of_i8 { (c : C) → ReadsAsWritten (signed 8) (C.layout_of c) (λ v. v)
        (λ n. ⟦<Vec<i8> as DekuReader<(Limit<i8, Never>, C)>>⟧.meaning (Count n, c))
        (λ v. ⟦<Vec<i8> as DekuWriter<C>>⟧.meaning v c) }
    ensures of_i16 { (c : C) → ReadsAsWritten (signed 16) (C.layout_of c) (λ v. v)
        (λ n. ⟦<Vec<i16> as DekuReader<(Limit<i16, Never>, C)>>⟧.meaning (Count n, c))
        (λ v. ⟦<Vec<i16> as DekuWriter<C>>⟧.meaning v c) }
    ensures of_i32 { (c : C) → ReadsAsWritten (signed 32) (C.layout_of c) (λ v. v)
        (λ n. ⟦<Vec<i32> as DekuReader<(Limit<i32, Never>, C)>>⟧.meaning (Count n, c))
        (λ v. ⟦<Vec<i32> as DekuWriter<C>>⟧.meaning v c) }
    ensures of_i64 { (c : C) → ReadsAsWritten (signed 64) (C.layout_of c) (λ v. v)
        (λ n. ⟦<Vec<i64> as DekuReader<(Limit<i64, Never>, C)>>⟧.meaning (Count n, c))
        (λ v. ⟦<Vec<i64> as DekuWriter<C>>⟧.meaning v c) }
    ensures of_i128 { (c : C) → ReadsAsWritten (signed 128) (C.layout_of c) (λ v. v)
        (λ n. ⟦<Vec<i128> as DekuReader<(Limit<i128, Never>, C)>>⟧.meaning (Count n, c))
        (λ v. ⟦<Vec<i128> as DekuWriter<C>>⟧.meaning v c) }
    ensures of_isize { (c : C) → ReadsAsWritten (signed 64) (C.layout_of c) (λ v. v)
        (λ n. ⟦<Vec<isize> as DekuReader<(Limit<isize, Never>, C)>>⟧.meaning (Count n, c))
        (λ v. ⟦<Vec<isize> as DekuWriter<C>>⟧.meaning v c) }
{}

/// Worked examples of vectors that are written.
pub fn vector_rows()
    ensures { VectorRows }
{}

/// Reading a number has no `Io` error of its own. Writing one has none except out of room or out of
/// memory.
pub fn number_cause_law()
    ensures reads { (t : FieldType) (l : FieldLayout) → OwnFaults NoKind (ReadsNumber t l) }
    ensures writes { (t : FieldType) (l : FieldLayout) (v : ℤ)
        → OwnFaults WantsPlace (WritesNumber t l v) }
{}

/// What is made of items has no `Io` error of its own if its items have none: two items as one
/// value, and arrays. If its items have none except out of memory, it has none except that either;
/// the same holds for vectors under any limit. Tuples are covered too, as their first item and the
/// rest.
pub fn items_cause_law<
    Ctx: Copy,
    A: DekuReader<Ctx>,
    B: DekuReader<Ctx>,
    X,
    P: Predicate<A>,
    const N: usize,
>()
    ensures wider { (c : Ctx) → OwnFaults NoKind (A.meaning c)
        → OwnFaults WantsMemory (A.meaning c) }
    ensures joined_alone { (h : A → B → X) (c : Ctx) → OwnFaults NoKind (A.meaning c)
        → OwnFaults NoKind (B.meaning c) → OwnFaults NoKind
        (JoinedBy h (A.meaning c) (B.meaning c)) }
    ensures array_alone { (c : Ctx) → OwnFaults NoKind (A.meaning c)
        → OwnFaults NoKind (⟦<[A; N] as DekuReader<Ctx>>⟧.meaning c) }
    ensures joined { (h : A → B → X) (c : Ctx) → OwnFaults WantsMemory (A.meaning c)
        → OwnFaults WantsMemory (B.meaning c)
        → OwnFaults WantsMemory (JoinedBy h (A.meaning c) (B.meaning c)) }
    ensures array { (c : Ctx) → OwnFaults WantsMemory (A.meaning c)
        → OwnFaults WantsMemory (⟦<[A; N] as DekuReader<Ctx>>⟧.meaning c) }
    ensures vector { (l : LimitOf A P) (c : Ctx) → OwnFaults WantsMemory (A.meaning c)
        → OwnFaults WantsMemory (⟦<Vec<A> as DekuReader<(Limit<A, P>, Ctx)>>⟧.meaning (l, c)) }
{}

/// The same holds for a value that is held: an optional value, a value on the heap, a slice, a set
/// and a map.
pub fn held_cause_law<
    Ctx: Copy,
    K: DekuReader<Ctx> + Eq + Hash,
    V: DekuReader<Ctx>,
    S: BuildHasher + Default + Drop,
    P: Predicate<K>,
    Q: Predicate<(K, V)>,
>()
    ensures option_alone { (c : Ctx) → OwnFaults NoKind (V.meaning c)
        → OwnFaults NoKind (⟦<Option<V> as DekuReader<Ctx>>⟧.meaning c) }
    ensures option { (c : Ctx) → OwnFaults WantsMemory (V.meaning c)
        → OwnFaults WantsMemory (⟦<Option<V> as DekuReader<Ctx>>⟧.meaning c) }
    ensures boxed { (c : Ctx) → OwnFaults WantsMemory (V.meaning c)
        → OwnFaults WantsMemory (⟦<Box<V> as DekuReader<Ctx>>⟧.meaning c) }
    ensures slice { (l : LimitOf K P) (c : Ctx) → OwnFaults WantsMemory (K.meaning c)
        → OwnFaults WantsMemory (⟦<BoxedSlice<K> as DekuReader<(Limit<K, P>, Ctx)>>⟧.meaning
        (l, c)) }
    ensures set { (l : LimitOf K P) (c : Ctx) → OwnFaults WantsMemory (K.meaning c)
        → OwnFaults WantsMemory (⟦<HashSet<K, S> as DekuReader<(Limit<K, P>, Ctx)>>⟧.meaning
        (l, c)) }
    ensures map { (l : LimitOf (K × V) Q) (c : Ctx) → OwnFaults WantsMemory (K.meaning c)
        → OwnFaults WantsMemory (V.meaning c)
        → OwnFaults WantsMemory (⟦<HashMap<K, V, S> as DekuReader<(Limit<(K, V), Q>, Ctx)>>⟧.meaning
        (l, c)) }
{}

/// What is made of one number has no `Io` error of its own: truth values, addresses and numbers
/// other than zero.
pub fn plain_cause_law<C: NumberCtx>()
    ensures of_bool { (c : C) → OwnFaults NoKind (⟦<bool as DekuReader<C>>⟧.meaning c) }
    ensures of_ipv4 { (c : C) → OwnFaults NoKind (⟦<Ipv4Addr as DekuReader<C>>⟧.meaning c) }
    ensures of_ipv6 { (c : C) → OwnFaults NoKind (⟦<Ipv6Addr as DekuReader<C>>⟧.meaning c) }
    ensures of_non_zero_u8 { (c : C) → OwnFaults NoKind (⟦<NonZeroU8 as DekuReader<C>>⟧.meaning c) }
    ensures of_non_zero_u16 { (c : C) → OwnFaults NoKind (⟦<NonZeroU16 as DekuReader<C>>⟧.meaning
        c) }
    ensures of_non_zero_u32 { (c : C) → OwnFaults NoKind (⟦<NonZeroU32 as DekuReader<C>>⟧.meaning
        c) }
    ensures of_non_zero_u64 { (c : C) → OwnFaults NoKind (⟦<NonZeroU64 as DekuReader<C>>⟧.meaning
        c) }
    ensures of_non_zero_u128 { (c : C) → OwnFaults NoKind (⟦<NonZeroU128 as DekuReader<C>>⟧.meaning
        c) }
    ensures of_non_zero_usize { (c : C) → OwnFaults NoKind
        (⟦<NonZeroUsize as DekuReader<C>>⟧.meaning c) }
    ensures of_non_zero_i8 { (c : C) → OwnFaults NoKind (⟦<NonZeroI8 as DekuReader<C>>⟧.meaning c) }
    ensures of_non_zero_i16 { (c : C) → OwnFaults NoKind (⟦<NonZeroI16 as DekuReader<C>>⟧.meaning
        c) }
    ensures of_non_zero_i32 { (c : C) → OwnFaults NoKind (⟦<NonZeroI32 as DekuReader<C>>⟧.meaning
        c) }
    ensures of_non_zero_i64 { (c : C) → OwnFaults NoKind (⟦<NonZeroI64 as DekuReader<C>>⟧.meaning
        c) }
    ensures of_non_zero_i128 { (c : C) → OwnFaults NoKind (⟦<NonZeroI128 as DekuReader<C>>⟧.meaning
        c) }
    ensures of_non_zero_isize { (c : C) → OwnFaults NoKind
        (⟦<NonZeroIsize as DekuReader<C>>⟧.meaning c) }
{}

/// A text, and bytes of an exact count, have no `Io` error of their own except out of memory.
pub fn text_cause_law()
    ensures to_zero { OwnFaults WantsMemory (⟦<CString as DekuReader<()>>⟧.meaning tt) }
    ensures within { (n : ByteCount) → OwnFaults WantsMemory
        (⟦<CString as DekuReader<ByteSize>>⟧.meaning n) }
    ensures exact { (n : ExactCount) → OwnFaults WantsMemory
        (⟦<Vec<u8> as DekuReader<ReadExact>>⟧.meaning n) }
{}

/// The same for what is written: two items one after the other, and vectors, slices and arrays.
pub fn written_cause_law<Ctx: Copy, A: DekuWriter<Ctx>, B: DekuWriter<Ctx>>()
    ensures both { (a : A) (b : B) (c : Ctx) → OwnFaults WantsPlace (A.meaning a c)
        → OwnFaults WantsPlace (B.meaning b c)
        → OwnFaults WantsPlace (Both (A.meaning a c) (B.meaning b c)) }
    ensures each { (vs : List A) (c : Ctx) → ((v : A) → OwnFaults WantsPlace (A.meaning v c))
        → OwnFaults WantsPlace (WritesEach (λ v. A.meaning v c) vs) }
{}

/// The calls on whole values return an `Io` error only of the value's own kinds, since slices and
/// memory do not fail. `from_reader` also returns one if the source that it borrows fails, which
/// the source's count of failures shows.
pub fn whole_cause_law<T: DekuReader<()> + DekuWriter<()>, R: Source>()
    ensures from_reader { (n : ℕ) (old new : R) (k : ErrorKind)
        → OwnFaults WantsMemory (T.DekuReader.meaning tt)
        → ReadsOnce R.known (Behind n (T.DekuReader.meaning tt)) old (Err (Io k)) new
        → DeviceFailed (R.known old).health (R.known new).health ⊎ WantsMemory k }
    ensures from_bytes { (n : ℕ) (bytes : List ℕ) (k : ErrorKind)
        → OwnFaults WantsMemory (T.DekuReader.meaning tt)
        → ReadsBytesOnce (Behind n (T.DekuReader.meaning tt)) bytes (Err (Io k)) → WantsMemory k }
    ensures to_bytes { (v : T) (k : ErrorKind) → OwnFaults WantsPlace (T.DekuWriter.meaning v tt)
        → WritesOnce (Both (T.DekuWriter.meaning v tt) Finalizes) (Err (Io k)) → WantsPlace k }
    ensures to_slice { (v : T) (old new : List ℕ) (k : ErrorKind)
        → OwnFaults WantsPlace (T.DekuWriter.meaning v tt)
        → WritesOver (Both (T.DekuWriter.meaning v tt) Finalizes) old (Err (Io k)) new
        → WantsPlace k }
    ensures to_bits { (v : T) (k : ErrorKind) → OwnFaults WantsPlace (T.DekuWriter.meaning v tt)
        → WritesBare (T.DekuWriter.meaning v tt) (Err (Io k)) → WantsPlace k }
{}

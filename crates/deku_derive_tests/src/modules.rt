//! Modules that are printed.

use deku_derive::making::{Made, make, make_answers, module_path, proofs_of};
use std::test::Fail;

const DATAGRAM: &str = "//! The header of a UDP datagram, RFC 768.
#[deku(endian = \"big\")]
struct Udp {
    source: u16,
    destination: u16,
    #[deku(bits = 4)]
    kind: u8,
    #[deku(bits = 4)]
    flags: u8,
    tail: [u8; 2],
}
";

const DATAGRAM_MODULE: &str = "//! The header of a UDP datagram, RFC 768.
//!
//! Printed by `derive` from `a.rs`.

ghost use Rattle.std.specs.Prelude.{refl};
ghost use Rattle.deku.specs.Composing.{Then};
ghost use Rattle.deku.specs.Shapes.{Shows};
ghost use Rattle.deku_symmetry.specs.Fields.{be, msb};

use deku::device::{Sink, Source};
use deku::prelude::{DekuError, DekuReader, DekuWriter, Reader, Writer};
use deku_symmetry::{Be, FromParts, Msb, Record, ToParts, read_record, write_record};

/// The record `Udp`.
#[derive(Debug, Clone, Copy, PartialEq, Eq)]
pub struct Udp {
    pub source: u16,
    pub destination: u16,
    pub kind: u8,
    pub flags: u8,
    pub tail: [u8; 2],
}

impl Udp {
    /// The names of its parts, in their order.
    pub const FIELDS: [&'static str; 5] = [\"source\", \"destination\", \"kind\", \"flags\", \"tail\"];
}

// The parts of Udp, in their order.
type UdpParts = ((Be<u16>, Be<u16>, Msb<u8, 4>, Msb<u8, 4>), [u8; 2]);

impl FromParts for Udp {
    type Parts = UdpParts;

    ghost parts_of = { λ r. ((be r.source, be r.destination, msb r.kind, msb r.flags), r.tail) };

    ghost record_of = { λ p. record {
      source = p.0.0.0;
      destination = p.0.1.0;
      kind = p.0.2.0;
      flags = p.0.3.0;
      tail = p.1;
    } };

    fn from_parts(parts: Self::Parts) -> Self {
        let ((Be(source), Be(destination), Msb(kind), Msb(flags)), tail) = parts;
        Udp {
            source,
            destination,
            kind,
            flags,
            tail,
        }
    }

    ghost there = { λ r. refl };
}

impl ToParts for Udp {
    fn parts(&self) -> Self::Parts {
        (
            (
                Be(self.source),
                Be(self.destination),
                Msb(self.kind),
                Msb(self.flags),
            ),
            self.tail,
        )
    }
}

impl DekuReader<()> for Udp {
    ghost no_read_ahead = { ⟦<UdpParts as DekuReader<()>>⟧.no_read_ahead };

    ghost meaning = { λ c. Then (⟦<UdpParts as DekuReader<()>>⟧.meaning c)
        (Shows ⟦<Udp as FromParts>⟧.parts_of) };

    #[inline(always)]
    fn from_reader_with_ctx<R: Source>(reader: &mut Reader<R>, ctx: ()) -> Result<Self, DekuError> {
        read_record(reader, ctx)
    }
}

impl DekuWriter<()> for Udp {
    ghost meaning = { λ v. ⟦<UdpParts as DekuWriter<()>>⟧.meaning
        (⟦<Udp as FromParts>⟧.parts_of v) };

    #[inline(always)]
    fn to_writer<W: Sink>(&self, writer: &mut Writer<W>, ctx: ()) -> Result<(), DekuError> {
        write_record(self, writer, ctx)
    }
}

impl Record<()> for Udp {
    type Layout = UdpParts;

    ghost reads = { λ c b s r u m. m };

    ghost writes = { λ c v b s r u m. m };
}
";

const HOST: &str = "#[deku(bit_order = \"lsb\")]
struct Pair { #[deku(bits = 4)] low: u8, #[deku(bits = 12)] data: u16 }
/// A host.
#[deku(endian = \"little\")]
struct Host {
    pair: Pair,
    #[deku(endian = \"big\")]
    address: Ipv4Addr,
    /// Whether it answers.
    up: bool,
    #[deku(bytes = 3)]
    cost: u32,
    port: u16,
}
";

const HOST_MODULE: &str = "//! Printed by `derive` from `a.rs`.

ghost use Rattle.std.specs.Prelude.{refl};
ghost use Rattle.deku.specs.Composing.{Then};
ghost use Rattle.deku.specs.Shapes.{Shows};
ghost use Rattle.deku_symmetry.specs.Fields.{be, le, lsb, msb_le};

use deku::device::{Sink, Source};
use deku::prelude::{DekuError, DekuReader, DekuWriter, Reader, Writer};
use deku_symmetry::{Be, FromParts, Le, Lsb, MsbLe, Record, ToParts, read_record, write_record};
use std::net::Ipv4Addr;

/// The record `Pair`.
#[derive(Debug, Clone, Copy, PartialEq, Eq)]
pub struct Pair {
    pub low: u8,
    pub data: u16,
}

impl Pair {
    /// The names of its parts, in their order.
    pub const FIELDS: [&'static str; 2] = [\"low\", \"data\"];
}

// The parts of Pair, in their order.
type PairParts = (Lsb<u8, 4>, Lsb<u16, 12>);

impl FromParts for Pair {
    type Parts = PairParts;

    ghost parts_of = { λ r. (lsb r.low, lsb r.data) };

    ghost record_of = { λ p. record { low = p.0.0; «data» = p.1.0 } };

    fn from_parts((Lsb(low), Lsb(data)): Self::Parts) -> Self {
        Pair { low, data }
    }

    ghost there = { λ r. refl };
}

impl ToParts for Pair {
    fn parts(&self) -> Self::Parts {
        (Lsb(self.low), Lsb(self.data))
    }
}

impl DekuReader<()> for Pair {
    ghost no_read_ahead = { ⟦<PairParts as DekuReader<()>>⟧.no_read_ahead };

    ghost meaning = { λ c. Then (⟦<PairParts as DekuReader<()>>⟧.meaning c)
        (Shows ⟦<Pair as FromParts>⟧.parts_of) };

    #[inline(always)]
    fn from_reader_with_ctx<R: Source>(reader: &mut Reader<R>, ctx: ()) -> Result<Self, DekuError> {
        read_record(reader, ctx)
    }
}

impl DekuWriter<()> for Pair {
    ghost meaning = { λ v. ⟦<PairParts as DekuWriter<()>>⟧.meaning
        (⟦<Pair as FromParts>⟧.parts_of v) };

    #[inline(always)]
    fn to_writer<W: Sink>(&self, writer: &mut Writer<W>, ctx: ()) -> Result<(), DekuError> {
        write_record(self, writer, ctx)
    }
}

impl Record<()> for Pair {
    type Layout = PairParts;

    ghost reads = { λ c b s r u m. m };

    ghost writes = { λ c v b s r u m. m };
}

/// A host.
#[derive(Debug, Clone, Copy, PartialEq, Eq)]
pub struct Host {
    pub pair: Pair,
    pub address: Ipv4Addr,
    /// Whether it answers.
    pub up: bool,
    pub cost: u32,
    pub port: u16,
}

impl Host {
    /// The names of its parts, in their order.
    pub const FIELDS: [&'static str; 5] = [\"pair\", \"address\", \"up\", \"cost\", \"port\"];
}

// The parts of Host, in their order.
type HostParts = (Pair, Be<Ipv4Addr>, bool, (MsbLe<u32, 24>, Le<u16>));

impl FromParts for Host {
    type Parts = HostParts;

    ghost parts_of = { λ r. (r.pair, be r.address, r.up, (msb_le r.cost, le r.port)) };

    ghost record_of = { λ p. record {
      pair = p.0;
      address = p.1.0;
      up = p.2;
      cost = p.3.0.0;
      port = p.3.1.0;
    } };

    fn from_parts((pair, Be(address), up, (MsbLe(cost), Le(port))): Self::Parts) -> Self {
        Host {
            pair,
            address,
            up,
            cost,
            port,
        }
    }

    ghost there = { λ r. refl };
}

impl ToParts for Host {
    fn parts(&self) -> Self::Parts {
        (
            self.pair,
            Be(self.address),
            self.up,
            (MsbLe(self.cost), Le(self.port)),
        )
    }
}

impl DekuReader<()> for Host {
    ghost no_read_ahead = { ⟦<HostParts as DekuReader<()>>⟧.no_read_ahead };

    ghost meaning = { λ c. Then (⟦<HostParts as DekuReader<()>>⟧.meaning c)
        (Shows ⟦<Host as FromParts>⟧.parts_of) };

    #[inline(always)]
    fn from_reader_with_ctx<R: Source>(reader: &mut Reader<R>, ctx: ()) -> Result<Self, DekuError> {
        read_record(reader, ctx)
    }
}

impl DekuWriter<()> for Host {
    ghost meaning = { λ v. ⟦<HostParts as DekuWriter<()>>⟧.meaning
        (⟦<Host as FromParts>⟧.parts_of v) };

    #[inline(always)]
    fn to_writer<W: Sink>(&self, writer: &mut Writer<W>, ctx: ()) -> Result<(), DekuError> {
        write_record(self, writer, ctx)
    }
}

impl Record<()> for Host {
    type Layout = HostParts;

    ghost reads = { λ c b s r u m. m };

    ghost writes = { λ c v b s r u m. m };
}
";

#[test]
fn plain_records_are_printed(rt: HostRuntime) -> Result<(), Fail> {
    for (text, module) in &[(DATAGRAM, DATAGRAM_MODULE), (HOST, HOST_MODULE)] {
        match make(rt.alloc(), "a.rs", None, text)? {
            Made::Module(printed) => assert_eq!(rt; printed.as_str(), *module),
            Made::Wrong(told) => assert_eq!(rt; told.as_str(), "", "of {module}"),
        }
    }
    Ok(())
}

// Descriptions of lists that end with an item, of tuples of one, of numbers in a row under two bit
// orders, and of arrays in long records and in kinds of several ids, and texts that their modules
// have.
const TEXTS: [(&str, &str); 19] = [
    (
        "struct A { n: u8, #[deku(until = \"|byte: &u8| *byte == 0\")] name: Vec<u8>, m: u8 }",
        "
/// Which item of `name` is the last: `byte == 0`.
#[derive(Debug, PartialEq, Eq, Drop)]
pub struct ANameLast;

impl Last<u8> for ANameLast {
    ghost last_of = { λ p. nat_eq p 0 };

    fn is_last(item: &u8) -> bool {
        let byte = *item;
        byte == 0
    }
}

impl LastLaw<u8> for ANameLast {
    ghost alike = { λ v w e. rw e refl };
}
",
    ),
    (
        "struct A { n: u8, #[deku(until = \"|byte: &u8| *byte == 0\")] name: Vec<u8>, m: u8 }",
        "
type AParts = (u8, Until<u8, ANameLast>, u8);

impl FromParts for A {
    type Parts = AParts;

    ghost parts_of = { λ r. (r.n, record { items = r.name; last = record {} }, r.m) };

    ghost record_of = { λ p. record { n = p.0; name = p.1.items; m = p.2 } };

    fn from_parts((n, Until { items: name, .. }, m): Self::Parts) -> Self {
        A { n, name, m }
    }
",
    ),
    (
        "struct A { n: u8, #[deku(until = \"|byte: &u8| *byte == 0\")] name: Vec<u8>, m: u8 }",
        "
            UntilRef::<_, ANameLast> {
                items: &self.name,
                last: PhantomData,
            },
",
    ),
    (
        "const END: u16 = 0x100;
         struct A { #[deku(bits = 9, until = \"|v: &u16| 3 > *v || *v == END\")] items: Vec<u16> }",
        "
impl Last<MsbLe<u16, 9>> for AItemsLast {
    ghost last_of = { λ p. nat_lt p.0 3 || nat_eq p.0 256 };

    fn is_last(item: &MsbLe<u16, 9>) -> bool {
        let v = item.0 as usize;
        3 > v || v == 256
    }
}
",
    ),
    (
        "struct A { #[deku(bits = 1, until = \"|flag: &bool| *flag\")] flags: Vec<bool> }",
        "
    fn is_last(item: &MsbLe<bool, 1>) -> bool {
        item.0
    }
",
    ),
    (
        "#[deku(magic = b\"e\")]
         struct A { a: u8, #[deku(bits = 4)] b: u8, #[deku(bits = 4)] c: u8 }
         struct B { #[deku(until = \"|v: &A| v.c == 3 && v.a != 0\")] items: Vec<A> }",
        "
impl Last<A> for BItemsLast {
    ghost last_of = { λ p. nat_eq p.c 3 && not (nat_eq p.a 0) };

    fn is_last(item: &A) -> bool {
        let c = item.c;
        let a = item.a;
        c == 3 && a != 0
    }
}

impl LastLaw<A> for BItemsLast {
    ghost alike = { λ v w e. rw (e.1.1.1, e.1.0) refl };
}
",
    ),
    (
        "struct A { n: u8, #[deku(until = \"|v: &u8| *v == 0\")] v: Vec<u8>,
         #[deku(count = \"n\")] w: Vec<u8> }",
        "
type AWHead = (u8, Until<u8, AVLast>);

type AWLent<'a> = (u8, UntilRef<'a, u8, AVLast>);
",
    ),
    (
        "#[deku(endian = \"big\")]
         struct A { one: (u16,), same: (u16), few: ((u8), (u8,)) }",
        "
pub struct A {
    pub one: (u16,),
    pub same: u16,
    pub few: (u8, (u8,)),
}
",
    ),
    (
        "struct A { a: u16, #[deku(endian = \"big\")] b: i16, #[deku(bit_order = \"lsb\", bits = 4)]
         c: u8, #[deku(bit_order = \"lsb\", bits = 12)] d: u16, e: u64, f: u8 }",
        "
type AParts = ((Le<u16>, Be<i16>), (Lsb<u8, 4>, Lsb<u16, 12>), Le<u64>, u8);
",
    ),
    (
        "#[deku(endian = \"big\")] struct A { one: (u16,), same: (u16) }",
        "
type AParts = (Be<(u16,)>, Be<u16>);
",
    ),
    (
        "#[deku(endian = \"little\")]
         struct A { a: u128, b: u128, c: u128, d: u128, e: u128, f: u128, g: u128, h: u128,
         i: u128, j: u128, k: u128, l: u128, m: u128, n: u128, o: u128, p: u128, q: u128, r: u128,
         s: u128, t: u128, u: u128, v: u128, w: u128, x: u128, y: u128, z: u128, tail: [u8; 3],
         last: u128, end: u128, over: u128 }",
        "
    fn from_parts(parts: Self::Parts) -> Self {
        let tail = parts.3.2;
        A {
            a: parts.0.0.0,
",
    ),
    (
        "#[deku(id_type = \"u8\", endian = \"big\")]
         enum A { #[deku(id_pat = \"2..=9\")] B { id: u8, a: u16, b: [u16; 2] },
         #[deku(id_pat = \"_\")] C(u8) }",
        "
            Either::This(
                InRange {
                    id,
                    value: (Be(a), Be(b)),
                },
            ) => A::B { id, a, b },
",
    ),
    (
        "struct A { f: bool, n: u8, #[deku(count = \"n\")] v: Vec<u8>,
#[deku(cond = \"f\")] o: Option<u8>, z: u8 }",
        "
        part.to_writer(writer, ctx)?;
        self.z.to_writer(writer, ctx)
    }
",
    ),
    (
        "#[deku(ctx = \"k: u8\", id = \"k\")] enum E { #[deku(id = 1)] A(u8), #[deku(id = 2)] B }
struct S { k: u8, #[deku(count = \"k\")] v: Vec<u8>, #[deku(ctx = \"*k\")] e: E, z: u8 }",
        "
            value: &self.e,
            id: PhantomData,
        };
        part.to_writer(writer, ctx)?;
        self.z.to_writer(writer, ctx)
    }
",
    ),
    (
        "struct A { n: u8, #[deku(until = \"|v: &u8| *v == 0\")] v: Vec<u8>,
#[deku(count = \"n\")] w: Vec<u8>, #[deku(read_all)] z: Vec<u8> }",
        "
        part.to_writer(writer, ctx)?;
        self.z.to_writer(writer, ctx)
    }
",
    ),
    (
        "struct A { n: u8, #[deku(count = \"n\")] v: Vec<u8>,
#[deku(count = \"n\")] w: Vec<u8>, #[deku(read_all)] z: Vec<u8> }",
        "
        part.to_writer(writer, ctx)?;
        self.z.to_writer(writer, ctx)
    }
",
    ),
    (
        "struct A { #[deku(until = \"|v: &u8| *v == 0\")] v: Vec<u8>,
#[deku(until = \"|v: &u8| *v == 0\")] w: Vec<u8>, #[deku(read_all)] r: Vec<u8> }",
        "
        let part = UntilRef::<_, AWLast> {
            items: &self.w,
            last: PhantomData,
        };
        part.to_writer(writer, ctx)?;
        self.r.to_writer(writer, ctx)
    }
",
    ),
    (
        "#[deku(ctx = \"_: deku::ctx::Endian, _order: Order\", endian = \"big\")] struct A { a: u16 }",
        "
type AParts = Be<u16>;
",
    ),
    (
        "struct A { n: u8, #[deku(count = \"n\")] v: Vec<u8>, #[deku(assert = \"t == n\")] t: u8 }",
        "
    fn text() -> &'static str
        ensures { result.now ≡ codes \"t\" }
    {
        \"t\"
    }
",
    ),
];

#[test]
fn texts_are_printed(rt: HostRuntime) -> Result<(), Fail> {
    for (text, part) in &TEXTS {
        match make(rt.alloc(), "a.rs", Some("samples.a"), text)? {
            Made::Module(printed) => assert!(rt; printed.as_str().contains(*part), "of {text}"),
            Made::Wrong(told) => assert_eq!(rt; told.as_str(), "", "of {text}"),
        }
    }
    Ok(())
}

const PATHS: [(Option<&str>, &str, Option<&str>); 5] = [
    (Some("samples::point"), "a.rt", Some("samples.point")),
    (None, "crates/samples/src/point.rt", Some("samples.point")),
    (
        None,
        "/work/samples/src/shapes/point.rt",
        Some("samples.shapes.point"),
    ),
    (None, "crates/samples/src/lib.rt", Some("samples")),
    (None, "point.rt", None),
];

#[test]
fn modules_have_paths(rt: HostRuntime) -> Result<(), Fail> {
    for (named, file, wanted) in &PATHS {
        let path = module_path(rt.alloc(), *named, file)?;
        assert_eq!(rt; path.as_deref(), *wanted, "of {file}");
    }
    Ok(())
}

// Descriptions, and the proofs that their types need: an enum that holds memory, and structs whose
// parts are written one after the other.
const ANSWERS: [(&str, &str); 4] = [
    (DATAGRAM, ""),
    (
        "#[deku(id_type = \"u8\")] enum E {
#[deku(id = 1)] A { n: u8, #[deku(count = \"n\")] v: Vec<u8> }, #[deku(id = 2)] B }
#[deku(id_type = \"u8\")] enum F { #[deku(id = 1)] A(u8) }",
        "use Rattle.std.proofs.Common.{rules}
use Rattle.samples.proofs.a.EDekuWriterUnit.to_writer.Goals as goal

pub returns-in-A : goal.returns-in-A
returns-in-A g c = search (rules, c.in-A.is)

pub returns-in-B : goal.returns-in-B
returns-in-B g c = search (rules, c.in-B.is)
",
    ),
    (
        "struct S { f: bool, n: u8, #[deku(count = \"n\")] v: Vec<u8>,
#[deku(cond = \"f\")] o: Option<u8>, m: u8, #[deku(count = \"m\")] w: Vec<u8> }",
        "use Rattle.deku.proofs.Joining.{passed_on, first_refused, then_on}
use Rattle.samples.proofs.a.SDekuWriterUnit.to_writer.Goals as goal

pub returns-in_err-to_writer : goal.returns-in_err-to_writer
returns-in_err-to_writer g c = passed_on _ c.from_residual.ensures.1 (first_refused c.in_err-to_writer.ensures)

pub returns : goal.returns
returns g c = then_on c.in_ok-to_writer.ensures c.to_writer-2.ensures
",
    ),
    (
        "struct S { n: u8, #[deku(count = \"n\")] v: Vec<u8>,
m: u8, #[deku(count = \"m\")] w: Vec<u8>, #[deku(read_all)] z: Vec<u8> }",
        "use Rattle.deku.proofs.Joining.{passed_on, first_refused, then_on}
use Rattle.samples.proofs.a.SDekuWriterUnit.to_writer.Goals as goal

pub returns-in_err-to_writer : goal.returns-in_err-to_writer
returns-in_err-to_writer g c = passed_on _ c.from_residual.ensures.1 (first_refused (first_refused c.in_err-to_writer.ensures))

pub returns-in_err-to_writer-2 : goal.returns-in_err-to_writer-2
returns-in_err-to_writer-2 g c = passed_on _ c.from_residual-in_err-to_writer-2.ensures.1 (first_refused (then_on c.in_ok-to_writer.ensures c.in_err-to_writer-2.ensures))

pub returns : goal.returns
returns g c = then_on (then_on c.in_ok-to_writer.ensures c.in_ok-to_writer-2.ensures) c.to_writer-3.ensures
",
    ),
];

#[test]
fn what_needs_a_proof_has_answers(rt: HostRuntime) -> Result<(), Fail> {
    for (text, wanted) in &ANSWERS {
        let answers = make_answers(rt.alloc(), "a.rs", Some("samples.a"), text)?;
        let wanted = Made::Module(String::from_str(rt.alloc(), wanted)?);
        assert_eq!(rt; answers, wanted, "of {text}");
    }
    Ok(())
}

// The files of these proofs.
const FILES: [Option<&str>; 4] = [
    None,
    Some("proofs/a/EDekuWriterUnit/to_writer/Answers.antt"),
    Some("proofs/a/SDekuWriterUnit/to_writer/Answers.antt"),
    Some("proofs/a/SDekuWriterUnit/to_writer/Answers.antt"),
];

#[test]
fn modules_name_the_files_of_their_proofs(rt: HostRuntime) -> Result<(), Fail> {
    for ((text, _), file) in ANSWERS.iter().zip(&FILES) {
        match make(rt.alloc(), "a.rs", Some("samples.a"), text)? {
            Made::Module(printed) => assert_eq!(rt;
                proofs_of(printed.as_str()),
                *file,
                "of {text}"
            ),
            Made::Wrong(told) => assert_eq!(rt; told.as_str(), "", "of {text}"),
        }
    }
    Ok(())
}

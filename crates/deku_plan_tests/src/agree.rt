//! Plans do what lists do, for each kind under many layouts.

ghost use Rattle.std.specs.Prelude.{◌≡◌, length};

use deku::ctx::{Endian, Layout, Order, Size};
use deku::error::DekuError;
use deku_fields::{Field, Item, Kind, Number, parse_field, read_list_into, write_list};
use deku_plan::Plan;
use deku_testing_values::expecting::{NO_MEMORY, expect_bytes, reader_of, same, writer_in};
use std::alloc::Global;
use std::test::Fail;

const KINDS: &str = "u8 u16 u32 u64 u128 usize i8 i16 i32 i64 i128 isize";

// Bits of no pattern, for three fields of 128 bits and one byte more.
const BYTES: [u8; 49] = [
    0x9E, 0x37, 0x79, 0xB9, 0x7F, 0x4A, 0x7C, 0x15, 0xF3, 0x9C, 0xC0, 0x60, 0x5C, 0xED, 0xC8, 0x34,
    0x10, 0x82, 0x27, 0x6B, 0xF3, 0xA2, 0x72, 0x51, 0xF8, 0x6C, 0x6A, 0x11, 0xD0, 0xC1, 0x8E, 0x95,
    0x27, 0x67, 0xF0, 0xB1, 0x53, 0xD2, 0x7B, 0x7F, 0x03, 0x47, 0x04, 0x5B, 0x5B, 0xF1, 0x82, 0x7F,
    0x01,
];

// So many bits in this order.
fn part(order: Order, bits: usize) -> Field {
    Field {
        kind: Kind::U8,
        layout: Layout {
            endian: Endian::Big,
            order,
            size: Size::Bits(bits),
        },
    }
}

// Three bits, a field, and five bits in the same order.
fn around(kind: Kind, endian: Endian, order: Order, size: Size) -> [Field; 3] {
    let layout = Layout {
        endian,
        order,
        size,
    };
    [part(order, 3), Field { kind, layout }, part(order, 5)]
}

// What is read of three fields: their values, or why there are none.
type Values = Result<[Number; 3], DekuError>;

const NONE_YET: [Number; 3] = [Number::Unsigned(7); 3];

// Why no call of a plan is made that has not the three fields.
const NO_PLAN: DekuError = DekuError::Assertion("no plan of three fields");

// The values that a call left, unless it failed.
fn unless_failed(answer: Result<(), DekuError>, values: [Number; 3]) -> Values {
    answer?;
    Ok(values)
}

// The answer of a call. If memory ran out, the test fails.
fn unless_refused(answer: Result<(), DekuError>) -> Result<Result<(), DekuError>, Fail> {
    match answer {
        Err(error) if error == NO_MEMORY => Err(Fail::from(error)),
        _ => Ok(answer),
    }
}

// What a list reads, and how many bits of the bytes.
fn read_listed(alloc: Global, fields: &[Field; 3], bytes: &[u8]) -> (Values, usize) {
    let mut values = NONE_YET;
    let mut reader = reader_of(alloc, bytes);
    let answer = read_list_into(&mut reader, fields, &mut values);
    (unless_failed(answer, values), reader.bits_read())
}

// What a plan reads, and how many bits of the bytes.
fn read_planned(alloc: Global, plan: &Plan, bytes: &[u8]) -> (Values, usize)
    requires { length plan.now ≡ 3 }
{
    let mut values = NONE_YET;
    let mut reader = reader_of(alloc, bytes);
    let answer = plan.read(&mut reader, &mut values);
    (unless_failed(answer, values), reader.bits_read())
}

// What a plan reads of one record.
fn read_sliced(alloc: Global, plan: &Plan, bytes: &[u8]) -> Values
    requires { length plan.now ≡ 3 }
{
    let mut values = NONE_YET;
    let answer = plan.read_all(alloc, bytes, 1, &mut values);
    unless_failed(answer, values)
}

// A plan reads this value of the second field of one record, or fails so.
fn expect_column(
    alloc: Global,
    plan: &Plan,
    fields: &[Field; 3],
    bytes: &[u8],
    wanted: Values,
) -> Result<(), Fail>
    requires { length plan.now ≡ 3 }
{
    let mut column = [NONE_YET[1]];
    let answer = plan.read_column(alloc, bytes, 1, &mut column);
    match (unless_refused(answer)?, wanted) {
        (Ok(()), Ok(values)) => same(fields, &column[0], &values[1]),
        (Err(error), Err(wanted)) => same(fields, &error, &wanted),
        (answer, wanted) => Err(Fail::new(format_args!("{fields:?}: {answer:?}, not {wanted:?}"))),
    }
}

// What a plan and a list read from these bytes, and write again, is the same.
fn expect_agreement(alloc: Global, fields: &[Field; 3], bytes: &[u8]) -> Result<(), Fail> {
    let plan = match Plan::new(alloc, fields) {
        Ok(plan) => plan,
        Err(error) if error == NO_MEMORY => return Err(Fail::from(error)),
        Err(_) => return Ok(()),
    };
    if plan.fields().len() != 3 {
        return Err(Fail::from(NO_PLAN));
    }
    let (wanted, bits) = read_listed(alloc, fields, bytes);
    same(fields, &read_planned(alloc, &plan, bytes), &(wanted, bits))?;
    same(fields, &read_sliced(alloc, &plan, bytes), &wanted)?;
    expect_column(alloc, &plan, fields, bytes, wanted)?;
    match wanted {
        Ok(values) => expect_written(alloc, &plan, fields, &values),
        Err(_) => Ok(()),
    }
}

// What a plan and a list write of these values is the same.
fn expect_written(
    alloc: Global,
    plan: &Plan,
    fields: &[Field; 3],
    values: &[Number; 3],
) -> Result<(), Fail>
    requires { length plan.now ≡ 3 }
{
    let [a, b, c] = *fields;
    let [x, y, z] = *values;
    let items = [
        Item { field: a, value: x },
        Item { field: b, value: y },
        Item { field: c, value: z },
    ];
    let mut writer = writer_in(alloc);
    let wanted = unless_refused(write_list(&mut writer, &items))?;
    let wanted = (wanted, writer.bits_written());
    writer.finalize()?;
    let bytes = writer.into_inner().into_inner();
    expect_planned(alloc, plan, fields, values, wanted, bytes.as_slice())
}

// A plan writes the values with this answer, so many bits, and these bytes, the last one filled.
fn expect_planned(
    alloc: Global,
    plan: &Plan,
    fields: &[Field; 3],
    values: &[Number; 3],
    wanted: (Result<(), DekuError>, usize),
    bytes: &[u8],
) -> Result<(), Fail>
    requires { length plan.now ≡ 3 }
{
    let mut writer = writer_in(alloc);
    let answer = unless_refused(plan.write(&mut writer, values))?;
    same(fields, &(answer, writer.bits_written()), &wanted)?;
    expect_bytes(fields, writer, bytes)
}

// Plans and lists agree on each width, from enough bytes and from too few.
fn expect_widths(alloc: Global, kind: Kind, endian: Endian, order: Order) -> Result<(), Fail> {
    for bits in [0, 1, 7, 8, 12, 16, 31, 33, 57, 58, 63, 64, 65, 127, 128] {
        let fields = around(kind, endian, order, Size::Bits(bits));
        expect_agreement(alloc, &fields, &BYTES)?;
        expect_agreement(alloc, &fields, &BYTES[..bits / 8 + 1])?;
    }
    Ok(())
}

const LAYOUTS: [(Endian, Order); 4] = [
    (Endian::Big, Order::Msb0),
    (Endian::Big, Order::Lsb0),
    (Endian::Little, Order::Msb0),
    (Endian::Little, Order::Lsb0),
];

// Plans and lists agree on each layout of a kind.
fn expect_layouts(alloc: Global, kind: Kind) -> Result<(), Fail> {
    for (endian, order) in LAYOUTS {
        expect_widths(alloc, kind, endian, order)?;
    }
    Ok(())
}

#[test]
fn agrees_with_lists(rt: HostRuntime) -> Result<(), Fail> {
    for name in KINDS.split(' ') {
        let field = parse_field(name);
        assert!(rt; field.is_some(), "of {name}");
        if let Some(field) = field {
            expect_layouts(rt.alloc(), field.kind)?;
        }
    }
    Ok(())
}

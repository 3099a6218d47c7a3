//! Values that are read one after the other from one source, each by a reader of its own.

ghost use Rattle.std.specs.Prelude.{Option, Ok, IfOk, drop};
ghost use Rattle.deku.specs.Bits.{groups};
ghost use Rattle.deku.specs.Streams.{Stream};
ghost use Rattle.deku.specs.Standings.{Standing, count_of};
ghost use Rattle.deku.specs.Wholes.{Behind, FromFirst};

use super::records::{Head, Nine};
use deku::prelude::{DekuContainerRead, DekuError};
use deku_testing_values::expecting::same;
use std::alloc::Global;
use std::io::Cursor;
use std::test::Fail;

// Two values from some bytes: if the first fetches no byte too early, the second begins at the byte
// after those that the bits of the first one fill.
fn in_turn<A: DekuContainerRead, B: DekuContainerRead>(
    alloc: Global,
    bytes: &[u8],
) -> Result<(A, B), DekuError>
    requires first { A.accepts tt }
    requires second { B.accepts tt }
    ensures { IfOk result (λ p. A.no_read_ahead tt → (u : Standing (Option Stream))
        × (v : Standing (Option Stream)) × FromFirst (Behind 0 (A.meaning tt)) bytes.now (Ok p.0) u
        × FromFirst (Behind 0 (B.meaning tt)) (drop (groups (count_of u)) bytes.now) (Ok p.1) v) }
{
    let mut input = Cursor::new(bytes);
    let (_, first) = A::from_reader(alloc, (&mut input, 0))?;
    let (_, second) = B::from_reader(alloc, (&mut input, 0))?;
    Ok((first, second))
}

#[test]
fn begins_at_the_next_byte(rt: HostRuntime) -> Result<(), Fail> {
    let (nine, head) = in_turn::<Nine, Head>(rt.alloc(), &[0xF1, 0x80, 0x69, 0xBE, 0xEF])?;
    let wanted = (
        Nine {
            halves: (15, 1),
            flag: 1,
        },
        Head {
            halves: (6, 9),
            number: 0xBEEF,
        },
    );
    same(&"nine bits and a head", &(nine, head), &wanted)
}

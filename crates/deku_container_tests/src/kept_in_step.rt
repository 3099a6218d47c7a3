//! Records that update themselves, and enums whose variants have ids.

ghost use Rattle.std.specs.Prelude.{◌≡◌, ◌⊎◌, ◌<◌, ◌≤◌, ◌^◌};
ghost use Rattle.std.specs.Prelude.{length as count, Ok, Err, codes};
ghost use Rattle.deku.specs.declared.error.DekuError.{DekuError as Refusal};
ghost use Rattle.deku.specs.declared.error.DekuError.TheVariants.{Parse};
ghost use Rattle.deku.specs.Faults.{Tells};
ghost use Rattle.deku_container_tests.specs.declared.kept_in_step.Shape.TheVariants.{Point, Circle};

use deku::prelude::{DekuEnumExt, DekuError, DekuUpdate};
use deku_testing_values::expecting::same;
use std::test::Fail;

// A list of bytes, and how many they are.
#[derive(Debug, Drop)]
struct Counted {
    length: u8,
    payload: Vec<u8>,
}

/// The length is that of the payload. If a byte cannot count so many, it is refused with
/// `Parse("error parsing int")`; nothing changes.
impl DekuUpdate for Counted {
    ghost updates = { λ v r w. ((count v.payload.items < 2 ^ 8) × (r ≡ Ok tt)
        × (w ≡ record v { length = count v.payload.items }))
        ⊎ ((2 ^ 8 ≤ count v.payload.items) × ((e : Refusal) × (r ≡ Err e)
        × Tells Parse (codes "error parsing int") e) × (w ≡ v)) };

    fn update(&mut self) -> Result<(), DekuError> {
        self.length = u8::try_from(self.payload.len())?;
        Ok(())
    }
}

// A point, or a circle around it.
#[derive(Drop)]
enum Shape {
    Point,
    Circle { radius: u8 },
}

/// A point is 1, a circle 2.
impl DekuEnumExt<u8> for Shape {
    ghost has_id = { λ v r. r ≡ Ok (elim v [ Point ↦ 1 | Circle radius ↦ 2 ]) };

    fn deku_id(&self) -> Result<u8, DekuError> {
        match self {
            Shape::Point => Ok(1),
            Shape::Circle { .. } => Ok(2),
        }
    }
}

// A count of bytes, what an update returns, and the length then: if it is refused, the one of the
// row above.
type Row = (usize, Result<(), DekuError>, u8);

const ROWS: [Row; 3] = [
    (2, Ok(()), 2),
    (255, Ok(()), 255),
    (256, Err(DekuError::Parse("error parsing int")), 255),
];

#[test]
fn updates(rt: HostRuntime) -> Result<(), Fail> {
    let payload = Vec::new(rt.alloc());
    let mut counted = Counted { length: 1, payload };
    for (count, want, length) in ROWS {
        counted.payload.resize(count, 0)?;
        let updated = counted.update();
        let seen = (updated, counted.length, counted.payload.len());
        same(&count, &seen, &(want, length, count))?;
    }
    Ok(())
}

#[test]
fn names_variants(rt: HostRuntime) {
    let circle = Shape::Circle { radius: 3 };
    let ids = (Shape::Point.deku_id(), circle.deku_id());
    assert_eq!(rt; ids, (Ok(1), Ok(2)));
}

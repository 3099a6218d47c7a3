//! How fields are joined into whole bytes.

ghost use Rattle.std.specs.Prelude.{◌≡◌, ◌⊎◌, ◌+◌, ◌*◌, ◌≤◌, length};
ghost use Rattle.std.specs.Prelude.{IfOk, IfErr, IfSome};
ghost use Rattle.std.specs.declared.io.ErrorKind.TheVariants.{OutOfMemory};
ghost use Rattle.deku_bits.specs.declared.error.DekuError.TheVariants.{Io};
ghost use Rattle.deku_plan.specs.Joining.{IsPart, AreParts, held_after as rest_after};
ghost use Rattle.deku_plan.specs.Blocks.{group_sizes};

use crate::step::Step;
use deku::error::DekuError;
use std::alloc::Global;
use std::io::ErrorKind;

/// How the value of a field is joined with those of the fields beside it.
#[derive(Debug, Clone, Copy)]
pub(crate) struct Part {
    /// The power of two that moves the value to its place among 64 bits.
    pub(crate) scale: u64,
    /// How many bytes are stored after the value, or 0.
    pub(crate) bytes: usize,
}

/// The parts of steps of which groups fill whole bytes, at most eight for a group. There are fewer
/// parts than steps if they do not.
pub(crate) fn parts_of(alloc: Global, steps: &[Step]) -> Result<Vec<Part>, DekuError>
    ensures parts { IfOk result (λ parts. length parts.items ≡ length steps.now
        → AreParts 0 steps.now parts.items 0) }
    ensures memory { IfErr result (λ e. e ≡ Io OutOfMemory) }
{
    let mut parts: Vec<Part> = Vec::new(alloc);
    let mut held = 0;
    for (place, step) in steps.iter().enumerate() {
        let Some(part) = part_of(held, *step, &steps[place + 1..]) else {
            return Ok(Vec::new(alloc));
        };
        let Ok(()) = parts.push(part) else {
            return Err(DekuError::Io(ErrorKind::OutOfMemory));
        };
        held = held_after(part.bytes, held + step.width);
    }
    if held > 0 {
        return Ok(Vec::new(alloc));
    }
    Ok(parts)
}

/// How many bytes each group has that ends with one of the parts.
pub(crate) fn sizes_of(alloc: Global, parts: &[Part]) -> Result<Vec<usize>, DekuError>
    ensures sizes { IfOk result (λ sizes. sizes.items ≡ group_sizes parts.now) }
    ensures memory { IfErr result (λ e. e ≡ Io OutOfMemory) }
{
    let mut sizes: Vec<usize> = Vec::new(alloc);
    for part in parts {
        if part.bytes > 0 {
            let Ok(()) = sizes.push(part.bytes) else {
                return Err(DekuError::Io(ErrorKind::OutOfMemory));
            };
        }
    }
    Ok(sizes)
}

// How many of so many bits are held after bytes are stored: all, or none.
fn held_after(bytes: usize, all: usize) -> usize
    ensures { result ≡ rest_after bytes all }
{
    if bytes == 0 { all } else { 0 }
}

// The part of a step after so many bits of its group, if these have room for more. The group ends
// with it if that is at a byte boundary, and if the steps after it reach no other one in time.
fn part_of(held: usize, step: Step, after: &[Step]) -> Option<Part>
    requires { held ≤ 64 }
    ensures { IfSome result (IsPart held step) }
{
    if step.width > 64 - held || held + step.width == 0 {
        return None;
    }
    let all = held + step.width;
    Some(Part {
        scale: 1 << (64 - all),
        bytes: bytes_of(all, after),
    })
}

// How many bytes so many bits of a group fill if it ends here, or 0 if it does not.
fn bytes_of(all: usize, after: &[Step]) -> usize
    requires { all ≤ 64 }
    ensures { (result ≡ 0) ⊎ (8 * result ≡ all) }
{
    if all % 8 == 0 && !goes_on(all, after) {
        all / 8
    } else {
        0
    }
}

// Whether steps after so many bits of a group reach a byte boundary, and the group still has at
// most 64 bits.
fn goes_on(held: usize, steps: &[Step]) -> bool
    requires { held ≤ 64 }
{
    let mut all = held;
    for step in steps {
        if step.width > 64 - all {
            return false;
        }
        all += step.width;
        if all % 8 == 0 {
            return true;
        }
    }
    false
}

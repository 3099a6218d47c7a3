//! Whole words: a code, and the operands that it chooses.

ghost use Rattle.std.specs.Prelude.{◌≡◌, refl};
ghost use Rattle.deku_instructions.specs.Words.{low_word, middle_word, high_word, parts_of_word};
ghost use Rattle.deku_instructions.specs.Words.{word_of_parts, parts_back};
ghost use Rattle.deku_instructions.specs.declared.riscv.instruction.Instruction.TheVariants.{Load};
ghost use Rattle.deku_instructions.specs.declared.riscv.instruction.Instruction.TheVariants.{Fence};
ghost use Rattle.deku_instructions.specs.declared.riscv.instruction.Instruction.TheVariants.{OperateImmediate};
ghost use Rattle.deku_instructions.specs.declared.riscv.instruction.Instruction.TheVariants.{AddUpper};
ghost use Rattle.deku_instructions.specs.declared.riscv.instruction.Instruction.TheVariants.{Store};
ghost use Rattle.deku_instructions.specs.declared.riscv.instruction.Instruction.TheVariants.{Operate};
ghost use Rattle.deku_instructions.specs.declared.riscv.instruction.Instruction.TheVariants.{LoadUpper};
ghost use Rattle.deku_instructions.specs.declared.riscv.instruction.Instruction.TheVariants.{Branch};
ghost use Rattle.deku_instructions.specs.declared.riscv.instruction.Instruction.TheVariants.{JumpRegister};
ghost use Rattle.deku_instructions.specs.declared.riscv.instruction.Instruction.TheVariants.{Jump};
ghost use Rattle.deku_instructions.specs.declared.riscv.instruction.Instruction.TheVariants.{System};
ghost use Rattle.deku.specs.Composing.{Then};
ghost use Rattle.deku.specs.Shapes.{Shows};

use crate::riscv::branch::Branch;
use crate::riscv::immediate::Immediate;
use crate::riscv::jump::Jump;
use crate::riscv::register::Register;
use crate::riscv::store::Store;
use crate::riscv::upper::Upper;
use deku::device::{Sink, Source};
use deku::prelude::{DekuError, DekuReader, DekuWriter, Reader, Writer};
use deku_symmetry::{
    Either, Enum, FromParts, Kind, LsbEnum, Record, ToParts, read_record, write_record,
};

/// An instruction word, by its code: the eleven codes of RV32I. Reading any other code fails with
/// `IdVariantNotFound`, and the reader is then after the seven bits of the code. Writing a number
/// that does not fit its field fails, and what was written before stays written. It is not checked
/// which operations exist under a code.
///
/// ```text
/// Instruction::Store(Store::new(2, 8, 1, -20)).to_bytes(alloc)?   // 23 26 14 FE, sw ra, -20(s0)
/// ```
#[derive(Debug, Clone, Copy, PartialEq, Eq)]
pub enum Instruction {
    /// A load into a register, under 0x03.
    Load(Immediate),
    /// An ordering of loads and stores, under 0x0F.
    Fence(Immediate),
    /// An operation on a register and a number, under 0x13.
    OperateImmediate(Immediate),
    /// High bits that are added to the address of the word, under 0x17.
    AddUpper(Upper),
    /// A store of a register, under 0x23.
    Store(Store),
    /// An operation on two registers, under 0x33.
    Operate(Register),
    /// A load of the high bits of a register, under 0x37.
    LoadUpper(Upper),
    /// A conditional branch, under 0x63.
    Branch(Branch),
    /// A jump to an address in a register, under 0x67.
    JumpRegister(Immediate),
    /// A jump, under 0x6F.
    Jump(Jump),
    /// A call to the system, under 0x73.
    System(Immediate),
}

// The operands of the lowest four codes.
type LowCodes = Either<
    Either<Kind<Immediate, 0x03>, Kind<Immediate, 0x0F>>,
    Either<Kind<Immediate, 0x13>, Kind<Upper, 0x17>>,
>;

// The operands of the codes between these.
type MiddleCodes = Either<Kind<Store, 0x23>, Either<Kind<Register, 0x33>, Kind<Upper, 0x37>>>;

// The operands of the highest four codes.
type HighCodes = Either<
    Either<Kind<Branch, 0x63>, Kind<Immediate, 0x67>>,
    Either<Kind<Jump, 0x6F>, Kind<Immediate, 0x73>>,
>;

// A code of seven bits, and the operands of each.
type Parts = LsbEnum<Either<LowCodes, Either<MiddleCodes, HighCodes>>, 7>;

impl FromParts for Instruction {
    type Parts = Parts;

    ghost parts_of = { parts_of_word };

    ghost record_of = { word_of_parts };

    fn from_parts(parts: Self::Parts) -> Self {
        match parts.kind {
            Either::This(x) => low(x),
            Either::Other(Either::This(x)) => middle(x),
            Either::Other(Either::Other(x)) => high(x),
        }
    }

    ghost there = { elim [
      | Load x ↦ refl
      | Fence x ↦ refl
      | OperateImmediate x ↦ refl
      | AddUpper x ↦ refl
      | Store x ↦ refl
      | Operate x ↦ refl
      | LoadUpper x ↦ refl
      | Branch x ↦ refl
      | JumpRegister x ↦ refl
      | Jump x ↦ refl
      | System x ↦ refl
    ] };
}

// The word of one of the lowest four codes.
fn low(parts: LowCodes) -> Instruction
    ensures { result ≡ low_word parts }
{
    match parts {
        Either::This(Either::This(Kind(x))) => Instruction::Load(x),
        Either::This(Either::Other(Kind(x))) => Instruction::Fence(x),
        Either::Other(Either::This(Kind(x))) => Instruction::OperateImmediate(x),
        Either::Other(Either::Other(Kind(x))) => Instruction::AddUpper(x),
    }
}

// The word of one of the codes between these.
fn middle(parts: MiddleCodes) -> Instruction
    ensures { result ≡ middle_word parts }
{
    match parts {
        Either::This(Kind(x)) => Instruction::Store(x),
        Either::Other(Either::This(Kind(x))) => Instruction::Operate(x),
        Either::Other(Either::Other(Kind(x))) => Instruction::LoadUpper(x),
    }
}

// The word of one of the highest four codes.
fn high(parts: HighCodes) -> Instruction
    ensures { result ≡ high_word parts }
{
    match parts {
        Either::This(Either::This(Kind(x))) => Instruction::Branch(x),
        Either::This(Either::Other(Kind(x))) => Instruction::JumpRegister(x),
        Either::Other(Either::This(Kind(x))) => Instruction::Jump(x),
        Either::Other(Either::Other(Kind(x))) => Instruction::System(x),
    }
}

impl ToParts for Instruction {
    fn parts(&self) -> Self::Parts {
        Enum::new(match *self {
            Instruction::Load(x) => Either::This(Either::This(Either::This(Kind(x)))),
            Instruction::Fence(x) => Either::This(Either::This(Either::Other(Kind(x)))),
            Instruction::OperateImmediate(x) => {
                Either::This(Either::Other(Either::This(Kind(x))))
            }
            Instruction::AddUpper(x) => Either::This(Either::Other(Either::Other(Kind(x)))),
            Instruction::Store(x) => Either::Other(Either::This(Either::This(Kind(x)))),
            Instruction::Operate(x) => {
                Either::Other(Either::This(Either::Other(Either::This(Kind(x)))))
            }
            Instruction::LoadUpper(x) => {
                Either::Other(Either::This(Either::Other(Either::Other(Kind(x)))))
            }
            Instruction::Branch(x) => {
                Either::Other(Either::Other(Either::This(Either::This(Kind(x)))))
            }
            Instruction::JumpRegister(x) => {
                Either::Other(Either::Other(Either::This(Either::Other(Kind(x)))))
            }
            Instruction::Jump(x) => {
                Either::Other(Either::Other(Either::Other(Either::This(Kind(x)))))
            }
            Instruction::System(x) => {
                Either::Other(Either::Other(Either::Other(Either::Other(Kind(x)))))
            }
        })
    }
}

impl Record<()> for Instruction {
    type Layout = Parts;

    ghost reads = { λ c b s r u m. m };

    ghost writes = { λ c v b s r u m. m };
}

impl DekuReader<()> for Instruction {
    ghost no_read_ahead = { ⟦<Parts as DekuReader<()>>⟧.no_read_ahead };

    ghost meaning = { λ _. Then (⟦<Parts as DekuReader<()>>⟧.meaning tt)
        (Shows ⟦<Instruction as FromParts>⟧.parts_of) };

    fn from_reader_with_ctx<R: Source>(
        reader: &mut Reader<R>,
        _ctx: (),
    ) -> Result<Self, DekuError> {
        read_record(reader, ())
    }
}

impl DekuWriter<()> for Instruction {
    ghost meaning = { λ v _. ⟦<Parts as DekuWriter<()>>⟧.meaning
        (⟦<Instruction as FromParts>⟧.parts_of v) tt };

    fn to_writer<W: Sink>(&self, writer: &mut Writer<W>, _ctx: ()) -> Result<(), DekuError> {
        write_record(self, writer, ())
    }
}

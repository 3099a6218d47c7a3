//! Instruction words as GNU as 2.40 for RISC-V (`-march=rv32i`) makes them, and what
//! `objdump -d -M no-aliases,numeric` prints of each.

use deku::prelude::{DekuContainerWrite, DekuError};
use deku_instructions::riscv::branch::Branch;
use deku_instructions::riscv::immediate::Immediate;
use deku_instructions::riscv::instruction::Instruction;
use deku_instructions::riscv::jump::Jump;
use deku_instructions::riscv::register::Register;
use deku_instructions::riscv::store::Store;
use deku_instructions::riscv::upper::Upper;
use deku_testing_values::records::{expect_record, expect_refusal};
use std::test::Fail;

fn register(target: u8, first: u8, second: u8, variant: u8) -> Instruction {
    Instruction::Operate(Register {
        target,
        function: 0,
        first,
        second,
        variant,
    })
}

fn immediate(target: u8, function: u8, base: u8, value: i16) -> Immediate {
    Immediate {
        target,
        function,
        base,
        value,
    }
}

fn upper(target: u8, value: i32) -> Upper {
    Upper { target, value }
}

// Each code, and the lowest and the highest numbers.
#[test]
fn words(rt: HostRuntime) -> Result<(), Fail> {
    let rows: [(u32, Instruction); 19] = [
        (0xFEC42783, Instruction::Load(immediate(15, 2, 8, -20))), // lw x15,-20(x8)
        (0x0FF0000F, Instruction::Fence(immediate(0, 0, 0, 255))), // fence iorw,iorw
        (0x007302B3, register(5, 6, 7, 0)), // add x5,x6,x7
        (0x40C58533, register(10, 11, 12, 32)), // sub x10,x11,x12
        (
            0xFE010113,
            Instruction::OperateImmediate(immediate(2, 0, 2, -32)),
        ), // addi x2,x2,-32
        (0x00002197, Instruction::AddUpper(upper(3, 2))), // auipc x3,0x2
        (0x12345537, Instruction::LoadUpper(upper(10, 0x12345))), // lui x10,0x12345
        (0xFFFFF537, Instruction::LoadUpper(upper(10, -1))), // lui x10,0xfffff
        (0xFE142623, Instruction::Store(Store::new(2, 8, 1, -20))), // sw x1,-20(x8)
        (0x7EA58FA3, Instruction::Store(Store::new(0, 11, 10, 2047))), // sb x10,2047(x11)
        (0xFE029CE3, Instruction::Branch(Branch::new(1, 5, 0, -4))), // bne x5,x0, eight bytes back
        (
            0x7EB57FE3,
            Instruction::Branch(Branch::new(7, 10, 11, 2047)),
        ), // bgeu x10,x11, 4094 on
        (
            0x80B50063,
            Instruction::Branch(Branch::new(0, 10, 11, -2048)),
        ), // beq x10,x11, 4096 back
        (
            0x010300E7,
            Instruction::JumpRegister(immediate(1, 0, 6, 16)),
        ), // jalr x1,16(x6)
        (0x001000EF, Instruction::Jump(Jump::new(1, 0x400))), // jal x1, 0x800 on
        (0xFFFFF06F, Instruction::Jump(Jump::new(0, -1))), // jal x0, two back
        (0x800000EF, Instruction::Jump(Jump::new(1, -0x80000))), // jal x1, 0x100000 back
        (0x00000073, Instruction::System(immediate(0, 0, 0, 0))), // ecall
        (0x00100073, Instruction::System(immediate(0, 0, 0, 1))), // ebreak
    ];
    for (word, instruction) in rows {
        expect_record(rt.alloc(), &instruction, &word.to_le_bytes())?;
    }
    Ok(())
}

// The numbers that are split over several places, joined again.
#[test]
fn numbers(rt: HostRuntime) {
    for value in [-2048i32, -20, -1, 0, 31, 32, 2047] {
        assert!(rt;
            Store::new(2, 8, 1, value).offset() == value as i64,
            "{value}"
        );
        assert!(rt;
            Branch::new(0, 8, 1, value).halves() == value as i64,
            "{value}"
        );
        assert!(rt; Jump::new(1, value).halves() == value as i64, "{value}");
    }
}

// Words of a code that RV32I does not have, such as those of floating point: the reader is after
// the code.
#[test]
fn other_codes(rt: HostRuntime) -> Result<(), Fail> {
    for code in [0x00u8, 0x02, 0x07, 0x27, 0x2F, 0x53, 0x6B, 0x7F] {
        let bytes = [code, 0, 0, 0];
        expect_refusal::<Instruction>(rt.alloc(), &bytes, DekuError::IdVariantNotFound, 7)?;
    }
    Ok(())
}

// Numbers that no word holds.
#[test]
fn refusals(rt: HostRuntime) {
    let alloc = rt.alloc();
    let refused = [
        Instruction::Store(Store::new(0, 11, 10, -2049)),
        Instruction::Branch(Branch::new(0, 10, 11, 2048)),
        Instruction::Jump(Jump::new(0, 0x80000)),
        Instruction::OperateImmediate(immediate(2, 0, 2, 2048)),
        Instruction::LoadUpper(upper(10, -0x80001)),
        register(32, 0, 0, 0),
    ];
    for instruction in refused {
        assert!(rt; instruction.to_bytes(alloc).is_err(), "{instruction:?}");
    }
}

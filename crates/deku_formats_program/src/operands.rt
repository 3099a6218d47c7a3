//! The operands of an instruction word, field by field.

use crate::lines::show_numbers;
use crate::places::Place;
use deku_instructions::riscv::branch::Branch;
use deku_instructions::riscv::immediate::Immediate;
use deku_instructions::riscv::instruction::Instruction;
use deku_instructions::riscv::jump::Jump;
use deku_instructions::riscv::register::Register;
use deku_instructions::riscv::store::Store;
use deku_instructions::riscv::upper::Upper;
use std::alloc::AllocError;

// The fields of I after the code, and their bits.
const IMMEDIATE: [Place; 4] = [("target", 5), ("function", 3), ("base", 5), ("value", 12)];

// The fields of U.
const UPPER: [Place; 2] = [("target", 5), ("value", 20)];

// The fields of S, and then the number that is stored in two of them.
const STORE: [Place; 6] = [
    ("low", 5),
    ("function", 3),
    ("base", 5),
    ("source", 5),
    ("high", 7),
    ("offset", 12),
];

// The fields of R.
const REGISTER: [Place; 5] = [
    ("target", 5),
    ("function", 3),
    ("first", 5),
    ("second", 5),
    ("variant", 7),
];

// The fields of B, and the number that is stored in four of them.
const BRANCH: [Place; 8] = [
    ("top", 1),
    ("low", 4),
    ("function", 3),
    ("first", 5),
    ("second", 5),
    ("middle", 6),
    ("sign", 1),
    ("halves", 12),
];

// The fields of J, and the number that is stored in four of them.
const JUMP: [Place; 6] = [
    ("target", 5),
    ("high", 8),
    ("middle", 1),
    ("low", 10),
    ("sign", 1),
    ("halves", 20),
];

/// The meaning of a word's code, as the specification names it.
pub fn kind_of(word: &Instruction) -> &'static str {
    match word {
        Instruction::Load(_) => "load",
        Instruction::Fence(_) => "fence",
        Instruction::OperateImmediate(_) => "op-imm",
        Instruction::AddUpper(_) => "auipc",
        Instruction::Store(_) => "store",
        Instruction::Operate(_) => "op",
        Instruction::LoadUpper(_) => "lui",
        Instruction::Branch(_) => "branch",
        Instruction::JumpRegister(_) => "jalr",
        Instruction::Jump(_) => "jal",
        Instruction::System(_) => "system",
    }
}

/// Adds a line for each operand, from the low bits on. After the parts of a number that is stored
/// in several places, it adds the number.
pub fn show_operands(word: &Instruction, text: &mut String) -> Result<(), AllocError> {
    match word {
        Instruction::Load(x)
        | Instruction::Fence(x)
        | Instruction::OperateImmediate(x)
        | Instruction::JumpRegister(x)
        | Instruction::System(x) => show_immediate(x, text),
        Instruction::AddUpper(x) | Instruction::LoadUpper(x) => show_upper(x, text),
        Instruction::Store(x) => show_store(x, text),
        Instruction::Operate(x) => show_register(x, text),
        Instruction::Branch(x) => show_branch(x, text),
        Instruction::Jump(x) => show_jump(x, text),
    }
}

// I.
fn show_immediate(x: &Immediate, text: &mut String) -> Result<(), AllocError> {
    show_numbers(
        &IMMEDIATE,
        &[
            x.target as i128,
            x.function as i128,
            x.base as i128,
            x.value as i128,
        ],
        text,
    )
}

// U.
fn show_upper(x: &Upper, text: &mut String) -> Result<(), AllocError> {
    show_numbers(&UPPER, &[x.target as i128, x.value as i128], text)
}

// S: bytes after the address in the base.
fn show_store(x: &Store, text: &mut String) -> Result<(), AllocError> {
    show_numbers(
        &STORE,
        &[
            x.low as i128,
            x.function as i128,
            x.base as i128,
            x.source as i128,
            x.high as i128,
            x.offset() as i128,
        ],
        text,
    )
}

// R.
fn show_register(x: &Register, text: &mut String) -> Result<(), AllocError> {
    show_numbers(
        &REGISTER,
        &[
            x.target as i128,
            x.function as i128,
            x.first as i128,
            x.second as i128,
            x.variant as i128,
        ],
        text,
    )
}

// B: units of two bytes from the address of the word.
fn show_branch(x: &Branch, text: &mut String) -> Result<(), AllocError> {
    show_numbers(
        &BRANCH,
        &[
            x.top as i128,
            x.low as i128,
            x.function as i128,
            x.first as i128,
            x.second as i128,
            x.middle as i128,
            x.sign as i128,
            x.halves() as i128,
        ],
        text,
    )
}

// J: units of two bytes from the address of the word.
fn show_jump(x: &Jump, text: &mut String) -> Result<(), AllocError> {
    show_numbers(
        &JUMP,
        &[
            x.target as i128,
            x.high as i128,
            x.middle as i128,
            x.low as i128,
            x.sign as i128,
            x.halves() as i128,
        ],
        text,
    )
}

//! Instruction words of the RISC-V base set RV32I, as in chapter 2 of the unprivileged
//! specification: 32 bits, the low byte first. The lowest seven bits are a code, which chooses one
//! of six layouts of the operands. A number of an instruction may be stored in several places of
//! the word.
//!
//! ```text
//!  31       25 24   20 19   15 14  12 11        7 6       0
//! +-----------+-------+-------+------+-----------+---------+
//! |  variant  | second| first | func |  target   |  code   | R: Register
//! |        value      | base  | func |  target   |  code   | I: Immediate
//! |   high    | source| base  | func |    low    |  code   | S: Store
//! |s|  middle | second| first | func |  low  | t |  code   | B: Branch
//! |                  value           |  target   |  code   | U: Upper
//! |s|     low     |m|      high      |  target   |  code   | J: Jump
//! +-----------+-------+-------+------+-----------+---------+
//! ```

pub mod branch;
pub mod immediate;
pub mod instruction;
pub mod jump;
pub mod register;
pub mod store;
pub mod upper;

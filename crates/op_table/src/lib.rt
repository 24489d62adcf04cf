//! Room: language. Takes a byte or a number; gives the row of an op code or of a primitive. Knows
//! nothing of how an instruction is carried out. Its tests stand in `language_tests`.
#![tactic(auto)]

pub mod laws;
mod ops;
mod prims;

pub use ops::{Op, Row, Table, byte_of, op_table, row_of, widths_of};
pub use prims::{Kind, PrimRow, prim_row};

//! What follows from the tables alone. Each law is the contract of a function that does nothing.
ghost use Rattle.std.specs.Prelude.{◌≡◌, All, length};
ghost use Rattle.op_table.specs.Ops.{row_for, widths, row_at};
ghost use Rattle.op_table.specs.Prims.{primitives, argument_count};
ghost use Rattle.op_table.specs.declared.ops.Op.{Op};

/// Each op has a row of its own, and the byte of that row leads back to it.
pub fn op_reads_back()
    ensures own { (op : Op) → (row_for op).op ≡ op }
    ensures back { (op : Op) → row_at (row_for op).byte ≡ Some (row_for op) }
{}

/// No two ops have the same byte.
pub fn one_op_a_byte()
    ensures { (op other : Op) → (row_for op).byte ≡ (row_for other).byte → op ≡ other }
{}

/// Each operand of an op has a width.
pub fn widths_fit()
    ensures { (op : Op) → length (widths op) ≡ (row_for op).operands }
{}

/// Each primitive takes as many arguments as a message with its selector has.
pub fn arguments_fit()
    ensures { All (λ primitive. primitive.args ≡ argument_count primitive.selector) primitives }
{}

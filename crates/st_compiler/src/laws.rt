//! What follows from the definitions alone. Each law is the contract of a function that does
//! nothing.
ghost use Rattle.std.specs.Prelude.{◌≡◌, ℕ, List, length, map, All, Some};
ghost use Rattle.st_tree.specs.Trees.{Program};
ghost use Rattle.gem_object.specs.declared.value.Value.{Value};
ghost use Rattle.tree_meaning.specs.gem_world.World.{Setting};
ghost use Rattle.tree_meaning.specs.object_programs.Run.{State};
ghost use Rattle.tree_meaning.specs.op_table.Ops.{row_for};
ghost use Rattle.tree_meaning.specs.Place.{Frame, MadeBlock};
ghost use Rattle.tree_meaning.specs.Bodies.{method_body, chunk_body, block_body};
ghost use Rattle.st_compiler.specs.Instruction.{Instruction, op_of, operands_of};
ghost use Rattle.st_compiler.specs.Code.{Piece};
ghost use Rattle.st_compiler.specs.TreeCode.{method_code, chunk_code};
ghost use Rattle.st_compiler.specs.MadeBlocks.{statements_blocks};
ghost use Rattle.st_compiler.specs.Machine.{Next, act, execute};
ghost use Rattle.st_compiler.specs.Runs.{SameAfter, Runs, IsBlockCode, Agree, EveryRun};
ghost use Rattle.gem_language.specs.Sends.{outside};

/// An instruction has as many operands as its op code's row says.
pub fn operands_fit()
    ensures { (one : Instruction) → operands_of one ≡ (row_for (op_of one)).operands }
{}

/// An instruction takes and puts as many values as its op code's row says, but that the end of a
/// loop drops both counter and limit: it goes on with stacks of this height alone.
pub fn rows_are_kept()
    ensures { (depth : ℕ) (setting : Setting) (table : List Piece) (one : Instruction)
        (next back other another : Next) (place : ℕ) (stack : List Value) (frame : Frame)
        (state : State MadeBlock)
        → SameAfter one (length stack) next other → SameAfter one (length stack) back another
        → act (outside depth) setting table (Some one) next back place stack frame state
        ≡ act (outside depth) setting table (Some one) other another place stack frame state }
{}

/// The code of a method and of a chunk does what its tree means, with however many activations
/// more, in each frame and state.
pub fn code_means_tree()
    ensures method { (depth : ℕ) (setting : Setting) (tree : Program)
        → Runs (outside depth) setting (method_code tree 0).pieces (method_code tree 0).code
        (method_body (outside depth) tree) }
    ensures chunk { (depth : ℕ) (setting : Setting) (tree : Program)
        → Runs (outside depth) setting (chunk_code tree 0).pieces (chunk_code tree 0).code
        (chunk_body (outside depth) tree) }
{}

/// So does the code of each block that is pushed in it, or in one of these blocks.
pub fn blocks_mean_trees()
    ensures method { (depth : ℕ) (setting : Setting) (tree : Program)
        → All (IsBlockCode (outside depth) setting (method_code tree 0).pieces)
        (method_code tree 0).pieces }
    ensures chunk { (depth : ℕ) (setting : Setting) (tree : Program)
        → All (IsBlockCode (outside depth) setting (chunk_code tree 0).pieces)
        (chunk_code tree 0).pieces }
{}

/// However many instructions are allowed, code ends in one way, or they run out.
pub fn one_answer()
    ensures { (depth : ℕ) (setting : Setting) (table : List Piece) (code : List Instruction)
        (first second : List ℕ) (place : ℕ) (stack : List Value) (frame : Frame)
        (state : State MadeBlock)
        → Agree
        (execute (outside depth) setting table code first place stack frame state)
        (execute (outside depth) setting table code second place stack frame state) }
{}

/// So whoever carries out code, with whatever number of instructions, comes to what the tree means
/// or to the end of what was allowed; no instruction ever lacks what it wants.
pub fn every_run_means_tree()
    ensures method { (depth : ℕ) (setting : Setting) (tree : Program)
        → EveryRun (outside depth) setting (method_code tree 0).pieces (method_code tree 0).code
        (method_body (outside depth) tree) }
    ensures chunk { (depth : ℕ) (setting : Setting) (tree : Program)
        → EveryRun (outside depth) setting (chunk_code tree 0).pieces (chunk_code tree 0).code
        (chunk_body (outside depth) tree) }
    ensures blocks { (depth : ℕ) (setting : Setting) (tree : Program)
        → All (λ piece. EveryRun (outside depth) setting (method_code tree 0).pieces piece.code
        (block_body (outside depth) piece.tree piece.place)) (method_code tree 0).pieces }
    ensures chunk_blocks { (depth : ℕ) (setting : Setting) (tree : Program)
        → All (λ piece. EveryRun (outside depth) setting (chunk_code tree 0).pieces piece.code
        (block_body (outside depth) piece.tree piece.place)) (chunk_code tree 0).pieces }
{}

/// Blocks are numbered in the order of the text, each before those in it. Those that a special form
/// goes into aren't made, and have no number.
pub fn blocks_are_in_order()
    ensures method { (tree : Program)
        → map (λ piece. piece.tree) (method_code tree 0).pieces ≡ statements_blocks tree.body }
    ensures chunk { (tree : Program)
        → map (λ piece. piece.tree) (chunk_code tree 0).pieces ≡ statements_blocks tree.body }
{}

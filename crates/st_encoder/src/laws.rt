//! What follows for the bytes of compiled code. Each law is the contract of a function that does
//! nothing.
ghost use Rattle.std.specs.Prelude.{◌≡◌, true, None, Some};
ghost use Rattle.gem_object.specs.texts.Bytes.{Bytes as Text};
ghost use Rattle.st_tree.specs.Trees.{Program};
ghost use Rattle.st_code.specs.Faults.{fault_of};
ghost use Rattle.st_compiler.specs.TreeCode.{method_code, chunk_code};
ghost use Rattle.st_encoder.specs.Bytes.{text_bytes, text_literals, text_blocks, text_fits};
ghost use Rattle.st_encoder.specs.Decoded.{decoded, text_and_blocks};

/// The code that the definition gives for a tree keeps the rules of checked code, where there are
/// bytes for it.
pub fn compiled_code_passes()
    ensures { (tree : Program) → text_fits tree ≡ true
        → fault_of (text_bytes tree) (text_literals tree) (text_blocks tree) ≡ None }
{}

/// And its bytes, with its literals and blocks, say that code: that of the method or the chunk, and
/// that of each block that is pushed in it, instruction by instruction.
pub fn code_reads_back()
    ensures method { (tree : Program) (selector : Text) → tree.selector ≡ Some selector
        → text_fits tree ≡ true
        → decoded (text_bytes tree) (text_literals tree) (text_blocks tree)
        ≡ Some (text_and_blocks tree (method_code tree 0)) }
    ensures chunk { (tree : Program) → tree.selector ≡ None → text_fits tree ≡ true
        → decoded (text_bytes tree) (text_literals tree) (text_blocks tree)
        ≡ Some (text_and_blocks tree (chunk_code tree 0)) }
{}

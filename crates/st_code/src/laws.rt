//! What follows from the rules of checked code. Each law is the contract of a function that does
//! nothing.
ghost use Rattle.std.specs.Prelude.{◌≡◌, ℕ, true, List, None, Some, Ok, length, slice_get};
ghost use Rattle.st_tree.specs.declared.nodes.Literal.{Literal};
ghost use Rattle.st_code.specs.Held.{Held};
ghost use Rattle.st_code.specs.Lines.{Lines, lines_of, are_blocks};
ghost use Rattle.st_code.specs.Comes.{Comes};
ghost use Rattle.st_code.specs.Content.{Content};
ghost use Rattle.st_code.specs.Faults.{scopes_fit, stack_fits, fault_of};
ghost use Rattle.st_code.specs.Breaks.{Breaks};
ghost use Rattle.st_code.specs.declared.blocks.BlockCode.{BlockCode};
ghost use Rattle.st_code.specs.declared.fault.CodeFault.{CodeFault};
ghost use Rattle.st_code.specs.declared.line.Line.{Line};

/// In checked code all ways to a place bring the same there.
pub fn ways_agree()
    ensures { (bytes : List ℕ) (literals : List Literal) (blocks : List BlockCode)
        (lines : Lines) (at : ℕ) (held other : Held)
        → fault_of bytes literals blocks ≡ None → lines_of bytes 0 blocks ≡ Ok lines
        → Comes lines blocks at held → Comes lines blocks at other → held ≡ other }
{}

/// And whatever way leads to an instruction, it finds what it takes, its variable is one of an open
/// scope, and the way goes on within its block.
pub fn ways_fit()
    ensures { (bytes : List ℕ) (literals : List Literal) (blocks : List BlockCode)
        (lines : Lines) (at : ℕ) (held : Held) (line : Line)
        → fault_of bytes literals blocks ≡ None → lines_of bytes 0 blocks ≡ Ok lines
        → Comes lines blocks at held → slice_get lines at ≡ Some (Some line)
        → (scopes_fit line.row.op line.first line.second held ≡ true)
        × (stack_fits lines line held.height ≡ true) }
{}

/// The other way round: code passes the check if it can be said of each place what every way brings
/// there, so that each instruction is content with it.
pub fn marked_code_passes()
    ensures { (bytes : List ℕ) (literals : List Literal) (blocks : List BlockCode)
        (lines : Lines) (marks : List Held)
        → are_blocks (length bytes) blocks ≡ true → lines_of bytes 0 blocks ≡ Ok lines
        → Content literals blocks lines marks → fault_of bytes literals blocks ≡ None }
{}

/// Code whose blocks are right is refused only where it breaks a rule. Variables, scopes and heights
/// are judged by ways that come there, and by nothing else.
pub fn faults_are_breaks()
    ensures { (bytes : List ℕ) (literals : List Literal) (blocks : List BlockCode)
        (fault : CodeFault) → are_blocks (length bytes) blocks ≡ true
        → fault_of bytes literals blocks ≡ Some fault
        → Breaks literals blocks (lines_of bytes 0 blocks) fault }
{}

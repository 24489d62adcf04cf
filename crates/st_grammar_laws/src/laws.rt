//! What holds of the trees and the faults of texts, whatever parser finds them.
ghost use Rattle.std.specs.Prelude.{◌≡◌, ℕ, ◌+◌, ◌*◌, ◌≤◌, ◌⊎◌, length, Ok, Err};
ghost use Rattle.texts.specs.Bytes.{Bytes};
ghost use Rattle.st_tree.specs.Trees.{Program};
ghost use Rattle.st_grammar.specs.Grammar.{Form};
ghost use Rattle.st_grammar.specs.Fails.{Reads, Fails, AnyRule};
ghost use Rattle.st_tree.specs.Falls.{size_program};
ghost use Rattle.st_grammar_laws.specs.TreeOf.{TextFault, tree_of};

/// A text has a tree, or a place where it fails and a rule that it breaks there: never both, always
/// one of the two, and one answer of each.
pub fn one_answer()
    ensures trees { (form : Form) (text : Bytes) (a b : Program) → Reads form text a
        → Reads form text b → a ≡ b }
    ensures places { (form : Form) (text : Bytes) (place other : ℕ) (r q : AnyRule)
        → Fails form text place r → Fails form text other q → (place ≡ other) × (r ≡ q) }
    ensures never_both { (form : Form) (text : Bytes) (program : Program) (place : ℕ) (r : AnyRule)
        → Reads form text program → Fails form text place r → ⊥ }
    ensures always { (form : Form) (text : Bytes)
        → ((program : Program) × Reads form text program)
        ⊎ ((place : ℕ) × (rule : AnyRule) × Fails form text place rule) }
{}

/// The function that gives the tree of a text, or where and by which rule it fails, gives just
/// these.
pub fn as_function()
    ensures tree { (form : Form) (text : Bytes) (program : Program) → Reads form text program
        → tree_of form text ≡ Ok program }
    ensures fault { (form : Form) (text : Bytes) (place : ℕ) (r : AnyRule) → Fails form text place r
        → tree_of form text ≡ Err (record { place = place; rule = r }) }
    ensures reads { (form : Form) (text : Bytes) (program : Program)
        → tree_of form text ≡ Ok program → Reads form text program }
    ensures fails { (form : Form) (text : Bytes) (fault : TextFault) → tree_of form text ≡ Err fault
        → Fails form text fault.place fault.rule }
{}

/// The size of a tree, as the recursions over trees go down by it, is at most three times the
/// length of its text in bytes, and three more. It counts statements, expressions, messages and
/// literals, and no names that are declared or assigned to.
pub fn tree_is_bounded()
    ensures { (form : Form) (text : Bytes) (program : Program) → Reads form text program
        → size_program program ≤ 3 * length text + 3 }
{}

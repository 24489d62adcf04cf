//! What ends with an activation.
use tree_meaning::Mark;

/// The variables, the made blocks and the activations of a running chunk, as an evaluator keeps
/// them.
pub trait Activations {
    ghost use Rattle.std.specs.Prelude.{◌≡◌};
    ghost use Rattle.tree_meaning.specs.object_programs.Local.{Local};
    ghost use Rattle.tree_meaning.specs.Place.{MadeBlock};
    ghost use Rattle.tree_meaning.specs.Scopes.{end_living, give_back};

    /// What they are to the meaning.
    ghost local: { Self → Local MadeBlock };

    /// Ends the activation of this number, if there is one. It takes no memory.
    fn end_living(&mut self, number: u64)
        ensures { local self.new ≡ end_living number (local self.old) };

    /// Gives back the scopes and the activations that came since this much stood, unless a block
    /// was made since. It takes no memory.
    fn give_back(&mut self, mark: Mark)
        ensures { local self.new ≡ give_back mark (local self.old) };
}

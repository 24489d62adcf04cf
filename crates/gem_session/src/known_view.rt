//! The view of a session's transaction, with what is remembered of look-ups in it.
ghost use Rattle.std.specs.Prelude.{◌≡◌};
ghost use Rattle.gem_meaning.specs.gem_language.Commands.{run_chunk, install_method};
ghost use Rattle.running_objects.specs.Seen.{with_whole_budget};
ghost use Rattle.st_commands.specs.Replies.{Replied};

use gem_object::{Oid, Text};
use running_objects::{Objects, RunsChunks};
use session_view::View;
use st_commands::{Reply, install_source};
use st_machine::{CodeCache, KnownObjects, SharedCode, run_text};
use std::alloc::{AllocError, Global};
use std::marker::Model;

/// The view of a transaction. What messages to its objects were answered by is remembered with it,
/// until it ends. Contracts see the view.
pub(crate) struct KnownView {
    known: KnownObjects<View, SharedCode>,
}

// By hand, so that it stands once in proofs and not wherever a session may be dropped.
impl Drop for KnownView {
    fn drop(self) {
        let KnownView { known: _ } = self;
    }
}

impl Model for KnownView {
    ghost use Rattle.session_view.specs.declared.view.View.{View as AView};
    ghost use Rattle.session_view.specs.contracts.view.View as row;

    ghost Value = { AView };

    ghost coded = { row.the_row.coded };

    ghost view = { λ one. one.known.0 };
}

impl KnownView {
    /// This view, of which nothing is remembered yet. It takes no memory.
    pub(crate) fn of(alloc: Global, view: View) -> KnownView
        ensures { result ≡ view }
    {
        KnownView {
            known: KnownObjects::new(alloc, view),
        }
    }

    /// Goes on with this view in place of the one before, of which nothing is remembered any more.
    /// It takes no memory.
    pub(crate) fn go_on(&mut self, view: View)
        ensures { self.new ≡ view }
    {
        let _before = self.known.go_on(view);
    }

    /// The view.
    pub(crate) fn view(&self) -> &View
        ensures { result.now ≡ self.now }
    {
        self.known.objects()
    }

    /// The counter of the name that is drawn next.
    pub(crate) fn next_counter(&self) -> u32
        ensures { result ≡ self.now.state.seen.world.next }
    {
        self.known.objects().next_counter()
    }

    /// The name of the user.
    pub(crate) fn user(&self) -> Oid
        ensures { result ≡ self.now.state.seen.setting.user }
    {
        self.known.objects().user()
    }

    /// Begins a chunk.
    pub(crate) fn begin_chunk(&mut self)
        ensures { self.new.state.seen ≡ with_whole_budget self.old.state.seen }
    {
        self.known.begin_chunk();
    }

    /// What the chunk has written on the transcript so far.
    pub(crate) fn transcript(&self) -> &[u8]
        ensures { result.now ≡ self.now.state.seen.budget.text }
    {
        self.known.transcript()
    }

    /// Runs a chunk of this text, whose value may be printed, with the budget at hand.
    ///
    /// # Errors
    ///
    /// `AllocError` where memory ran out. Then only what every run keeps is known.
    pub(crate) fn run_text(
        &mut self,
        alloc: Global,
        cache: &mut CodeCache,
        prints: bool,
        text: &Text,
    ) -> Result<Reply, AllocError>
        ensures { Replied (run_chunk prints text.now) self.old.state.seen result
            self.new.state.seen }
    {
        run_text(alloc, &mut self.known, cache, prints, text)
    }

    /// Puts a method with this source into a class, with the budget at hand.
    ///
    /// # Errors
    ///
    /// The same.
    pub(crate) fn install_source(
        &mut self,
        alloc: Global,
        class_side: bool,
        class: &Text,
        source: &Text,
    ) -> Result<Reply, AllocError>
        ensures { Replied (install_method class_side class.now source.now) self.old.state.seen
            result self.new.state.seen }
    {
        install_source(alloc, &mut self.known, class_side, class, source)
    }
}

//! The record of a transaction.
ghost use Rattle.std.specs.Prelude.{◌≡◌, IfOk};
ghost use Rattle.gem_record.specs.gem_world.Changes.{written_objects, made_objects};
ghost use Rattle.gem_record.specs.RunNames.{touched_names, updates_by_name};
ghost use Rattle.gem_record.specs.Record.{all_uncommitted, record_of};

use crate::view::View;
use gem_object::{Object, Sequence};
use gem_record::{ByName, Mode, OidList, TxnRecord};
use gem_update::Update;
use plain_state::PlainState;
use running_objects::Objects;
use std::alloc::AllocError;

impl View {
    /// The record of the transaction, which ran these commands of this session, for its commit in
    /// this mode. `view` is the number of commits in the image that the view is over, which the view
    /// itself doesn't hold. Objects are copied, with 0 as the number of their last commit.
    ///
    /// # Errors
    ///
    /// `AllocError` where memory ran out.
    #[tactic(auto, unfolding(gem_record::specs::Record::record_of))]
    pub fn finish(
        &self,
        session: u32,
        transaction: u32,
        first_command: u32,
        last_command: u32,
        view: u64,
        mode: Mode,
    ) -> Result<TxnRecord, AllocError>
        ensures { IfOk result (λ finished. finished ≡ record_of (record {
          session = session;
          transaction = transaction;
          user = self.now.state.seen.setting.user;
          first_command = first_command;
          last_command = last_command;
          first_name = self.now.state.seen.setting.first;
          view = view;
          mode = mode;
        }) self.now.state.seen.setting self.now.state.seen.world) }
    {
        Ok(TxnRecord {
            session,
            transaction,
            user: self.state.user(),
            first_command,
            last_command,
            first_name: self.state.first_counter(),
            view,
            mode,
            base: self.state.view()?,
            touched: touched(&self.state)?,
            written: written(&self.state)?,
            made: made(&self.state)?,
            updates: updates(&self.state)?,
        })
    }
}

fn touched(state: &PlainState) -> Result<OidList, AllocError>
    ensures { IfOk result (λ names. names ≡ touched_names state.now.seen.world) }
{
    Ok(OidList::of(state.touched_names()?))
}

fn written(state: &PlainState) -> Result<ByName<Object>, AllocError>
    ensures { IfOk result (λ objects. objects
        ≡ all_uncommitted (written_objects state.now.seen.setting state.now.seen.world)) }
{
    Ok(ByName::of(state.written_objects()?))
}

fn made(state: &PlainState) -> Result<ByName<Object>, AllocError>
    ensures { IfOk result (λ objects. objects
        ≡ all_uncommitted (made_objects state.now.seen.setting state.now.seen.world)) }
{
    Ok(ByName::of(state.made_objects()?))
}

fn updates(state: &PlainState) -> Result<ByName<Sequence<Update>>, AllocError>
    ensures { IfOk result (λ updates. updates ≡ updates_by_name state.now.seen.world) }
{
    Ok(ByName::of(state.updates_by_name()?))
}

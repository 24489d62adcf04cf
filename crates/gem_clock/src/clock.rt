//! A clock, its pen and its stamps.
ghost use Rattle.std.specs.Prelude.{◌≡◌, ℕ, ◌^◌, ◌<◌, [], ◌∷◌, ◌++◌, length, IfOk};
ghost use Rattle.std.specs.List.{range_with_len};
ghost use Rattle.gem_clock.specs.Pairs.{Has, without, IsAuthor, AreAuthors, Knows};
ghost use Rattle.gem_clock.specs.Shown.{AreFirst, first_pen};

use crate::rule::{Adding, Adds, Gives, Giving, Known, Meets, Rule, Takes};
use atomic_table::{Seat, Table};
use std::alloc::{AllocError, Global};
use std::marker::{Brand, Model};

/// A list of pairs, each of an author's number and an entry, which is for proofs alone. Contracts
/// see which clock it is and how many authors it has; the list they see at its pen and at its
/// stamps. Any number of threads may share it.
#[derive(Drop)]
pub struct Clock<E> {
    pub(crate) table: Table<(), Known<E>, u32, Rule, Global>,
}

impl<E> Model for Clock<E> {
    ghost use Rattle.std.specs.Prelude.{◌≡◌};
    ghost use Rattle.gem_clock.specs.Shown.{ClockId};

    ghost Value = { ClockId };

    ghost view = { λ clock. record
        { table = clock.table.shared.table_id; authors = clock.table.shared.key } };

    ghost invariant = { λ clock. clock.table.shared.table_id.words ≡ 1 };
}

/// The token by which a clock's list grows; each clock has one. Contracts see its clock, the
/// authors that it holds, and the list.
#[derive(Drop)]
pub struct Pen<E> {
    seat: Seat<(), Known<E>>,
}

impl<E> Model for Pen<E> {
    ghost use Rattle.std.specs.Prelude.{◌≡◌, true, []};
    ghost use Rattle.gem_clock.specs.Shown.{PenView};

    ghost Value = { PenView E };

    ghost view = { λ pen. record {
      clock = record { table = pen.seat.table_id; authors = pen.seat.me.0.authors };
      held = pen.seat.me.0.held;
      list = pen.seat.me.0.list;
    } };

    ghost invariant = { λ pen. (pen.seat.me.0.is_pen ≡ true) × (pen.seat.me.0.met ≡ [])
        × (pen.seat.me.1 ≡ []) };
}

/// A token of one author. Contracts see its clock, its author, and the list as it was when the
/// stamp was made. An author whose stamp is dropped is never held by the pen again.
#[derive(Drop)]
pub struct Stamp<E> {
    author: u32,
    seat: Seat<(), Known<E>>,
}

impl<E> Model for Stamp<E> {
    ghost use Rattle.std.specs.Prelude.{◌≡◌, [], ◌∷◌};
    ghost use Rattle.gem_clock.specs.Shown.{StampView};

    ghost Value = { StampView E };

    ghost view = { λ stamp. record {
      clock = record { table = stamp.seat.table_id; authors = stamp.seat.me.0.authors };
      author = stamp.author;
      list = stamp.seat.me.0.list;
    } };

    ghost invariant = { λ stamp. (stamp.seat.me.0.held ≡ stamp.author ∷ [])
        × (stamp.seat.me.1 ≡ []) };
}

impl<E> Clock<E> {
    /// A clock with an empty list, its pen, which holds no author, and a stamp for each author from
    /// 1 to `authors`, in this order. An error says that there was no memory. No other call takes
    /// any.
    pub fn make(
        alloc: Global,
        authors: u32,
    ) -> Result<(Clock<E>, Pen<E>, Vec<Stamp<E>>), AllocError>
        ensures authors { IfOk result (λ made. made.0.authors ≡ authors) }
        ensures pen { IfOk result (λ made. made.1 ≡ first_pen made.0) }
        ensures stamps { IfOk result (λ made. AreFirst made.0 authors made.2.items) }
    {
        let (table, seat) = Table::of_words(alloc, &[0], &authors)?;
        let clock = Clock { table };
        let mut pen = Pen { seat };
        let stamps = clock.first_stamps(alloc, &mut pen, authors)?;
        Ok((clock, pen, stamps))
    }

    /// Adds a pair of the author and the entry to the list. The entry is read by proofs alone.
    pub fn advance(&self, pen: &mut Pen<E>, author: u32, entry: &E)
        requires clock { pen.old.clock ≡ self.now }
        requires held { Has pen.old.held author }
        requires room { length pen.old.list < 2 ^ 63 }
        ensures { pen.new ≡ record pen.old { list = pen.old.list ++ (author, entry.now) ∷ [] } }
    {
        self.add::<Brand>(pen, author, entry);
    }

    /// Gives the author away: a stamp whose list is the pen's.
    pub fn stamp(&self, pen: &mut Pen<E>, author: u32) -> Stamp<E>
        requires clock { pen.old.clock ≡ self.now }
        requires held { Has pen.old.held author }
        ensures pen { pen.new ≡ record pen.old { held = without author pen.old.held } }
        ensures stamp { result
            ≡ record { clock = self.now; author = author; list = pen.old.list } }
    {
        self.give::<Brand>(pen, author)
    }

    /// Takes the stamp's author back, and tells what became of the list that the stamp saw: it is
    /// a front of the pen's, and no pair of the author follows it there.
    pub fn meet(&self, pen: &mut Pen<E>, stamp: Stamp<E>)
        requires clock { pen.old.clock ≡ self.now }
        requires stamp { stamp.clock ≡ self.now }
        ensures pen { pen.new ≡ record pen.old { held = stamp.author ∷ pen.old.held } }
        ensures met { Knows stamp.author stamp.list pen.old.list }
        ensures range { AreAuthors self.now.authors pen.old.list }
        ensures author { IsAuthor self.now.authors stamp.author }
    {
        let Stamp { author: _, seat } = stamp;
        self.table.shared.join_seat::<Takes>(&mut pen.seat, seat);
        self.table.shared.load::<Meets>(&mut pen.seat, 0);
    }

    // A stamp for each author, of a pen that holds all of them.
    fn first_stamps(
        &self,
        alloc: Global,
        pen: &mut Pen<E>,
        authors: u32,
    ) -> Result<Vec<Stamp<E>>, AllocError>
        requires clock { pen.old.clock ≡ self.now }
        requires held { pen.old.held ≡ range_with_len 1 authors }
        requires list { pen.old.list ≡ [] }
        ensures pen { IfOk result (λ _. pen.new ≡ first_pen self.now) }
        ensures stamps { IfOk result (λ stamps. AreFirst self.now authors stamps.items) }
    {
        let mut stamps = Vec::with_capacity(alloc, authors as usize)?;
        for index in 0..authors {
            stamps.push(self.stamp(pen, index + 1))?;
        }
        Ok(stamps)
    }

    // The split of `stamp`, at the author that the caller picks.
    fn give<X: Giving>(&self, pen: &mut Pen<E>, author: u32) -> Stamp<E>
        requires picked { X.author ≡ author }
        requires clock { pen.old.clock ≡ self.now }
        requires held { Has pen.old.held author }
        ensures pen { pen.new ≡ record pen.old { held = without author pen.old.held } }
        ensures stamp { result
            ≡ record { clock = self.now; author = author; list = pen.old.list } }
    {
        let seat = self.table.shared.split_seat::<Gives<X>>(&mut pen.seat);
        Stamp { author, seat }
    }

    // The step of `advance`, at the pair that the caller picks.
    fn add<X: Adding<E>>(&self, pen: &mut Pen<E>, author: u32, entry: &E)
        requires picked { X.pairs ≡ (author, entry.now) ∷ [] }
        requires clock { pen.old.clock ≡ self.now }
        requires held { Has pen.old.held author }
        requires room { length pen.old.list < 2 ^ 63 }
        ensures { pen.new ≡ record pen.old { list = pen.old.list ++ (author, entry.now) ∷ [] } }
    {
        self.table.shared.fetch_add::<Adds<X>>(&mut pen.seat, 0, 1);
    }
}

impl<E> Stamp<E> {
    /// The stamp's author.
    pub fn author(&self) -> u32
        ensures { result ≡ self.now.author }
    {
        self.author
    }
}

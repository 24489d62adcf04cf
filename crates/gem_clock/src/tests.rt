// Threads that share a clock, each as an author, and take turns behind a lock.
ghost use Rattle.std.specs.Prelude.{◌≡◌, ◌∷◌, ◌++◌, [], IfOk};
ghost use Rattle.std.specs.List.{All};
ghost use Rattle.gem_clock.specs.Pairs.{Knows};
ghost use Rattle.gem_clock.specs.Shown.{ClockId, first_pen};

use super::*;
use std::alloc::{AllocError, Global};
use std::marker::{Brand, Model, PhantomData};
use std::process::Abort;
use std::sync::{Mutex, Wait};
use std::test::Fail;
use std::thread;
use std::thread::Threads;

const AUTHORS: u32 = 16;

const TURNS: u32 = 10_000;

/// Names the clock that the desk and the threads have in common.
trait Naming {
    ghost clock: { ClockId };
}

impl Naming for Brand {
    ghost use Rattle.gem_clock.specs.Shown.{no_clock};

    ghost clock = { no_clock };
}

/// What lies behind the lock: the pen, and a list with the same pairs. The entry of a pair is a
/// digest of the list up to the pair.
#[derive(Drop)]
struct Desk<N: Naming> {
    pen: Pen<u64>,
    pairs: Vec<(u32, u64)>,
    of: PhantomData<N>,
}

impl<N: Naming> Model for Desk<N> {
    ghost use Rattle.std.specs.Prelude.{◌≡◌, ℕ, List};

    ghost Value = { List (ℕ × ℕ) };

    ghost view = { λ desk. desk.pairs.items };

    ghost invariant = { λ desk. (desk.pen.clock ≡ N.clock) × (desk.pen.list ≡ desk.pairs.items) };
}

/// What a thread remembers of the list: its length after the thread's last turn, and its digest.
#[derive(Clone, Copy)]
struct Seen {
    length: usize,
    digest: u64,
}

impl<N: Naming> Desk<N> {
    // One turn of the stamp's author.
    fn turn(&mut self, clock: &Clock<u64>, stamp: Stamp<u64>) -> Result<Stamp<u64>, AllocError>
        requires clock { clock.now ≡ N.clock }
        requires stamp { stamp.clock ≡ N.clock }
        ensures met { Knows stamp.author stamp.list self.old }
        ensures stamp { IfOk result (λ taken. taken
            ≡ record { clock = N.clock; author = stamp.author; list = self.new }) }
    {
        let author = stamp.author();
        let digest = self.digest_with(author);
        clock.meet(&mut self.pen, stamp);
        self.pairs.push((author, digest))?;
        clock.advance(&mut self.pen, author, &digest);
        Ok(clock.stamp(&mut self.pen, author))
    }

    // The digest of the list with one more pair of the author.
    fn digest_with(&self, author: u32) -> u64 {
        let last = self.pairs.last().map_or(0, |pair| pair.1);
        last.wrapping_mul(6_364_136_223_846_793_005)
            .wrapping_add(u64::from(author))
    }

    // What a thread remembers after its turn.
    fn seen(&self) -> Seen {
        Seen {
            length: self.pairs.len(),
            digest: self.pairs.last().map_or(0, |pair| pair.1),
        }
    }

    // What the author remembers is a front of the list, and no pair of the author follows it.
    fn has_front(&self, author: u32, seen: Seen) -> bool {
        if seen.length > self.pairs.len() {
            return false;
        }
        let (front, rest) = self.pairs.split_at(seen.length);
        let is_front = match front.last() {
            Some(pair) => *pair == (author, seen.digest),
            None => seen.digest == 0,
        };
        is_front && rest.iter().all(|pair| pair.0 != author)
    }
}

// All turns of the stamp's author, and what it saw last.
fn take_turns<R: Wait + Abort, N: Naming>(
    rt: &R,
    clock: &Clock<u64>,
    desk: &Mutex<Desk<N>>,
    mut stamp: Stamp<u64>,
) -> Seen
    requires clock { clock.now ≡ N.clock }
    requires stamp { stamp.clock ≡ N.clock }
{
    let mut seen = Seen {
        length: 0,
        digest: 0,
    };
    for _ in 0..TURNS {
        let mut guard = desk.lock(rt);
        let desk = &mut *guard;
        assert!(rt; desk.has_front(stamp.author(), seen));
        assert!(rt; clock.table.shared.peek(0) == desk.pairs.len() as u64);
        let Ok(taken) = desk.turn(clock, stamp) else {
            panic!(rt; "no memory")
        };
        stamp = taken;
        seen = desk.seen();
        drop(guard);
        // So that turns of several threads mix.
        thread::yield_now();
    }
    seen
}

// Each author takes its turns in a thread of its own.
fn share<R: Threads + Wait + Abort + Sync, N: Naming + Send + Sync>(
    rt: &R,
    alloc: Global,
    clock: Clock<u64>,
    pen: Pen<u64>,
    stamps: Vec<Stamp<u64>>,
) -> Result<(), AllocError>
    requires clock { clock ≡ N.clock }
    requires pen { pen ≡ first_pen N.clock }
    requires stamps { All (λ stamp. stamp.clock ≡ N.clock) stamps.items }
{
    let desk = Mutex::new(Desk::<N> {
        pen,
        pairs: Vec::new(alloc),
        of: PhantomData,
    });
    let seen = thread::map_vec(
        rt,
        stamps,
        &|stamp: Stamp<u64>| -> Seen
            requires { (clock ≡ N.clock) × (stamp.clock ≡ N.clock) }
        { take_turns(rt, &clock, &desk, stamp) },
    )?;
    let desk = desk.into_inner();
    assert!(rt; desk.pairs.len() as u64 == u64::from(AUTHORS * TURNS));
    for (author, seen) in (1..=AUTHORS).zip(seen) {
        assert!(rt; desk.has_front(author, seen));
        let own = desk.pairs.iter().filter(|pair| pair.0 == author).count();
        assert!(rt; own as u64 == u64::from(TURNS), "author {author}");
    }
    Ok(())
}

#[test]
fn authors_share_a_clock(rt: HostRuntime) -> Result<(), Fail> {
    let (clock, pen, stamps) = Clock::make(rt.alloc(), AUTHORS)?;
    share::<_, Brand>(&rt, rt.alloc(), clock, pen, stamps)?;
    Ok(())
}

//! Pieces of a log that are read from a disk, one behind the other.
ghost use Rattle.std.specs.Prelude.{◌≡◌, ◌≤◌, ◌+◌, ℕ, [], ◌++◌, min, length, take, drop, IsTrue, IfOk, OnOk, IsErrOf, Err};
ghost use Rattle.gem_io.specs.Faults.{HasRisen};
ghost use Rattle.gem_disk.specs.declared.disk.Which.TheVariants as which;
ghost use Rattle.gem_disk.specs.Disk.{reads};
ghost use Rattle.tran_log.specs.declared.fault.LogRule.{LogRule};
ghost use Rattle.tran_log.specs.Reads.{IsPiece};

use crate::fault::LogFault;
use gem_disk::{Disk, Which};
use std::alloc::{AllocError, Global};
use std::marker::Model;

// How many bytes are read at once, where no record takes more.
const PIECE_SIZE: u64 = 65_536;

// Bytes that were read of a log and are still to be looked at.
#[derive(Drop)]
pub(crate) struct Piece {
    bytes: Vec<u8>,
    passed: usize,
}

impl Model for Piece {
    ghost use Rattle.std.specs.Prelude.{ℕ, ◌≤◌, List, length, drop};

    ghost Value = { List ℕ };

    ghost view = { λ piece. drop piece.passed piece.bytes.items };

    ghost invariant = { λ piece. piece.passed ≤ length piece.bytes.items };
}

// So many bytes of the log from an offset on.
fn read_at<D: Disk>(alloc: Global, disk: &mut D, at: u64, count: u64) -> Result<Vec<u8>, LogFault>
    requires { IsTrue D.tells → at + count ≤ length (reads (D.past disk.old) which.Log) }
    ensures bytes { IsTrue D.tells → IfOk result (λ bytes.
        bytes.items ≡ take count (drop at (reads (D.past disk.old) which.Log))) }
    ensures count { IfOk result (λ bytes. length bytes.items ≡ count) }
    ensures past { IsTrue D.tells → D.past disk.new ≡ D.past disk.old }
    ensures rule { (place : ℕ) (rule : LogRule) → result ≡ Err (LogFault.NotLog place rule) → ⊥ }
    ensures failed { IsErrOf result LogFault.Disk → HasRisen (D.faults disk.old) (D.faults disk.new) }
    ensures quiet { OnOk result (D.faults disk.new ≡ D.faults disk.old) }
    ensures later { D.faults disk.old ≤ D.faults disk.new }
{
    let mut bytes = vec![in alloc; 0; count as usize]?;
    disk.read(Which::Log, at, &mut bytes)?;
    Ok(bytes)
}

// Bytes, and more behind them.
fn joined(alloc: Global, front: &[u8], more: &[u8]) -> Result<Vec<u8>, AllocError>
    ensures { IfOk result (λ bytes. bytes.items ≡ front.now ++ more.now) }
{
    let mut bytes = Vec::new(alloc);
    bytes.extend_from_slice(front)?;
    bytes.extend_from_slice(more)?;
    Ok(bytes)
}

impl Piece {
    // Nothing yet.
    pub(crate) fn new(alloc: Global) -> Piece
        ensures { result ≡ [] }
    {
        Piece {
            bytes: Vec::new(alloc),
            passed: 0,
        }
    }

    // All of it.
    pub(crate) fn front(&self) -> &[u8]
        ensures { result.now ≡ self.now }
    {
        let (_, front) = self.bytes.split_at(self.passed);
        front
    }

    // All but the gate with which it begins.
    pub(crate) fn behind_gate(&self) -> &[u8]
        requires { 1 ≤ length self.now }
        ensures { result.now ≡ drop 1 self.now }
    {
        let (_, behind) = self.front().split_at(1);
        behind
    }

    // Passes over so many bytes.
    pub(crate) fn skip(&mut self, count: u64)
        requires { count ≤ length self.old }
        ensures { self.new ≡ drop count self.old }
    {
        self.passed += count as usize;
    }

    // Reads on in a log of this size, of which the piece begins at an offset, until so many bytes are
    // there, or all that is left.
    pub(crate) fn fill<D: Disk>(
        &mut self,
        alloc: Global,
        disk: &mut D,
        size: u64,
        at: u64,
        count: u64,
    ) -> Result<(), LogFault>
        requires size { IsTrue D.tells → size ≡ length (reads (D.past disk.old) which.Log) }
        requires piece { IsPiece D.tells (reads (D.past disk.old) which.Log) size at self.old }
        ensures piece { OnOk result
            (IsPiece D.tells (reads (D.past disk.old) which.Log) size at self.new) }
        ensures filled { OnOk result (min (at + count) size ≤ at + length self.new) }
        ensures past { IsTrue D.tells → D.past disk.new ≡ D.past disk.old }
        ensures rule { (place : ℕ) (rule : LogRule) → result ≡ Err (LogFault.NotLog place rule) → ⊥ }
        ensures failed { IsErrOf result LogFault.Disk → HasRisen (D.faults disk.old) (D.faults disk.new) }
        ensures quiet { OnOk result (D.faults disk.new ≡ D.faults disk.old) }
        ensures later { D.faults disk.old ≤ D.faults disk.new }
    {
        let there = self.front().len() as u64;
        let left = size - at;
        if there >= count.min(left) {
            return Ok(());
        }
        let wanted = count.max(PIECE_SIZE).min(left);
        let more = read_at(alloc, disk, at + there, wanted - there)?;
        let bytes = joined(alloc, self.front(), &more)?;
        self.bytes = bytes;
        self.passed = 0;
        Ok(())
    }
}

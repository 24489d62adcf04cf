//! What follows from the definitions alone. Each law is the contract of a function that does
//! nothing.
ghost use Rattle.std.specs.Prelude.{◌≡◌, ◌≢◌, ℕ, List, ◌∷◌, ◌++◌, ◌+◌, ◌<◌, ◌≤◌, ◌^◌, length, drop, sum_by, None, Ok, Result};
ghost use Rattle.gem_record.specs.declared.mode.Mode.{Mode};
ghost use Rattle.gem_record.specs.declared.effect.Effect.{Effect};
ghost use Rattle.gem_record.specs.declared.limits.TheConstants.{LOG_LIMIT};
ghost use Rattle.gem_io.specs.declared.device.Failed.{Failed};
ghost use Rattle.gem_disk.specs.declared.disk.Which.TheVariants as which;
ghost use Rattle.gem_disk.specs.Disk.{Change, Past, reads, stepped, Writes, Cuts, Syncs};
ghost use Rattle.tran_log.specs.declared.logged.Logged.{Logged};
ghost use Rattle.tran_log.specs.Log.{LogRecord, Format2, content, spelled, record_size, chain, AreRecords, logged_from, log_of};
ghost use Rattle.tran_log.specs.OldLog.{old_log_of, IsOfFormat1, placeless, all_in_full};
ghost use Rattle.tran_log.specs.Resting.{IsAtRest, AllHold};

/// Records that were written one behind the other, in either format, are read so, up to the first
/// gate that isn't open, whatever stands behind it.
pub fn chains_read_back()
    ensures { (records : List LogRecord) (gate : ℕ) (behind : List ℕ) → AreRecords None records
        → gate ≢ 1 → log_of (chain records ++ (gate ∷ behind)) ≡ Ok (logged_from 0 records) }
{}

/// A log of format 1 alone stands for the same by the text that knew no other format, its faults
/// included. Each log of more than one byte, and fewer than 2^31, that was one by that text is of
/// format 1 alone.
pub fn old_logs()
    ensures same { (bytes : List ℕ) → IsOfFormat1 0 bytes
        → placeless (log_of bytes) ≡ all_in_full (old_log_of bytes) }
    ensures of_format_1 { (bytes : List ℕ) (effects : List Effect) → length bytes < 2 ^ 31
        → 1 < length bytes → old_log_of bytes ≡ Ok effects → IsOfFormat1 0 bytes }
{}

/// A log at rest reads as its records, and each crash leaves these.
pub fn rest_is_held()
    ensures reads { (past : Past) (logged : List Logged) (end : ℕ) → IsAtRest past logged end
        → log_of (reads past which.Log) ≡ Ok logged }
    ensures images { (past : Past) (logged : List Logged) (end : ℕ) → IsAtRest past logged end
        → AllHold past logged }
{}

/// A record and its gate are together as long as the record's size. So the gate of a record stands
/// at the sum of the sizes of the records before it, and so does the gate at which the log ends. A
/// record of format 2 whose effect is too long for its length word is longer than any log.
pub fn records_have_sizes()
    ensures one { (one : LogRecord) → 1 + length (spelled one) ≡ record_size one }
    ensures all { (records : List LogRecord) →
        length (chain records) ≡ sum_by record_size records }
    ensures places { (before after : List LogRecord) →
        drop (sum_by record_size before) (chain (before ++ after)) ≡ chain after }
    ensures read { (at : ℕ) (before after : List LogRecord) → logged_from at (before ++ after)
        ≡ logged_from at before ++ logged_from (at + sum_by record_size before) after }
    ensures end { (past : Past) (logged : List Logged) (end : ℕ) → IsAtRest past logged end
        → (records : List LogRecord) × (logged ≡ logged_from 0 records)
        × (end ≡ sum_by record_size records) }
    ensures long { (mode : Mode) (effect : Effect)
        → 2 ^ 31 ≤ length (content (Format2 mode effect))
        → LOG_LIMIT < record_size (Format2 mode effect) }
{}

/// Calls on the extent, done or failed, leave a log at rest.
pub fn rest_stays()
    ensures step { (past : Past) (change : Change) (bytes : List ℕ) (logged : List Logged)
        (end : ℕ) → IsAtRest past logged end
        → IsAtRest (stepped past which.Extent change bytes) logged end }
    ensures write { (at : ℕ) (bytes : List ℕ) (old new : Past) (outcome : Result (Unit {0}) Failed)
        (logged : List Logged) (end : ℕ) → Writes which.Extent at bytes old outcome new
        → IsAtRest old logged end → IsAtRest new logged end }
    ensures cut { (n : ℕ) (old new : Past) (outcome : Result (Unit {0}) Failed)
        (logged : List Logged) (end : ℕ) → Cuts which.Extent n old outcome new
        → IsAtRest old logged end → IsAtRest new logged end }
    ensures sync { (old new : Past) (outcome : Result (Unit {0}) Failed)
        (logged : List Logged) (end : ℕ) → Syncs which.Extent old outcome new
        → IsAtRest old logged end → IsAtRest new logged end }
{}

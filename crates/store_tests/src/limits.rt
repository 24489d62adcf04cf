//! The limit of a log, which stands in two crates.
ghost use Rattle.std.specs.Prelude.{◌≡◌};
ghost use Rattle.gem_record.specs.declared.limits.TheConstants as counted;
ghost use Rattle.tran_log.specs.declared.log.TheConstants.{LOG_LIMIT};

/// A log grows up to the limit that the record of what is stored counts with.
pub fn limits_agree()
    ensures { LOG_LIMIT ≡ counted.LOG_LIMIT }
{}

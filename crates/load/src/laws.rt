//! Laws of the workload.
ghost use Rattle.load.specs.Laws.{KeyZeroHasOneWriter};

/// Whoever writes `k0` is caller 1.
pub fn key_zero_has_one_writer()
    ensures { KeyZeroHasOneWriter }
{}

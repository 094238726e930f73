//! Probes whose marks are solved.
ghost use Rattle.std.specs.Prelude.{◌≡◌};
ghost use Rattle.time_marks.specs.Seeks.{seek_of};
ghost use Rattle.std.specs.Coded.{Coded-set};

use crate::{Probe, Seek};

/// Holds a probe, and where the stored seconds of its driving rows are looked for: the seek of the
/// probe's mark.
#[derive(Drop)]
pub struct Ranged {
    pub probe: Probe,
    pub seek: Seek,
    ghost solved: { seek ≡ seek_of probe.at } by { Coded-set seek-code seek (seek_of probe.at) },
}

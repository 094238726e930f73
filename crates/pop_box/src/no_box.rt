//! Puts the line that says that there is no such box.
ghost use Rattle.std.specs.Prelude.{◌≡◌, ◌≢◌, ◌⊎◌};
ghost use Rattle.tap_base.specs.Counts.{Rose};
ghost use Rattle.pop_box.specs.Served.{BoxLine};

use tap_edges::Sink;

/// Puts the line that says that there is no such box; returns the status: 9, or 4 if the put
/// failed.
pub fn refuse_box<K: Sink>(sink: &mut K) -> u8
    ensures statuses { (result ≡ 9) ⊎ (result ≡ 4) }
    ensures line { BoxLine result (K.out sink.old) (K.out sink.new) }
    ensures cause { result ≡ 4 → Rose (K.faults sink.old) (K.faults sink.new) }
    ensures calm { result ≢ 4 → K.faults sink.new ≡ K.faults sink.old }
{
    match sink.put(b"-ERR box\r\n") {
        Ok(()) => 9,
        Err(_) => 4,
    }
}

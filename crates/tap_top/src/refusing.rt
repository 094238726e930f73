//! Puts the line of a refused store.
ghost use Rattle.std.specs.Prelude.{◌≡◌, ◌≢◌, ◌⊎◌};
ghost use Rattle.tap_base.specs.Counts.{Rose};
ghost use Rattle.tap_top.specs.Codes.{code_of, IsOfRefusal};
ghost use Rattle.tap_top.specs.Refusals.{stop_line, CutLine};

use crate::status::Status;
use crate::store_fault::StoreFault;
use tap_edges::Sink;

/// Puts the line of a refused store; returns how that ended.
pub fn refuse<K: Sink>(fault: StoreFault, sink: &mut K) -> Status
    ensures statuses { IsOfRefusal result }
    ensures line { CutLine (code_of result) (stop_line fault) (K.out sink.old) (K.out sink.new) }
    ensures cause { result ≡ Status.PutFailed → Rose (K.faults sink.old) (K.faults sink.new) }
    ensures calm { result ≢ Status.PutFailed → K.faults sink.new ≡ K.faults sink.old }
{
    match sink.put(fault.line().as_slice()) {
        Ok(()) => Status::StoreRefused,
        Err(_) => Status::PutFailed,
    }
}

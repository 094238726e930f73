//! Laws over the definitions of this crate.
ghost use Rattle.tap_rows.specs.Laws.{LaterRowsKeepFirstSeconds, DeliveriesStayTheBox};

/// States that documents and notes which arrive at a second or later change no first second below
/// it. This holds for every condition that looks at nothing but the documents and notes of the
/// second that it is asked for.
pub fn later_rows_keep_first_seconds()
    ensures { LaterRowsKeepFirstSeconds }
{}

/// States that what each query has delivered, run by run, is its box, and that each change keeps it
/// so. The box is computed from the rows and the moments of the query's runs alone.
pub fn deliveries_stay_the_box()
    ensures { DeliveriesStayTheBox }
{}

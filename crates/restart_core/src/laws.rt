//! Laws of the sources of queries, and of damaged rows.
ghost use Rattle.restart_core.specs.Laws.{StoredSourcesSayTheSame, SoundTablesAreUndamaged};

/// Shows that the stored source of a query is from now if and only if the given one is, and has its
/// condition's text.
pub fn stored_sources_say_the_same()
    ensures { StoredSourcesSayTheSame }
{}

/// Shows that no row is damaged if and only if the tables are well formed and each query's source
/// can be read.
pub fn sound_tables_are_undamaged()
    ensures { SoundTablesAreUndamaged }
{}

//! Laws of stories.
ghost use Rattle.tap_model.specs.Laws.{StepsAreSound, AcceptedChangesFit, SoundIsForEachCommand};
ghost use Rattle.tap_model.specs.Laws.{SessionsLeaveStores};
ghost use Rattle.tap_model.specs.Laws.{StepsLeadToNextTables, StoresAreBoxed, AnswersAreNotMemory};
ghost use Rattle.tap_model.specs.Limits.{ConstantLimits};
ghost use Rattle.tap_model.specs.Asks.{AsksAreRuns};
ghost use Rattle.tap_model.specs.WindowRuns.{RunsAreWindows, UnseenIsFresh, WakesAreWindows};
ghost use Rattle.tap_model.specs.PrivacyLaws.{SameDeedSameReply, OthersLeaveTheView};
ghost use Rattle.tap_model.specs.PrivacyLaws.{SameDeedsSameReplies};

/// Shows that each step of a story leads from a sound point to a sound point. Above all, what each
/// query has delivered then is its box. A point need be sound only for the step's own command: the
/// next one is then sound for each command that it was sound for. So a story of commands that don't
/// look at deliveries may begin over any well formed tables.
pub fn every_step_is_sound()
    ensures { StepsAreSound }
{}

/// Shows that a command that changes the tables adds rows. At a point that is sound for it, these
/// stand in order behind those of the tables: each has its place as its number, a moment that is
/// not below the last one, names that are names, and references to rows that exist. A run delivers
/// each of its documents for the first time. What was delivered before matters to a run alone.
pub fn accepted_changes_fit()
    ensures { AcceptedChangesFit }
{}

/// Shows that a sound point is sound for every command, and that nothing else is. A command that
/// doesn't look at deliveries asks less of a point than one that does.
pub fn a_sound_point_is_sound_for_each_command()
    ensures { SoundIsForEachCommand }
{}

/// Shows that a session leaves tables that another session may begin with: tables that are sound
/// with a session are sound with a new one.
pub fn sessions_leave_stores()
    ensures { SessionsLeaveStores }
{}

/// Shows that each step leads to the tables after its reply. A command that isn't accepted adds no
/// rows.
pub fn steps_lead_to_next_tables()
    ensures { StepsLeadToNextTables }
{}

/// Shows that a session may begin with tables if and only if their rows stand in order, each
/// query's text can be read as a condition and each filter's text as rules, and what each query has
/// delivered is its box.
pub fn stores_are_boxed()
    ensures { StoresAreBoxed }
{}

/// Shows that no command of a script has the answer `no 18`: each command of a script is proper,
/// and the answer to no proper command is this. So a step of a proper command with this reply is
/// out of memory, and the replies of a story are read from their bytes in one way.
pub fn answers_are_not_memory()
    ensures { AnswersAreNotMemory }
{}

/// Shows that a user's replies depend on what the user sees alone. At two sound points that look
/// alike to the user and have a moment, one command gets the same reply and leads to points that
/// look alike. The exception is a reply that refuses it since memory or a limit over all users is
/// exhausted.
pub fn equal_views_are_answered_alike()
    ensures { SameDeedSameReply }
{}

/// Shows that a command that doesn't concern a user leaves what the user sees unchanged. Only
/// moments, documents and notes concern users who don't give them.
pub fn others_leave_the_view()
    ensures { OthersLeaveTheView }
{}

/// Shows the same for whole stories, from two sound points that look alike to a user and have a
/// moment. If the same commands concern the user in both, and none of them is refused since memory
/// or a limit over all users is exhausted, they get the same replies and the ends look alike,
/// whatever others do in between.
pub fn equal_deeds_get_equal_replies()
    ensures { SameDeedsSameReplies }
{}

/// Shows that a run delivers what the query's window query finds over the seconds since the query's
/// last run, without what it has delivered already. So a run need not try each second.
pub fn runs_are_windows()
    ensures { RunsAreWindows }
{}

/// Shows what a window query finds without the documents that were seen, if these are the ones that
/// were given before the window: what is fresh. This holds of any query that starts at second 0 or
/// later, over any tables without a document before it. Nothing was given before the query's start,
/// so from there on it finds all.
pub fn what_is_unseen_is_fresh()
    ensures { UnseenIsFresh }
{}

/// Shows that the earliest moment at which a run delivers follows from the least second that the
/// query's window query finds since its last run, without what it has delivered already: the second
/// after that one, or now if now is later. So nobody need try each moment.
pub fn wakes_are_windows()
    ensures { WakesAreWindows }
{}

/// Shows which numbers the limits are that definitions name by a constant of the code: a moment has
/// at most 250,000,000,000 seconds, a text and a line at most 1,048,576 bytes.
pub fn limits_are_numbers()
    ensures { ConstantLimits }
{}

/// States that a condition gives at a second the documents that its window query, begun at that
/// second, finds in it.
pub fn asks_are_runs()
    ensures { AsksAreRuns }
{}

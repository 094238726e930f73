//! Laws of the marks of a form, and of what a question costs, over definitions alone.
ghost use Rattle.form_marks.specs.Laws.{FormsHaveNoOtherMark};
ghost use Rattle.form_marks.specs.Replies.{RepliesTakeTwoSteps};

/// States that no probe by which the form of a query is evaluated has a mark in a window in which
/// no probe of the query as it is written has one.
pub fn forms_have_no_other_mark()
    ensures { FormsHaveNoOtherMark }
{}

/// States that each probe by which the query `EXISTS (r: DOC WHERE r.inreplyto = m.msgid)` runs
/// takes at most two steps for each document that arrived in the window, if no two documents have
/// one message id: one for the document, and one for a reply of it or for the message that it
/// replies to. It takes no more, however many documents there are.
pub fn replies_take_two_steps()
    ensures { RepliesTakeTwoSteps }
{}

//! Laws of digests.
ghost use Rattle.digest_mail.specs.Laws.{DigestsAreMailboxes};

/// States that the messages of a digest, read as a mailbox, are the texts of its documents, line by
/// line.
pub fn digests_are_mailboxes()
    ensures { DigestsAreMailboxes }
{}

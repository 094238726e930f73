//! Counts what the replies to a sample's commands come to.
ghost use Rattle.std.specs.Prelude.{◌≡◌, ◌+◌, None, IfSome};
ghost use Rattle.tap_top.specs.Samples.{refusals_in, hits_in, PassesEnd};

use script_lang::Reply;

/// Counts of replies: how many refuse, and how many documents their runs delivered.
#[derive(Clone, Copy, Debug, PartialEq, Eq)]
pub struct Tally {
    pub refused: usize,
    pub delivered: u64,
}

impl Tally {
    /// Returns the counts of no replies.
    pub fn new() -> Tally
        ensures refused { result.refused ≡ 0 }
        ensures delivered { result.delivered ≡ 0 }
    {
        Tally {
            refused: 0,
            delivered: 0,
        }
    }

    /// Adds a reply; returns `None` if and only if a count would pass the end of its type.
    pub fn with(self, reply: &Reply) -> Option<Tally>
        ensures refused { IfSome result (λ tally.
            tally.refused ≡ self.refused + refusals_in reply.now) }
        ensures delivered { IfSome result (λ tally.
            tally.delivered ≡ self.delivered + hits_in reply.now) }
        ensures none { result ≡ None → PassesEnd self reply.now }
    {
        match reply {
            Reply::No(_) => Some(Tally {
                refused: self.refused.checked_add(1)?,
                delivered: self.delivered,
            }),
            Reply::Ran { hits, .. } => Some(Tally {
                refused: self.refused,
                delivered: self.delivered.checked_add(hits.len() as u64)?,
            }),
            _ => Some(self),
        }
    }
}

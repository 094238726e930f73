//! Counts the votes of one kind, document by document.
ghost use Rattle.std.specs.Prelude.{◌≡◌, ◌≤◌, List, [], ℕ, OnOk, IfOk};
ghost use Rattle.tap_rows.specs.Votes.{scores_in_order, score_is_before};
ghost use Rattle.vote_scores.specs.Counts.{with_vote_counted, AreSmall, ScoresAreApart};
ghost use Rattle.std.specs.Ordering.{is_lt};

use indexmap::IndexMap;
use std::alloc::Global;
use std::cmp::Ordering;
use std::marker::Model;
use tap_base::{DocNum, Memory, Rows};
use tap_rows::Score;

/// The scores of the documents that have votes, in order of their first votes. A score is looked up
/// by its document.
#[derive(Drop)]
pub(crate) struct Counts {
    scores: IndexMap<u32, Score>,
}

impl Model for Counts {
    ghost use Rattle.std.specs.Prelude.{List};
    ghost use Rattle.indexmap.specs.IndexMap.{values};
    ghost use Rattle.tap_rows.specs.declared.score.Score.{Score};
    ghost use Rattle.vote_scores.specs.Counts.{AreUnderTheirDocuments};

    ghost Value = { List Score };

    ghost view = { λ counts. values counts.scores };

    ghost invariant = { λ counts. AreUnderTheirDocuments counts.scores.entries };
}

// Compares scores by sum, the greatest first, then by document.
fn compare(a: &Score, b: &Score) -> Ordering
    ensures { is_lt result ≡ score_is_before a.now b.now }
{
    b.sum.cmp(&a.sum).then(a.doc.0.cmp(&b.doc.0))
}

// Puts scores of distinct documents in order. It takes no memory.
fn put_in_order(scores: &mut [Score])
    requires { ScoresAreApart scores.old }
    ensures { scores.new ≡ scores_in_order scores.old }
{
    scores.sort_unstable_by(|a, b| compare(a, b));
}

impl Counts {
    /// Returns no scores.
    pub(crate) fn new(alloc: Global) -> Counts
        ensures { result ≡ [] }
    {
        Counts {
            scores: IndexMap::new(alloc),
        }
    }

    /// Counts a vote on a document. After an error the scores may be lost.
    pub(crate) fn count(&mut self, doc: u32, value: i64) -> Result<(), Memory>
        requires small { AreSmall 4294967294 self.old }
        ensures { OnOk result (self.new ≡ with_vote_counted doc value self.old) }
    {
        if let Some(score) = self.scores.get_mut(&doc) {
            score.voters += 1;
            score.sum += i128::from(value);
            return Ok(());
        }
        let score = Score {
            doc: DocNum(doc),
            voters: 1,
            sum: i128::from(value),
        };
        self.scores.insert(doc, score)?;
        Ok(())
    }

    /// Returns the scores in order of sum from the greatest, then of document.
    pub(crate) fn into_rows(self, alloc: Global) -> Result<Rows<Score>, Memory>
        requires { ScoresAreApart self }
        ensures { IfOk result (λ rows. rows ≡ scores_in_order self) }
    {
        let mut scores = Vec::new(alloc);
        for score in self.scores.into_values() {
            scores.push(score)?;
        }
        put_in_order(&mut scores);
        Ok(Rows::from_vec(scores))
    }
}

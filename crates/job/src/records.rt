//! A clause record: a row that was seen to be in order.
ghost use Rattle.std.specs.Prelude.{◌≡◌, MatchOption, is_none};
ghost use Rattle.job.specs.Records.{InOrder, Disordered};

use crate::rows::ClauseRow;

/// A row whose clause was not struck at or before the step of its entry.
#[derive(Clone, Copy)]
pub struct ClauseRecord {
    row: ClauseRow,
    ghost ordered: { InOrder row },
}

impl ClauseRecord {
    /// The record of a row, unless the row says that its clause was struck at or before the step of its entry.
    pub fn of(row: ClauseRow) -> Option<ClauseRecord>
        ensures { MatchOption result (Disordered row) (λ x. x.row ≡ row) }
    {
        match row.struck {
            Some(step) if step <= row.entered => None,
            _ => Some(ClauseRecord { row }),
        }
    }

    /// Whether no step has struck the clause.
    pub fn is_live(self) -> bool
        ensures { result ≡ is_none self.row.struck }
    {
        self.row.struck.is_none()
    }
}

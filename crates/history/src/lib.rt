//! What every history of calls on a book comes to.
#![tactic(auto)]

ghost use Rattle.history.specs.History.{HistoryStands};

use record::Record;

/// Whatever calls a book has lived through, in any order, accepted or refused, with any arguments:
/// its answers, its balances and its charges are those of the plain book after the same calls.
pub fn history_stands<R: Record>()
    ensures { HistoryStands R.keyed R.posted }
{}

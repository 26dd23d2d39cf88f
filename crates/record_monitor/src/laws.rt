//! Laws of what a monitor reports, each the contract of a function that does nothing.
ghost use Rattle.std.specs.Prelude.{◌≡◌, ◌+◌, ℕ, [], List, Option, Some, false, slice_get, take};
ghost use Rattle.tag.specs.declared.numbers.OpId.{OpId};
ghost use Rattle.recorder.specs.declared.row.Row.{Row};
ghost use Rattle.recorder.specs.declared.part.Call.{Call};
ghost use Rattle.recorder.specs.Histories.{IsWellFormed};
ghost use Rattle.recorder.specs.Orders.{IsLinearizable};
ghost use Rattle.recorder.specs.Records.{IsPart};
ghost use Rattle.growing_parts.specs.PartsWithout.{IsPartWithout};
ghost use Rattle.monitored_key.specs.declared.judged.Refusal.{Refusal};
ghost use Rattle.record_monitor.specs.declared.report.Finding.TheVariants.{EndedAfterAll, Refused};
ghost use Rattle.record_monitor.specs.declared.taken.Taken.{Taken};
ghost use Rattle.record_monitor.specs.declared.watched.Watched.{Watched};
ghost use Rattle.record_monitor.specs.Followed.{is_doubtful, is_refused};
ghost use Rattle.record_monitor.specs.Monitored.{HasTaken, give_up_of, keys_of, reports_of, watched_of};
ghost use Rattle.record_monitor.specs.Waiting.{AreGivenUp};
ghost use Rattle.record_monitor.specs.Watched.{HasReport};

/// Without a report each key's calls are linearizable.
pub fn without_a_report_each_key_is_linearizable()
    ensures { (rows : List Row) (monitor : Option Taken) (key : List ℕ) (part : List Call)
        → IsWellFormed rows → HasTaken rows monitor → reports_of monitor ≡ [] → IsPart rows key part
        → IsLinearizable part }
{}

/// So are those of a key that isn't refused and has no doubt, while no read that was given up is answered after all.
pub fn a_key_without_a_doubt_is_linearizable()
    ensures { (rows : List Row) (monitor : Option Taken) (number : ℕ) (key : List ℕ)
        (watched : Watched) (part : List Call) → IsWellFormed rows → HasTaken rows monitor
        → slice_get (keys_of monitor) number ≡ Some key
        → slice_get (watched_of monitor) number ≡ Some watched → is_refused watched ≡ false
        → is_doubtful watched ≡ false
        → ((place n : ℕ) (op : OpId) → HasReport (reports_of monitor) place n (EndedAfterAll op) → ⊥)
        → IsPart rows key part → IsLinearizable part }
{}

/// A refusal is final: the calls of the key by the rows up to and with that place have no order.
pub fn a_refused_key_has_no_order()
    ensures { (rows : List Row) (monitor : Option Taken) (place number : ℕ) (refusal : Refusal)
        → IsWellFormed rows → HasTaken rows monitor
        → HasReport (reports_of monitor) place number (Refused refusal) → (key : List ℕ)
        × (slice_get (keys_of monitor) number ≡ Some key) × ((part : List Call)
        → IsPart (take (place + 1) rows) key part → IsLinearizable part → ⊥) }
{}

/// Until a refusal the calls had an order, if the key has no doubt: those by the rows before that place, without the
/// reads that were given up by then.
pub fn a_key_had_an_order_before_its_refusal()
    ensures { (rows : List Row) (monitor : Option Taken) (place number : ℕ) (refusal : Refusal)
        (key : List ℕ) (watched : Watched) → HasTaken rows monitor
        → HasReport (reports_of monitor) place number (Refused refusal)
        → slice_get (keys_of monitor) number ≡ Some key
        → slice_get (watched_of monitor) number ≡ Some watched → is_doubtful watched ≡ false
        → (gone : List ℕ) × AreGivenUp (give_up_of monitor) (take place rows) gone
        × (before : List Call) × IsPartWithout (take place rows) key gone before
        × IsLinearizable before }
{}

//! Laws of the definitions, each the contract of a function that does nothing.
ghost use Rattle.std.specs.Prelude.{◌≡◌, ℕ, List};
ghost use Rattle.tag.specs.declared.actions.Action.{Action};
ghost use Rattle.tag.specs.declared.numbers.OpId.{OpId};
ghost use Rattle.recorder.specs.declared.row.Row.{Row};
ghost use Rattle.recorder.specs.declared.part.Call.{Call};
ghost use Rattle.recorder.specs.Histories.{IsWellFormed, IsPendingCall};
ghost use Rattle.recorder.specs.Parts.{IsSequence};
ghost use Rattle.recorder.specs.Records.{IsPart, AreParts};

/// A client has one pending call at most.
pub fn a_client_has_one_pending_call()
    ensures { (rows : List Row) (client : ℕ) (a b : OpId) (x y : Action) → IsWellFormed rows
        → IsPendingCall rows a client x → IsPendingCall rows b client y → a ≡ b }
{}

/// The part of a key is a sequence.
pub fn a_part_is_a_sequence()
    ensures { (rows : List Row) (key : List ℕ) (part : List Call) → IsWellFormed rows
        → IsPart rows key part → IsSequence part }
{}

/// The part of a key is one list.
pub fn a_part_is_one_list()
    ensures { (rows : List Row) (key : List ℕ) (part other : List Call) → IsPart rows key part
        → IsPart rows key other → part ≡ other }
{}

/// The parts of a history are one list: no key has two, and their order is fixed.
pub fn the_parts_are_one_list()
    ensures { (rows : List Row) (parts others : List (List ℕ × List Call)) → AreParts rows parts
        → AreParts rows others → parts ≡ others }
{}

//! The rule of the channel in which a hall lies while nobody has it.
use crossbeam_channel::protocol::{Lesson, Outcome, Protocol, Split};
use hall_journal::Hall;
use std::marker::Model;
use tag::ClientId;
use world_steps::World;

/// Rows of a record, as proofs know them. No value of it is made.
pub struct SeenRows;

impl Model for SeenRows {
    ghost use Rattle.std.specs.Prelude.{List, []};
    ghost use Rattle.recorder.specs.declared.row.Row.{Row};

    ghost Value = { List Row };

    ghost view = { λ seen. [] };
}

/// What a pass knows: its client, if it has one; the rows that it has seen; whether the client was
/// stopped in the hall when the pass last gave it back; and, while it holds the hall, the world that it
/// received. No value of it is made.
pub struct View {
    pub client: Option<ClientId>,
    pub rows: SeenRows,
    pub is_stopped: bool,
    pub held: Option<World>,
}

/// There is one hall, and it lies in the channel or is out with one pass.
pub struct OneHall;

impl Protocol<Hall, View> for OneHall {
    ghost use Rattle.hall_lock.specs.Turns.{HasOneHall, maker};

    ghost holds = { HasOneHall };

    ghost first = { maker };
}

/// A new pass without a client.
pub struct Guest;

impl Split<View> for Guest {
    ghost use Rattle.hall_lock.specs.Turns.{guest};

    ghost left = { λ v. v };

    ghost right = { λ v. guest v.rows };
}

/// A receive: the pass holds the hall from now on.
pub struct Receive;

/// A send: the hall is given back.
pub struct Return;

/// A send by a pass whose client has just joined.
pub struct Enter;

impl Outcome<Hall, View> for Receive {
    ghost use Rattle.hall_lock.specs.Turns.{Receives};

    ghost then = { Receives };
}

impl Outcome<Hall, View> for Return {
    ghost use Rattle.hall_lock.specs.Turns.{Returns};

    ghost then = { Returns };
}

impl Outcome<Hall, View> for Enter {
    ghost use Rattle.hall_lock.specs.Turns.{BecomesSeat};

    ghost then = { BecomesSeat };
}

impl Lesson<Hall, View> for Receive {
    ghost fact = { λ v items. Unit {0} };
}

impl Lesson<Hall, View> for Return {
    ghost fact = { λ v items. Unit {0} };
}

impl Lesson<Hall, View> for Enter {
    ghost fact = { λ v items. Unit {0} };
}

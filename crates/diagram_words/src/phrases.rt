//! The phrases of a diagram, all in this file. What has to hold of them the laws say.

pub(crate) const ANSWERS: &str = "answers ";

pub(crate) const ASKS: &str = "ask ";

pub(crate) const BLANK: &str = " ";

pub(crate) const CALL_SIGN: &str = "#";

pub(crate) const COMMA: &str = ", ";

pub(crate) const DELIVER: &str = "deliver ";

pub(crate) const DONE: &str = "done";

pub(crate) const FINISH: &str = "finish ";

pub(crate) const FROM_CLIENT: &str = ": client ";

pub(crate) const FROM_REPLICA: &str = ": replica ";

pub(crate) const HELD: &str = "holds ";

pub(crate) const HOLDS_SIGN: &str = " = ";

pub(crate) const INVOKE: &str = "invoke ";

pub(crate) const JOIN: &str = "join ";

pub(crate) const KEEPS: &str = "keeps ";

pub(crate) const KEPT: &str = "kept";

pub(crate) const LOSE: &str = "lose ";

pub(crate) const MESSAGE_WORD: &str = "message ";

pub(crate) const NOTES: &str = "notes ";

pub(crate) const OF: &str = " of ";

pub(crate) const PUTS: &str = "put ";

pub(crate) const READS: &str = " read ";

pub(crate) const REPEAT: &str = "repeat ";

pub(crate) const REPLICA_WORD: &str = "replica ";

pub(crate) const RESPOND: &str = "respond ";

pub(crate) const SEND: &str = "send ";

pub(crate) const START_REPLICA: &str = "start replica ";

pub(crate) const STOP_CLIENT: &str = "stop client ";

pub(crate) const STOP_REPLICA: &str = "stop replica ";

pub(crate) const TO_CLIENT: &str = " to client ";

pub(crate) const TO_REPLICA: &str = " to replica ";

pub(crate) const VOTES: &str = " votes";

pub(crate) const WRITES: &str = " write ";

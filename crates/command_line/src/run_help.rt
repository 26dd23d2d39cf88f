//! What help says of `abd run`, and of its options.
use crate::help::CommandHelp;

/// Of `abd run` itself.
pub(crate) const RUN: CommandHelp = CommandHelp {
    about: "Run a store in threads under a load, close it, check its record, and write it as a history",
    after: "\
Callers 1 to C make T calls each, one after another, each in a thread of its own. Caller 1 \
writes k0 and reads it in turn; the others read it, and write and read the other keys.\n\
Writes on standard output the history of the one hall, or of hall N with --show N, for `abd justify` and \
`abd check`; without --show, of several halls or with --votes, the histories of all halls, by hall. Says on \
standard error which caller's call was refused and why, and the first key whose order is refused, if one is. \
Where standard error is a terminal, it also says there how many calls were answered so far, at most once a second, \
and at the end how many calls were answered, how many keys are yes, and how long it took.\n\
A refused call ends its caller's calls, and doesn't change the exit status. A hall has room for 4000000 messages; a \
call takes up to 4 for each replica, and more where parcels are lost or doubled: from 7 replicas on the most calls \
want more than one hall (docs/FORMATS.md).\n\
Exit status: 0 all keys are yes, 1 a key is refused, 2 usage, 4 memory, a device or a thread.\n\n\
Example: abd run --drop 5 --double 7 > run.history",
};

pub(crate) const REPLICAS: &str = "How many replicas the store has, 1 to 15";

pub(crate) const CALLERS: &str = "How many callers there are, 1 to 16";

pub(crate) const CALLS: &str = "How many calls each caller makes, 1 to 10000";

pub(crate) const KEYS: &str = "How many keys there are, 1 to 8: k0, k1 and so on";

pub(crate) const ROUNDS: &str = "How many rounds of messages a phase of a call makes, 1 to 10000";

pub(crate) const DROP: &str = "Every D-th parcel is lost, 0 to 1000; none if 0";

pub(crate) const DOUBLE: &str = "Of the others every E-th goes its way twice, 0 to 1000; none if 0";

pub(crate) const HALLS: &str = "How many halls the store has, 1 to 64; each key has one";

pub(crate) const SHOW: &str = "The hall whose history is written, from 0 and below H";

pub(crate) const READS: &str = "Whether each read writes back, full or short";

pub(crate) const VOTES: &str = "The votes of the replicas, one digit from 1 to 9 each, as 113";

pub(crate) const ASK: &str = "How many votes an ask quorum has at least; with --votes";

pub(crate) const PUT: &str = "How many votes a put quorum has at least; with --votes";

//! What help says of the commands, beside what clap says of their words.

/// What help says of a command.
#[derive(Clone, Copy)]
pub struct CommandHelp {
    /// Above its words: what it does.
    pub about: &'static str,
    /// Below them.
    pub after: &'static str,
}

/// The version that `abd --version` says.
pub const VERSION: &str = "0.11.0";

/// Of `abd`.
pub const ABD: CommandHelp = CommandHelp {
    about: "Simulates a register store, and makes and checks certificates that its record is atomic",
    after: "\
A file name may be /dev/stdin, for what is piped in. Files, scripts, messages and \
limits: docs/FORMATS.md.\n\nExample:\n  \
abd simulate examples/new_then_old.script > made.history\n  \
abd justify made.history > made.orders\n  \
abd check made.history made.orders",
};

/// Of a history file.
pub const HISTORY: &str = "The recorded calls: a history file";

/// Of a history file whose notes are read.
pub const NOTED: &str = "The recorded calls, with their notes: a history file";

/// Of an order file.
pub const ORDERS: &str = "For each key an order of its calls: an order file";

/// Of a script.
pub const SCRIPT: &str = "What clients, replicas and the network do, step by step: a script";

/// Of the option `--workers`.
pub const WORKERS: &str = "How many threads check the orders, 1 to 16; the lines are the same";

/// Of the option `--json`.
pub const JSON: &str = "Print each line as an object of JSON, for programs";

/// Of `abd check`.
pub const CHECK: CommandHelp = CommandHelp {
    about: "Check, key by key, whether the orders show that the history is atomic",
    after: "\
Prints one line a key, `KEY: yes` or `KEY: no` and the fault, keys hall by hall, in each in the \
order in which the history first sees them, then those that only the orders have. HISTORY is of version 1 or 2. One \
of the files may be /dev/stdin, for what is piped in.\nExit status: 0 all yes, 1 a key refused, 2 usage, 3 a file \
can't be opened or read as its format, 4 memory, a device or a thread.\n\n\
Example: abd check examples/two_calls.history examples/two_calls.orders",
};

/// Of the option `--key` of `abd decide`.
pub const DECIDED_KEYS: &str = "A key to decide; more may be named by further --key";

/// Of the option `--most` of `abd decide`.
pub const REASONS: &str = "How many keys that aren't atomic are explained, 0 to 10,000";

/// Of `abd decide`.
pub const DECIDE: CommandHelp = CommandHelp {
    about: "Decide, key by key, by the values alone whether there is an order at all",
    after: "\
Prints one line a key: `KEY: atomic`, `KEY: not atomic` and why no order of its calls is possible, or \
`KEY: undecided` where a read answers what two writes wrote and no fault is found; keys hall by hall, in each in the \
order in which the history first sees them. A `not atomic` is final: no other order is one. Below the first such \
keys stand the calls that show it, with the lines of HISTORY, and how many reads are stale. Notes aren't needed; \
where values leave a key undecided its tags are tried. HISTORY is of version 1 or 2. It may be /dev/stdin, for what \
is piped in.\nExit status: 0 all atomic, 1 a key isn't or no such key, 2 usage, 3 the file can't be opened or read as \
its format, 4 memory or a device, 5 none isn't and one is undecided.\n\n\
Example: abd decide examples/two_calls.history",
};

/// Of the option `--key` of `abd draw`.
pub const DRAWN_KEY: &str = "The only key to draw";

/// Of the option `--most` of `abd draw`.
pub const PICTURES: &str =
    "How many keys have a picture, 0 to 10,000, as far as a page has room: for 20,000 calls [default: 20]";

/// Of the option `--calls`.
pub const CALLS: &str =
    "How many calls of a key are shown, 1 to 10,000, beside those that show why it is refused";

/// Of the option `--by` of `abd draw`.
pub const DRAWN_BY: &str =
    "Without ORDERS: tags: judge the keys by their tags [default]; values: by their values, as `abd decide`";

/// Of the option `--around`.
pub const AROUND: &str = "The number of a call: the calls around it are shown";

/// Of the option `--whole`.
pub const WHOLE: &str =
    "All keys in one picture, with one order of the whole store; without --key and --most";

/// Of `abd draw`.
pub const DRAW: CommandHelp = CommandHelp {
    about: "Draw, key by key, when each call ran, and the order of the calls or what is wrong",
    after: "\
Writes one page of HTML, for any browser, with all pictures in it: a table of the keys, refused ones first, and \
for each key a picture with a lane a client and a bar a call, from its invocation to its response. A `yes` has a point \
in each bar, in the order that shows it; a `no` has its calls marked, below the sentences of `abd explain`. Without \
ORDERS the orders that the tags make are drawn, and with --by values those that `abd decide` finds. With --whole one \
picture has all keys, with the points of one order of all calls; of a version 2 file each hall has one. Of a faulty \
file standard error says why, as `abd explain` does. HISTORY is of version 1 or 2. One of the files may be \
/dev/stdin, for what is piped in.\nExit status: 0 all yes, 1 a key refused or no such key, 2 usage, 3 a file can't be \
opened or read as its format, 4 memory or a device, 5 by values: none is refused and one is undecided.\n\n\
Example: abd draw examples/two_calls.history examples/two_calls.orders > two_calls.html",
};

/// Of the option `--key` of `abd explain`.
pub const KEY: &str = "The only key to explain";

/// Of the option `--most` of `abd explain`.
pub const MOST: &str = "How many refused keys are explained, 0 to 10,000 [default: 20]";

/// Of `abd explain`.
pub const EXPLAIN: CommandHelp = CommandHelp {
    about: "Say, key by key, why orders are refused, or without orders the tags of the calls",
    after: "\
Prints for each key the line of `abd check`, and under a `no` the reason: each call that matters, with its \
client, what it did, the lines of HISTORY on which it began, was noted and was answered, its place in the order, and \
what would have been right. Without ORDERS the tags of the calls are judged: `KEY: yes` where they are sound, and else \
`KEY: no tags`, the first rule that they break, and a hint at what to look for in a store. HISTORY is of version 1 \
or 2. One of the files may be /dev/stdin, for what is piped in.\nExit status: 0 all yes, 1 a key refused or no such \
key, 2 usage, 3 a file can't be opened or read as its format, 4 memory or a device.\n\n\
Example: abd explain examples/two_calls.history examples/two_calls_refused.orders",
};

/// Of the option `--by` of `abd justify`.
pub const MADE_BY: &str =
    "tags: by the tags of the notes [default]; values: by the values that calls write and answer, as `abd decide`";

/// Of the option `--unchecked`.
pub const UNCHECKED: &str =
    "Leave keys without an order out, and don't check the orders that tags make";

/// Of `abd justify`.
pub const JUSTIFY: CommandHelp = CommandHelp {
    about: "Make an order of each key's calls, from the notes or from the values, and write the orders",
    after: "\
Writes an order file, for `abd check`, keys hall by hall, in each in the order in which the \
history first sees them. HISTORY is of version 1 or 2. Where a key has no such order it writes nothing, and says the \
first such key on standard error. With --unchecked it leaves out only the keys with a completed call that has no \
note, and says each on standard error; `abd check` and `abd explain` then show what is wrong with the other orders. \
\n\nWith --by values it needs no notes, and writes the orders that `abd decide` finds. The line that `abd decide` \
prints of a key without an order goes to standard error, and then nothing is written, or with --unchecked the orders of \
the other keys. HISTORY may be /dev/stdin, for what is piped in.\nExit status: 0 written, 1 a key has no order, 2 \
usage, 3 the file can't be opened or read as its format, 4 memory or a device, 5 by values: each key has an order or is \
undecided, and one is.\n\n\
Examples:\n  abd justify examples/new_then_old.history\n  abd justify --by values docs/using/first_run.history",
};

/// Of the file of `abd monitor`.
pub const RECORD: &str =
    "The calls: a history of version 1, of any length; standard input if it isn't named";

/// Of the option `--all`.
pub const ALL_KEYS: &str =
    "Go on with the other keys once a key is refused, to the end of the input";

/// Of the option `--give-up`.
pub const GIVE_UP: &str =
    "For how many lines a read may be pending, 1 to 4,294,967,295; after them its answer isn't waited for";

/// Of the option `--json` of `abd monitor`.
pub const OBJECTS: &str =
    "Print an object of JSON for each key that is refused or undecided, and one at the end";

/// Of `abd monitor`.
pub const MONITOR: CommandHelp = CommandHelp {
    about: "Judge a history by its values while it is made, and say the first line at which it isn't atomic",
    after: "\
Reads a history of version 1, of any length, from FILE or standard input, and judges each line when it has come. It \
prints nothing until a key is refused: then `KEY: not atomic` and why no order of its calls up to that line is \
possible, with the lines on which they stand, and ends. That is final: no later line changes it. What no later call can \
touch is forgotten, so memory goes with the calls that are pending, and not with the history's length. A key is \
undecided where a read answers what two writes wrote and neither was overwritten. At the end of the input it prints \
how many calls on how many keys were judged. On a terminal a line says once a second how far it is.\nExit status: 0 \
atomic, 1 a key isn't, 2 usage, 3 the file can't be opened or read as its format, 4 memory or a device, 5 none is \
refused and one is undecided, or a read was answered after it was given up.\n\n\
Examples:\n  abd monitor examples/new_then_old.history\n  python3 docs/using/toy_store.py --calls 100000 | abd monitor",
};

/// Of the option `--parts`.
pub const PARTS: &str = "How many pieces there are, 1 to 1,000";

/// Of the option `--into`.
pub const INTO: &str =
    "The folder of the pieces; it is made if it isn't there, and else has to be empty";

/// Of `abd split`.
pub const SPLIT: CommandHelp = CommandHelp {
    about: "Write a history as several, each with whole keys, that are judged anywhere",
    after: "\
Reads a history of version 1, of any length, from FILE or standard input, and writes N histories into DIR: \
`piece-1.history`, and so on, with as many digits as N has. Each key's calls stand in one piece, in their order, \
numbered anew; each row has the number of its line in FILE as a member `line`. A key is linearizable in FILE exactly \
if it is in its piece: judge the pieces by `abd monitor`, or by `abd decide` where a piece has at most 1,000,000 \
calls. Memory goes with the keys, the pending calls and N. Until all is written the pieces have names that end in \
`.part`; if FILE has a fault they are removed. One large key can't be split. On a terminal a line says once a second \
how far it is, and at the end how many calls and keys there were.\nExit status: 0 all pieces are written, 2 usage, 3 the \
file can't be opened or read as its format, or DIR isn't empty, 4 memory or a device.\n\n\
Examples:\n  abd split --parts 8 --into pieces run.history\n  parallel abd monitor ::: pieces/*",
};

/// Of `abd simulate`.
pub const SIMULATE: CommandHelp = CommandHelp {
    about: "Run a script of calls and faults, and write the history of its run",
    after: "\
The commands of a script, one a line (a line that begins with # says nothing):\n  \
replicas N [CALLS [MESSAGES]]  how many there are; the first command\n  \
reads full, reads short        whether each read writes back\n  \
votes V .. ask A put P         quorums by votes; majorities if missing\n  \
join CLIENT                    a client joins\n  \
invoke CLIENT read KEY         it begins a read\n  \
invoke CLIENT write KEY VALUE  it begins a write\n  \
send CLIENT REPLICA            it sends its request, as the next message\n  \
deliver M, lose M, repeat M    what becomes of a copy of message M\n  \
respond CLIENT                 it responds, where it has its answer\n  \
stop client C                  for good\n  \
stop replica R, start replica R\n  \
finish CLIENT                  the steps that complete its call\n  \
random SEED COUNT              up to COUNT random steps\n\
SCRIPT may be /dev/stdin, for what is piped in.\n\n\
Writes a history file, for `abd justify` and `abd check`. A message on standard error says which line was refused and \
why, and how many random steps were taken.\nExit status: 0 written, 2 usage, 3 the script can't be opened or has a \
fault, 4 memory or a device.\n\nExample: abd simulate examples/new_then_old.script",
};

/// Of the option `--most` of `abd trace`.
pub const LINES: &str =
    "How many lines are told, 0 to 4,294,967,295 [default: 10000]; with --draw how many steps are drawn, 10,000 at \
most [default: 1000]";

/// Of the option `--draw`.
pub const MESSAGES: &str =
    "Write a page of HTML: a diagram of the messages, and the history's pictures";

/// Of `abd trace`.
pub const TRACE: CommandHelp = CommandHelp {
    about: "Run a script of calls and faults, and tell each step of its run, or draw its messages",
    after: "\
Prints one line a step: the script's line, who took the step, and what came of it, or why it was refused. The \
steps are those of `abd simulate`, whose help says the commands of a script; those of `finish` and `random` stand \
below the line of their command, and a line says how many were taken. A last line says how many lines were left out, \
if some were.\n\nWith --draw it writes one page of HTML, for any browser: time goes down, a row a step, with a line \
for each client and each replica, an arrow for each message, and what each replica comes to hold; below stand those \
lines, and the pictures of the history of the run, as `abd draw` makes them without ORDERS. SCRIPT may be \
/dev/stdin, for what is piped in.\nExit status: 0 told, 2 usage, 3 the script can't be opened or has a fault, 4 \
memory or a device.\n\n\
Examples:\n  abd trace examples/new_then_old.script\n  abd trace examples/new_then_old.script --draw > page.html",
};

//! What a command line asks for.
use crate::lines::Lines;
use load::Load;
use parallel_keys::Workers;

/// What the words of `abd check` ask for.
#[derive(Clone, Copy, Debug, PartialEq, Eq)]
pub struct CheckAsked<'a> {
    pub history: &'a str,
    pub orders: &'a str,
    /// How many threads check the orders.
    pub workers: Workers,
    /// The form of the lines that are printed.
    pub form: Lines,
}

/// What the words of `abd decide` ask for.
#[derive(Debug, Drop)]
pub struct DecideAsked<'a> {
    pub history: &'a str,
    /// The keys that alone are decided, in the order in which they are named; each key if none is.
    pub keys: Vec<&'a str>,
    /// How many keys that aren't atomic are explained: 10,000 at most.
    pub most: u16,
    /// The form of the lines that are printed.
    pub form: Lines,
}

/// The keys that the words of `abd explain` or `abd draw` ask for.
#[derive(Clone, Copy, Debug, PartialEq, Eq)]
pub struct KeysAsked<'a> {
    pub history: &'a str,
    /// Without orders the tags of the calls are judged.
    pub orders: Option<&'a str>,
    /// The key that alone is explained or drawn, if one is named.
    pub key: Option<&'a str>,
    /// How many refused keys are explained, or how many keys have a picture: 10,000 at most.
    pub most: u16,
}

/// What orders are made by, and keys judged by that are given none.
#[derive(Clone, Copy, Debug, PartialEq, Eq)]
pub enum By {
    /// The tags of the calls.
    Tags,
    /// The values of the calls.
    Values,
}

/// What the words of `abd justify` ask for.
#[derive(Clone, Copy, Debug, PartialEq, Eq)]
pub struct JustifyAsked<'a> {
    pub history: &'a str,
    /// What the orders are made by.
    pub by: By,
    /// Whether orders by tags go unchecked, and keys without an order are left out.
    pub unchecked: bool,
}

/// What the words of `abd draw` ask for.
#[derive(Clone, Copy, Debug, PartialEq, Eq)]
pub struct DrawAsked<'a> {
    pub keys: KeysAsked<'a>,
    /// What keys are judged by; with orders these.
    pub by: By,
    /// How many calls of a key are shown, 1 to 10,000.
    pub calls: u16,
    /// The number of the call around which calls are shown, if one is given.
    pub around: Option<u32>,
    /// Whether all keys have one picture.
    pub whole: bool,
}

/// What the words of `abd monitor` ask for.
#[derive(Clone, Copy, Debug, PartialEq, Eq)]
pub struct MonitorAsked<'a> {
    /// The file whose rows are judged; standard input if none is named.
    pub history: Option<&'a str>,
    /// Whether the other keys are judged on once a key is refused.
    pub all: bool,
    /// A read is given up once it was pending for more than so many rows.
    pub give_up: u32,
    /// The form of what is printed.
    pub form: Lines,
}

/// What the words of `abd split` ask for.
#[derive(Clone, Copy, Debug, PartialEq, Eq)]
pub struct SplitAsked<'a> {
    /// The file whose rows are shared out; standard input if none is named.
    pub history: Option<&'a str>,
    /// How many pieces there are, 1 to 1,000.
    pub parts: u16,
    /// The folder of the pieces.
    pub into: &'a str,
}

/// Which histories `abd run` writes.
#[derive(Clone, Copy, Debug, PartialEq, Eq)]
pub enum Shown {
    /// That of one hall.
    Hall(u8),
    /// Those of all halls, by hall.
    All,
}

/// What the words of `abd run` ask for.
#[derive(Clone, Copy, Debug, PartialEq, Eq)]
pub struct RunAsked {
    /// The load.
    pub load: Load,
    /// Which of its histories are written.
    pub shown: Shown,
}

/// What a command line asks for.
#[derive(Debug, Drop)]
pub enum Command<'a> {
    /// To check the orders of a history's keys, and print a line for each.
    Check(CheckAsked<'a>),
    /// To decide by the values alone whether there are orders of a history's keys.
    Decide(DecideAsked<'a>),
    /// To draw the calls of keys, with the points of their orders or of the orders that their tags make.
    Draw(DrawAsked<'a>),
    /// To say why orders, or without them tags, are refused.
    Explain(KeysAsked<'a>),
    /// To make the orders of a history's keys, by its tags or by its values.
    Justify(JustifyAsked<'a>),
    /// To judge the rows of a history while they come.
    Monitor(MonitorAsked<'a>),
    /// To run a script and write the history of its run.
    Simulate { script: &'a str },
    /// To write a history as several, each with whole keys.
    Split(SplitAsked<'a>),
    /// To run a script and tell the steps of its run, in so many lines at most.
    Trace { script: &'a str, most: u32 },
    /// To run a script and write a page of its run, with so many steps drawn, 10,000 at most.
    TracePage { script: &'a str, most: u32 },
    /// To run a store under a load and write its history.
    Run(RunAsked),
}

/// Why a command line asks for no command.
#[derive(Debug, Drop)]
pub enum Usage {
    /// It asks for help, which is this text.
    Help(String),
    /// It asks for the program's version, which is this text.
    Version(String),
    /// It has none of the forms; the text says why, and what they are.
    Fault(String),
    /// Want of memory.
    Memory,
}

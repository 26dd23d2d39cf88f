//! What rows are.
use crate::gates::Manner;
use crate::shape::{PLAIN, Shape};
use crate::steps::Step;
use node_threads::JoinError;

/// A row.
#[derive(Clone, Copy)]
pub struct Row {
    /// What it shows.
    pub name: &'static str,
    /// Its store.
    pub shape: Shape,
    /// Another store, if it needs one.
    pub other: Option<Shape>,
    /// What the gates of both do.
    pub manner: Manner,
    /// At how many places, from the first on, the gate holds somebody, each time in a new store.
    pub places: u64,
    /// The clients that join first, in order.
    pub clients: &'static [Client],
    /// The steps before threads start.
    pub opening: &'static [Step],
    /// The steps of each thread, and how many seats each has.
    pub threads: &'static [&'static [Step]],
    pub each: usize,
    /// The steps after the threads have ended.
    pub closing: &'static [Step],
    /// What comes of closing the store, with all seats.
    pub end: End,
}

/// A client that joins a store.
#[derive(Clone, Copy)]
pub struct Client {
    /// Whether it joins the other store.
    pub is_there: bool,
    /// Its name.
    pub name: u32,
    /// Why it can't, if it can't.
    pub error: Option<JoinError>,
}

/// Client 1.
pub const ONE: Client = Client {
    is_there: false,
    name: 1,
    error: None,
};

/// Client 2.
pub const TWO: Client = Client { name: 2, ..ONE };

/// Client 1 of the other store.
pub const OTHER_ONE: Client = Client {
    is_there: true,
    ..ONE
};

/// What comes of closing a store.
#[derive(Clone, Copy)]
pub enum End {
    /// It leaves for each key an order that is one of its calls.
    Closes,
    /// So it does, and the gate has let so many parcels go by then.
    ClosesAfter(u64),
    /// So it does, and the record of its only hall is the invocation of one call.
    LeavesCall,
    /// It isn't closed, since a seat is of another.
    Mismatches,
}

/// A row in which client 1 joins and does nothing.
pub const QUIET: Row = Row {
    name: "",
    shape: PLAIN,
    other: None,
    manner: Manner::Open,
    places: 1,
    clients: &[ONE],
    opening: &[],
    threads: &[],
    each: 0,
    closing: &[],
    end: End::Closes,
};

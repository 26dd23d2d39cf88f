//! A part with the places of its calls' rows.
ghost use Rattle.std.specs.Prelude.{◌≡◌, ◌<◌, Some, length, slice_get};
ghost use Rattle.recorder.specs.declared.part.Call.{Call};
ghost use Rattle.recorder.specs.Parts.{IsSequence};
ghost use Rattle.value_order.specs.Placed.{ArePlacesOf};

use recorder::{CallState, Part};
use std::marker::Model;
use tag::OpId;

/// The places of a call's rows.
#[derive(Clone, Copy)]
pub(crate) struct Places {
    pub(crate) invoked: u32,
    pub(crate) response: Option<u32>,
}

/// The places of the rows of the call at that index.
pub(crate) fn places_of(part: &Part<'_>, index: usize) -> Places
    requires { index < length part.now }
    ensures { (call : Call) × (slice_get part.now index ≡ Some call) × ArePlacesOf call result }
{
    let state = part.state(index);
    Places {
        invoked: state.invoked,
        response: state.response,
    }
}

/// What holds of every part.
pub(crate) fn attest(part: &Part<'_>)
    ensures { IsSequence part.now }
{
    let _ = part.len();
}

/// The index as a number of 32 bits: a part has no more calls than they have numbers.
pub(crate) fn short_index(part: &Part<'_>, index: usize) -> u32
    requires { index < length part.now }
    ensures { result ≡ index }
{
    attest(part);
    let _ = part.op(index);
    index as u32
}

/// A part with the places of its calls' rows beside it.
///
/// A history has the calls of one key far apart, so each pass over their states would wait for memory.
#[derive(Drop)]
pub(crate) struct PlacedPart<'p, 'h> {
    part: &'p Part<'h>,
    places: Vec<Places>,
}

impl<'p, 'h> Model for PlacedPart<'p, 'h> {
    ghost use Rattle.std.specs.Prelude.{List};
    ghost use Rattle.recorder.specs.declared.part.Call.{Call};

    ghost Value = { List Call };

    ghost use Rattle.value_order.specs.Placed.{ArePlaces};

    ghost view = { λ p. p.part.now };

    ghost invariant = { λ p. ArePlaces p.part.now p.places.items };
}

impl<'p, 'h> PlacedPart<'p, 'h> {
    ghost use Rattle.recorder.specs.Parts.{IsSequence};
    ghost use Rattle.recorder.specs.States.{IsStateOf};
    ghost use Rattle.value_order.specs.Placed.{ArePlaces};

    /// The part, with these places.
    pub(crate) fn new(part: &'p Part<'h>, places: Vec<Places>) -> PlacedPart<'p, 'h>
        requires { ArePlaces part.now places.items }
        ensures { result ≡ part.now }
    {
        PlacedPart { part, places }
    }

    /// What holds of every part.
    pub(crate) fn attest(&self)
        ensures { IsSequence self.now }
    {
        attest(self.part);
    }

    /// How many calls there are.
    pub(crate) fn len(&self) -> usize
        ensures count { result ≡ length self.now }
        ensures sequence { IsSequence self.now }
    {
        self.part.len()
    }

    /// The number of the call at that index.
    pub(crate) fn op(&self, index: usize) -> OpId
        requires { index < length self.now }
        ensures { (call : Call) × (slice_get self.now index ≡ Some call) × (result ≡ call.op) }
    {
        self.part.op(index)
    }

    /// The call at that index without its texts.
    pub(crate) fn state(&self, index: usize) -> CallState
        requires { index < length self.now }
        ensures { (call : Call) × (slice_get self.now index ≡ Some call) × IsStateOf call result }
    {
        self.part.state(index)
    }

    /// The places of the rows of the call at that index.
    pub(crate) fn places(&self, index: usize) -> Places
        requires { index < length self.now }
        ensures { (call : Call) × (slice_get self.now index ≡ Some call)
            × ArePlacesOf call result }
    {
        self.places[index]
    }

    /// The index as a number of 32 bits.
    pub(crate) fn short_index(&self, index: usize) -> u32
        requires { index < length self.now }
        ensures { result ≡ index }
    {
        short_index(self.part, index)
    }
}

//! The first item of a list with some name, found and ended.
ghost use Rattle.std.specs.Prelude.{Bool, ◌≡◌, ◌<◌, IfSome, length};
ghost use Rattle.std.specs.List.{position};
ghost use Rattle.message_scenes.specs.Arrows.{ended, is_under_way};
ghost use Rattle.message_scenes.specs.Calls.{closed, is_of_call, is_pending_of};
ghost use Rattle.message_scenes.specs.Lists.{change_first};
ghost use Rattle.message_scenes.specs.Replicas.{is_down_time_of, over};

use crate::arrows::{Arrow, ArrowEnd};
use crate::calls::{CallBar, CallEnd};
use crate::replicas::DownTime;
use tag::{ClientId, OpId, ReplicaId};

/// What a diagram shows by a name, which several items of a list may have.
pub(crate) trait Named<N: Copy> {
    ghost is_of: { N → Self → Bool };

    /// Whether it is that of the name.
    fn is_of(&self, name: N) -> bool
        ensures { result ≡ is_of name self.now };
}

impl Named<OpId> for CallBar {
    ghost is_of = { is_of_call };

    /// Whether it is that of the call.
    fn is_of(&self, op: OpId) -> bool {
        self.call.0 == op.0
    }
}

impl Named<ClientId> for CallBar {
    ghost is_of = { is_pending_of };

    /// Whether it is that of a pending call of the client.
    fn is_of(&self, client: ClientId) -> bool {
        self.client == client && self.end.is_open()
    }
}

impl Named<u32> for Arrow {
    ghost is_of = { is_under_way };

    /// Whether it is that of a copy of the flight that is under way.
    fn is_of(&self, flight: u32) -> bool {
        self.flight == flight && self.end.is_open()
    }
}

impl Named<ReplicaId> for DownTime {
    ghost is_of = { is_down_time_of };

    /// Whether it is the replica's, and isn't over.
    fn is_of(&self, replica: ReplicaId) -> bool {
        self.replica == replica && self.starts.is_none()
    }
}

/// What ends at a row.
pub(crate) trait Ending {
    type End: Drop;

    ghost ended: { Self.End → Self → Self };

    /// Ends it.
    fn end(&mut self, end: Self::End)
        ensures { self.new ≡ ended end self.old };
}

impl Ending for Arrow {
    type End = ArrowEnd;

    ghost ended = { ended };

    fn end(&mut self, end: ArrowEnd) {
        self.end = end;
    }
}

impl Ending for CallBar {
    type End = CallEnd;

    ghost ended = { closed };

    fn end(&mut self, end: CallEnd) {
        self.end = end;
    }
}

impl Ending for DownTime {
    type End = usize;

    ghost ended = { over };

    fn end(&mut self, row: usize) {
        self.starts = Some(row);
    }
}

/// The place of the first item of that name.
fn position_of<N: Copy, T: Named<N>>(items: &[T], name: N) -> Option<usize>
    ensures { result ≡ position (T.is_of name) items.now }
{
    items.iter().position(|item| item.is_of(name))
}

/// The same, which is a place of the list.
pub(crate) fn first_of<N: Copy, T: Named<N>>(items: &[T], name: N) -> Option<usize>
    ensures place { result ≡ position (T.is_of name) items.now }
    ensures bound { IfSome result (λ k. k < length items.now) }
{
    position_of(items, name)
}

/// Ends the first item of that name, if there is one.
pub(crate) fn end_first<N: Copy, T: Named<N> + Ending>(items: &mut [T], name: N, end: T::End)
    ensures { items.new ≡ change_first (T.is_of name) (T.ended end) items.old }
{
    match first_of(items, name) {
        Some(k) => items[k].end(end),
        None => {}
    }
}

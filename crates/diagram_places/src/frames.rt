//! Where what has four sides stands: parts of bars, down times, bands and curtains.
ghost use Rattle.std.specs.Prelude.{◌≡◌};
ghost use Rattle.labels.specs.Places.{IsNear, IsNearFrame};
ghost use Rattle.diagram_places.specs.Frames.{band, bottom_of, curtain_frame, frame_of, piece};
ghost use Rattle.diagram_places.specs.Frames.{up_at, width_of};
ghost use Rattle.diagram_places.specs.Layout.{HasClientsInOrder};

use crate::layout::{client_x, down, replica_x, replicas_of, rows_of};
use crate::sizes::{
    BAND_BOTTOM, BAND_TOP, BAR_LEFT, BAR_RIGHT, BOTTOM, CURTAIN_TOP, DOWN_LEFT, DOWN_RIGHT, MOMENT,
    RIGHT, STEP_LEFT,
};
use labels::Frame;
use message_scenes::{CallEnd, DownTime, MessageScene};
use tag::ClientId;

/// How wide a diagram is.
pub fn width_of(scene: &MessageScene) -> u64
    ensures width { result ≡ width_of scene.now }
    ensures near { IsNear result }
{
    replica_x(scene, RIGHT, replicas_of(scene))
}

/// Where a bar of that end ends, down.
pub fn bottom_of(scene: &MessageScene, end: &CallEnd) -> u64
    ensures bottom { result ≡ bottom_of scene.now end.now }
    ensures near { IsNear result }
{
    match end {
        CallEnd::Answered { row, .. } => down(MOMENT, *row),
        CallEnd::Stopped(row) => down(MOMENT, *row),
        CallEnd::Open => down(MOMENT, rows_of(scene)),
    }
}

/// A piece of the client's lifeline.
pub fn piece(scene: &MessageScene, client: ClientId, top: u64, bottom: u64) -> Frame
    requires order { HasClientsInOrder scene.now }
    requires top { IsNear top }
    requires bottom { IsNear bottom }
    ensures piece { result ≡ piece scene.now client top bottom }
    ensures near { IsNearFrame result }
{
    Frame {
        left: client_x(scene, BAR_LEFT, client),
        right: client_x(scene, BAR_RIGHT, client),
        top,
        bottom,
    }
}

/// Where a down time that so ends ends, down.
fn up_at(scene: &MessageScene, starts: Option<usize>) -> u64
    ensures { result ≡ up_at scene.now starts }
{
    match starts {
        Some(row) => down(MOMENT, row),
        None => down(MOMENT, rows_of(scene)),
    }
}

/// Where the down time stands.
pub fn frame_of(scene: &MessageScene, time: &DownTime) -> Frame
    ensures { result ≡ frame_of scene.now time.now }
{
    Frame {
        left: replica_x(scene, DOWN_LEFT, time.replica.get()),
        right: replica_x(scene, DOWN_RIGHT, time.replica.get()),
        top: down(MOMENT, time.stops),
        bottom: up_at(scene, time.starts),
    }
}

/// A band over all columns, in the row of that index.
pub fn band(scene: &MessageScene, index: usize) -> Frame
    ensures { result ≡ band scene.now index }
{
    Frame {
        left: STEP_LEFT,
        right: width_of(scene),
        top: down(BAND_TOP, index),
        bottom: down(BAND_BOTTOM, index),
    }
}

/// What the curtain of the row hides.
pub fn curtain_frame(scene: &MessageScene, row: usize) -> Frame
    ensures { result ≡ curtain_frame scene.now row }
{
    Frame {
        left: 0,
        right: width_of(scene),
        top: down(CURTAIN_TOP, row),
        bottom: down(BOTTOM, rows_of(scene)),
    }
}

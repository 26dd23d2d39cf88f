//! From where to where arrows go, and where what they ask or tell stands.
ghost use Rattle.std.specs.Prelude.{◌≡◌};
ghost use Rattle.labels.specs.Places.{IsNear};
ghost use Rattle.diagram_places.specs.Layout.{HasClientsInOrder};
ghost use Rattle.diagram_places.specs.Ways.{IsNearWay, client_side, end_x, end_y, halfway};
ghost use Rattle.diagram_places.specs.Ways.{is_request, label_distance, label_x, receiver_x};
ghost use Rattle.diagram_places.specs.Ways.{replica_side, sender_x, waiting_x, way_of};

use crate::layout::{client_x, down, replica_x};
use crate::sizes::{
    CLIENT_EDGE, CLIENT_WAIT, MOMENT, NEAREST, REPLICA_EDGE, REPLICA_WAIT, ROW, STUB,
};
use labels::Way;
use message_scenes::{Arrow, ArrowEnd, MessageScene};
use network::Message;

/// Whether the message is a request.
pub fn is_request(message: &Message) -> bool
    ensures { result ≡ is_request message.now }
{
    match message {
        Message::ToReplica(_, _) => true,
        Message::ToClient(_, _) => false,
    }
}

/// Where the arrow touches the lifeline of its client.
fn client_side(scene: &MessageScene, arrow: &Arrow) -> u64
    requires { HasClientsInOrder scene.now }
    ensures side { result ≡ client_side scene.now arrow.now }
    ensures near { IsNear result }
{
    client_x(scene, CLIENT_EDGE, arrow.client)
}

/// Where the arrow touches the lifeline of its replica.
fn replica_side(scene: &MessageScene, arrow: &Arrow) -> u64
    ensures side { result ≡ replica_side scene.now arrow.now }
    ensures near { IsNear result }
{
    replica_x(scene, REPLICA_EDGE, arrow.replica.get())
}

/// The lifelines of its sender and of its receiver.
fn sides(scene: &MessageScene, arrow: &Arrow) -> (u64, u64)
    requires { HasClientsInOrder scene.now }
    ensures sender { result.0 ≡ sender_x scene.now arrow.now }
    ensures receiver { result.1 ≡ receiver_x scene.now arrow.now }
    ensures sender_near { IsNear result.0 }
    ensures receiver_near { IsNear result.1 }
{
    let (client, replica) = (client_side(scene, arrow), replica_side(scene, arrow));
    if is_request(&arrow.message) {
        (client, replica)
    } else {
        (replica, client)
    }
}

/// Halfway between its lifelines.
fn halfway(scene: &MessageScene, arrow: &Arrow) -> u64
    requires { HasClientsInOrder scene.now }
    ensures halfway { result ≡ halfway scene.now arrow.now }
    ensures near { IsNear result }
{
    (client_side(scene, arrow) + replica_side(scene, arrow)) / 2
}

/// A little way from the lifeline of its sender.
fn waiting_x(scene: &MessageScene, arrow: &Arrow) -> u64
    requires { HasClientsInOrder scene.now }
    ensures waits { result ≡ waiting_x scene.now arrow.now }
    ensures near { IsNear result }
{
    if is_request(&arrow.message) {
        client_x(scene, CLIENT_WAIT, arrow.client)
    } else {
        replica_x(scene, REPLICA_WAIT, arrow.replica.get())
    }
}

/// Where it ends, across.
fn end_x(scene: &MessageScene, arrow: &Arrow) -> u64
    requires { HasClientsInOrder scene.now }
    ensures ends { result ≡ end_x scene.now arrow.now.end arrow.now }
    ensures near { IsNear result }
{
    match arrow.end {
        ArrowEnd::Arrives(_) => sides(scene, arrow).1,
        ArrowEnd::Stale(_) => sides(scene, arrow).1,
        ArrowEnd::Lost(_) => halfway(scene, arrow),
        ArrowEnd::Open => waiting_x(scene, arrow),
    }
}

/// Where it ends, down.
fn end_y(begins: usize, end: ArrowEnd) -> u64
    ensures ends { result ≡ end_y begins end }
    ensures near { IsNear result }
{
    match end {
        ArrowEnd::Arrives(row) => down(MOMENT, row),
        ArrowEnd::Stale(row) => down(MOMENT, row),
        ArrowEnd::Lost(row) => down(MOMENT, row),
        ArrowEnd::Open => down(STUB, begins),
    }
}

/// From where to where it goes.
pub fn way_of(scene: &MessageScene, arrow: &Arrow) -> Way
    requires { HasClientsInOrder scene.now }
    ensures way { result ≡ way_of scene.now arrow.now }
    ensures near { IsNearWay result }
{
    Way {
        x1: sides(scene, arrow).0,
        y1: down(MOMENT, arrow.begins),
        x2: end_x(scene, arrow),
        y2: end_y(arrow.begins, arrow.end),
    }
}

/// How far from its begin the middle of what it asks or tells stands.
fn label_distance(way: Way) -> u64
    requires { IsNearWay way }
    ensures distance { result ≡ label_distance way }
    ensures near { IsNear result }
{
    let far = way.x2.saturating_sub(way.x1) + way.x1.saturating_sub(way.x2);
    let rows = way.y2.saturating_sub(way.y1) / ROW;
    (far / 2 / rows.max(1)).max(NEAREST)
}

/// The middle of what it asks or tells.
pub fn label_x(request: bool, way: Way) -> u64
    requires { IsNearWay way }
    ensures { result ≡ label_x request way }
{
    let distance = label_distance(way);
    if request {
        way.x1 + distance
    } else {
        way.x1.saturating_sub(distance)
    }
}

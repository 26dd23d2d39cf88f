//! Where a diagram shows what, in pixels.
ghost use Rattle.std.specs.Prelude.{◌≡◌, ◌≤◌, length};
ghost use Rattle.std.specs.List.Sorted.{IsStrictlyIncreasing};
ghost use Rattle.tag.specs.Limits.{replica_limit};
ghost use Rattle.labels.specs.Places.{IsNear};
ghost use Rattle.diagram_places.specs.Layout.{HasClientsInOrder, across, client_x, down};
ghost use Rattle.diagram_places.specs.Layout.{names_below, replica_x, replicas_of, rows_of};

use crate::sizes::{COLUMN, ROW};
use labels::pixels;
use message_scenes::MessageScene;
use tag::ClientId;

/// So far down in that row, from its first one.
pub fn down(start: u64, row: usize) -> u64
    ensures down { result ≡ down start row }
    ensures near { IsNear result }
{
    pixels(start, row, ROW)
}

/// So far right in that column, from the first one.
fn across(start: u64, column: usize) -> u64
    ensures across { result ≡ across start column }
    ensures near { IsNear result }
{
    pixels(start, column, COLUMN)
}

/// How many of the names are smaller.
fn names_below(names: &[ClientId], name: ClientId) -> usize
    requires { IsStrictlyIncreasing names.now }
    ensures count { result ≡ names_below names.now name }
    ensures bound { result ≤ length names.now }
{
    names.partition_point(|other| other.get() < name.get())
}

/// So far right in the client's column: the start is that of the first one.
pub fn client_x(scene: &MessageScene, start: u64, name: ClientId) -> u64
    requires { HasClientsInOrder scene.now }
    ensures across { result ≡ client_x scene.now start name }
    ensures near { IsNear result }
{
    across(start, names_below(&scene.clients, name))
}

/// So far right in the column of the replica of that number, which stands after the clients.
pub fn replica_x(scene: &MessageScene, start: u64, number: u8) -> u64
    ensures across { result ≡ replica_x scene.now start number }
    ensures near { IsNear result }
{
    across(start, scene.clients.len() + usize::from(number))
}

/// How many replicas there are.
pub fn replicas_of(scene: &MessageScene) -> u8
    ensures count { result ≡ replicas_of scene.now }
    ensures most { result ≤ replica_limit }
{
    scene.quorums.replicas()
}

/// How many rows there are.
pub fn rows_of(scene: &MessageScene) -> usize
    ensures { result ≡ rows_of scene.now }
{
    scene.rows.len()
}

//! Laws of places, each the contract of a function that does nothing.
ghost use Rattle.std.specs.Prelude.{ℕ, ◌≡◌, ◌<◌};
ghost use Rattle.script_runs.specs.declared.command.Script.{Script};
ghost use Rattle.world_steps.specs.declared.system.System.{System};
ghost use Rattle.message_scenes.specs.Scenes.{IsSceneOf};
ghost use Rattle.message_scenes.specs.declared.scene.MessageScene.{MessageScene};
ghost use Rattle.message_scenes.specs.declared.arrows.Arrow.{Arrow};
ghost use Rattle.labels.specs.Places.{farthest};
ghost use Rattle.diagram_places.specs.declared.sizes.TheConstants.{CLIENT, COLUMN, REPLICA, ROW};
ghost use Rattle.diagram_places.specs.Edges.{HasClientEdges, HasReplicaEdges};
ghost use Rattle.diagram_places.specs.Frames.{HidesRowsAfter};
ghost use Rattle.diagram_places.specs.Layout.{HasClientsInOrder, HasColumns, across, client_x};
ghost use Rattle.diagram_places.specs.Layout.{down, replica_x};
ghost use Rattle.diagram_places.specs.Ways.{GoesFromRowToRow};

/// The scene of a script's run has its clients in order, as a diagram needs it.
pub fn a_scene_has_clients_in_order()
    ensures { (script : Script) (most : ℕ) (last : System) (scene : MessageScene)
        → IsSceneOf script most last scene → HasClientsInOrder scene }
{}

/// Each client has a column of its own: that of its index among the clients.
pub fn each_client_has_its_column()
    ensures { (scene : MessageScene) → HasClientsInOrder scene → HasColumns scene }
{}

/// An arrow goes from the row where its copy is sent to the row where it arrives or is lost, and
/// from the lifeline of its sender to that of its receiver.
pub fn an_arrow_goes_from_row_to_row()
    ensures { (scene : MessageScene) (arrow : Arrow) → GoesFromRowToRow scene arrow }
{}

/// A later row stands below an earlier one, unless both are at the farthest place.
pub fn rows_go_down()
    ensures rows { (start i j : ℕ) → i < j → down start j < farthest
        → down start i < down start j }
    ensures height { 0 < ROW }
{}

/// The curtain of a row hides the rows after it, each as a whole, and none up to it.
pub fn a_curtain_hides_the_rows_after_its_own()
    ensures { (scene : MessageScene) (row : ℕ) → HidesRowsAfter scene row }
{}

/// Columns stand from left to right, those of the replicas after those of the clients, unless they
/// are at the farthest place.
pub fn columns_go_right()
    ensures columns { (start i j : ℕ) → i < j → across start j < farthest
        → across start i < across start j }
    ensures replicas { (scene : MessageScene) (name number : ℕ)
        → replica_x scene REPLICA number < farthest
        → client_x scene CLIENT name < replica_x scene REPLICA number }
    ensures width { 0 < COLUMN }
{}

/// Arrows begin and end within ten pixels of the lifelines, and so do the sides of bars and of down
/// times.
pub fn edges_are_near_their_lifelines()
    ensures clients { (scene : MessageScene) (name : ℕ) → HasClientEdges scene name }
    ensures replicas { (scene : MessageScene) (number : ℕ) → HasReplicaEdges scene number }
{}

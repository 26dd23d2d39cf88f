//! Laws of the tag order, each the contract of a function that does nothing.
ghost use Rattle.std.specs.Prelude.{◌≡◌, List};
ghost use Rattle.tag.specs.declared.numbers.OpId.{OpId};
ghost use Rattle.recorder.specs.declared.part.Call.{Call};
ghost use Rattle.recorder.specs.Parts.{IsSequence};
ghost use Rattle.recorder.specs.Orders.{IsOrder, IsLinearizable};
ghost use Rattle.recorder.specs.Sound.{TagSound, IsByTag};
ghost use Rattle.witness_order.specs.Notes.{AllNoted};

/// The tag order of a part is one list.
pub fn the_tag_order_is_one_list()
    ensures { (part : List Call) (order other : List OpId) → IsSequence part → IsByTag part order
        → IsByTag part other → order ≡ other }
{}

/// A part in which each completed call has a note has a tag order.
pub fn noted_calls_have_a_tag_order()
    ensures { (part : List Call) → IsSequence part → AllNoted part → (order : List OpId)
        × IsByTag part order }
{}

/// Where the tags are sound, the tag order is an order of the part.
pub fn sound_tags_make_an_order()
    ensures { (part : List Call) (order : List OpId) → IsSequence part → TagSound part
        → IsByTag part order → IsOrder part order }
{}

/// A part with sound tags is linearizable.
pub fn sound_tags_are_linearizable()
    ensures { (part : List Call) → IsSequence part → TagSound part → IsLinearizable part }
{}

//! Laws of pictures, each the contract of a function that does nothing.
ghost use Rattle.std.specs.Prelude.{ℕ, ◌≡◌, ◌<◌, ◌≤◌, ◌^◌, ◌⊎◌, ◌++◌, List, [], ◌∷◌, true, Some};
ghost use Rattle.std.specs.Prelude.{decimal, length, slice_get};
ghost use Rattle.labels.specs.Places.{farthest};
ghost use Rattle.labels.specs.Strips.{strip_of};
ghost use Rattle.labels.specs.Texts.{all_differ, none_is_empty};
ghost use Rattle.scenes.specs.declared.scene.Bar.{Bar};
ghost use Rattle.scenes.specs.declared.scene.Dot.{Dot};
ghost use Rattle.scenes.specs.declared.scene.Scene.{Scene};
ghost use Rattle.scenes.specs.Columns.{EndsBefore};
ghost use Rattle.scenes.specs.Scenes.{IsPlaceIn};
ghost use Rattle.pictures.specs.declared.sizes.TheConstants.{DOT_RADIUS, ROW};
ghost use Rattle.pictures.specs.Cuts.{HasStrips};
ghost use Rattle.pictures.specs.Dots.{dot_x, dot_y};
ghost use Rattle.pictures.specs.Frames.{frame_of};
ghost use Rattle.pictures.specs.declared.style.TheConstants.{CLIENT_WORD};
ghost use Rattle.pictures.specs.Layout.{HasRowsInOrder, IsInOrder, across, column_of, column_width};
ghost use Rattle.pictures.specs.Layout.{down, room_of, row_of_place};
ghost use Rattle.pictures.specs.Paper.{CanSayAt, shows_bar};
ghost use Rattle.pictures.specs.Readable.{HasCircle, HasTexts, HasTick, IsWithinReach, call_phrases};
ghost use Rattle.pictures.specs.Readable.{class_names, headings, legend_words, other_words};
ghost use Rattle.pictures.specs.Strips.{client_words};

/// Each tick and each dot of a picture has a row of its own, in the order of their places: a dot
/// stands below the tick of its place, and the dots of one place stand in their order.
pub fn rows_are_in_order()
    ensures { (scene : Scene) → IsInOrder scene → HasRowsInOrder scene }
{}

/// On paper each tick, each dot and each gap stands in one strip of its picture, whole, and in no other.
pub fn each_mark_stands_in_one_strip()
    ensures { (scene : Scene) → IsInOrder scene → HasStrips scene }
{}

/// A strip shows the bars whose texts stand in its rows: at their begin, their note and their answer.
pub fn a_strip_shows_the_bars_of_its_texts()
    ensures { (scene : Scene) (bar : Bar) (place : ℕ) → IsInOrder scene → CanSayAt scene bar place
        → shows_bar scene (strip_of (row_of_place scene place)) bar ≡ true }
{}

/// A later row stands below an earlier one, unless both are at the farthest place.
pub fn rows_go_down()
    ensures rows { (start i j : ℕ) → i < j → down start j < farthest
        → down start i < down start j }
    ensures height { 0 < ROW }
{}

/// Columns stand from left to right, unless they are at the farthest place, and a bar ends before
/// the bars of later columns begin.
pub fn columns_go_right()
    ensures columns { (scene : Scene) (start i j : ℕ) → i < j → across scene start j < farthest
        → across scene start i < across scene start j }
    ensures bars { (scene : Scene) (bar next : Bar)
        → column_of scene bar.lane < column_of scene next.lane
        → (frame_of scene next).left < farthest
        → (frame_of scene bar).right < (frame_of scene next).left }
    ensures width { (scene : Scene) → 0 < column_width scene }
{}

/// Of two bars of which one ends before the other begins the one stands above the other, unless this
/// is at the farthest place: so bars of one column don't touch.
pub fn bars_stand_one_below_another()
    ensures { (scene : Scene) (bar next : Bar) → IsInOrder scene
        → HasTick scene bar → EndsBefore bar next → (frame_of scene next).top < farthest
        → (frame_of scene bar).bottom < (frame_of scene next).top }
{}

/// The dot of a place within its bar stands on the bar: its whole circle lies within the bar's frame,
/// unless that ends at the farthest place.
pub fn a_dot_stands_on_its_bar()
    ensures on { (scene : Scene) (index : ℕ) (dot : Dot) (bar : Bar) → IsInOrder scene
        → slice_get scene.dots.items index ≡ Some dot
        → slice_get scene.bars.items dot.bar ≡ Some bar → IsPlaceIn bar dot.place
        → IsWithinReach (frame_of scene bar)
        → HasCircle (frame_of scene bar) (dot_x scene dot) (dot_y scene index dot) }
    ensures radius { 0 < DOT_RADIUS }
{}

/// The texts of a bar keep to it, as letters of equal width, unless it ends at the farthest place.
pub fn texts_keep_to_their_bar()
    ensures { (scene : Scene) (bar : Bar) → IsWithinReach (frame_of scene bar)
        → HasTexts scene bar }
{}

/// A client is named whole, by its number alone if there is no room for more; of several clients in
/// a column their count is whole, up to 99. So a head has no more letters than its column has room
/// for.
pub fn clients_are_named_whole()
    ensures one { (scene : Scene) (client : ℕ) → client < 2 ^ 32
        → (client_words scene (client ∷ []) ≡ CLIENT_WORD.now ++ decimal client)
        ⊎ (client_words scene (client ∷ []) ≡ decimal client) }
    ensures whole { (scene : Scene) (clients : List ℕ) → length clients < 100
        → length (client_words scene clients) ≤ room_of scene }
{}

/// No two classes have one name, and so it is with what a legend and a table say; and nothing is
/// said without a word.
pub fn names_and_words_differ()
    ensures classes { all_differ class_names ≡ true }
    ensures legend { all_differ legend_words ≡ true }
    ensures headings { all_differ headings ≡ true }
    ensures phrases { all_differ call_phrases ≡ true }
    ensures classes_there { none_is_empty class_names ≡ true }
    ensures legend_there { none_is_empty legend_words ≡ true }
    ensures headings_there { none_is_empty headings ≡ true }
    ensures phrases_there { none_is_empty call_phrases ≡ true }
    ensures others_there { none_is_empty other_words ≡ true }
{}

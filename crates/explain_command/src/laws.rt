//! Laws of explanations, each the contract of a function that does nothing.
ghost use Rattle.std.specs.Prelude.{◌≡◌, ◌≤◌, ℕ, List, [], true};
ghost use Rattle.recorder.specs.declared.order.KeyOrder.{KeyOrder};
ghost use Rattle.recorder.specs.Halls.{RecordedHalls};
ghost use Rattle.file_format.specs.OrderFormat.{AreJoined};
ghost use Rattle.parallel_keys.specs.CheckedKeys.{CheckedKey};
ghost use Rattle.cli.specs.Checks.{IsStatusOf};
ghost use Rattle.cli.specs.declared.status.Status.TheVariants.{Good, Refused};
ghost use Rattle.judged_keys.specs.Files.{HaveKeys};
ghost use Rattle.judged_keys.specs.Judgements.{Judgement, refused_count};
ghost use Rattle.judged_keys.specs.Selected.{is_selected, names_of};
ghost use Rattle.judged_keys.specs.Tellings.{AreFound};
ghost use Rattle.judged_keys.specs.declared.judged.Judged.TheVariants.{Orders, Tags};
ghost use Rattle.judged_keys.specs.declared.selection.Selection.{Selection};
ghost use Rattle.explain_command.specs.SoundTags.{HasSoundTags};

/// Where no selected key is refused for its tags, each of them has sound tags.
pub fn keys_that_are_a_yes_have_sound_tags()
    ensures { (selection : Selection) (histories : RecordedHalls) (keys : List CheckedKey)
        (all : List Judgement) → selection.judged ≡ Tags → HaveKeys histories [] keys
        → AreFound selection keys all → refused_count all ≡ 0
        → (key : List ℕ) → is_selected (names_of selection) key ≡ true
        → HasSoundTags histories.halls key }
{}

/// Where no key is named, no key is refused for its order exactly where `abd check` says yes of all keys.
pub fn orders_are_explained_as_they_are_checked()
    ensures good { (selection : Selection) (histories : RecordedHalls)
        (pieces joined : List KeyOrder) (keys : List CheckedKey) (all : List Judgement)
        → selection.judged ≡ Orders → names_of selection ≡ [] → AreJoined pieces joined
        → HaveKeys histories joined keys → AreFound selection keys all
        → refused_count all ≡ 0 → IsStatusOf histories.halls pieces Good }
    ensures refused { (selection : Selection) (histories : RecordedHalls)
        (pieces joined : List KeyOrder) (keys : List CheckedKey) (all : List Judgement)
        → selection.judged ≡ Orders → names_of selection ≡ [] → AreJoined pieces joined
        → HaveKeys histories joined keys → AreFound selection keys all
        → 1 ≤ refused_count all → IsStatusOf histories.halls pieces Refused }
{}

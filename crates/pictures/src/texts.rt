//! What stands in a bar: what its call does, its note, and what it answers.
ghost use Rattle.std.specs.Prelude.{◌≡◌, ◌++◌, IfOk, OnOk};
ghost use Rattle.markup.specs.Markup.{rendered};
ghost use Rattle.pictures.specs.Layout.{IsInOrder};
ghost use Rattle.pictures.specs.Texts.{fitted_words, if_any, text_at, text_class, text_words};
ghost use Rattle.pictures.specs.Texts.{signs_of, strip_texts, strip_texts_in, texts, texts_in};

use crate::layout::{across, column_of, down, is_shared, room_of, row_of_place};
use crate::marks::place_in;
use crate::sizes::{TEXT_BASE, TEXT_LEFT};
use crate::style::{ANSWERS, DOES, NOTED, NOTES};
use crate::words::{Signs, say_begin, say_end, say_note, say_unless};
use labels::{Spot, append_label};
use recorder::Call;
use scenes::{Bar, Scene};
use std::alloc::Global;
use tag::Memory;

/// A text of a bar.
#[derive(Clone, Copy)]
pub(crate) enum BarText {
    /// The call's number and what it does.
    Begin,
    /// The call's tag.
    Note,
    /// What the call answers.
    Answer,
}

/// The class of such a text.
fn text_class(text: BarText) -> &'static str
    ensures { result.now ≡ text_class text }
{
    match text {
        BarText::Begin => DOES,
        BarText::Note => NOTED,
        BarText::Answer => ANSWERS,
    }
}

/// Adds what such a text says of the call.
fn say_text(
    words: &mut Vec<u8>,
    text: BarText,
    signs: Signs,
    briefly: bool,
    name: &str,
    call: &Call<'_>,
) -> Result<(), Memory>
    ensures { OnOk result (words.new.items
        ≡ words.old.items ++ text_words text signs briefly name.now call.now) }
{
    match text {
        BarText::Begin => say_begin(words, name, call, signs, briefly),
        BarText::Note => {
            say_unless(words, briefly, NOTES)?;
            say_note(words, call.note)
        }
        BarText::Answer => say_end(words, &call.response, briefly),
    }
}

/// What such a text says of the call, briefly if there is no room for it.
fn fitted_words(
    alloc: Global,
    room: u64,
    text: BarText,
    signs: Signs,
    name: &str,
    call: &Call<'_>,
) -> Result<Vec<u8>, Memory>
    ensures { IfOk result
        (λ words. words.items ≡ fitted_words room text signs name.now call.now) }
{
    let mut words = Vec::new(alloc);
    say_text(&mut words, text, signs, false, name, call)?;
    if words.len() as u64 <= room {
        return Ok(words);
    }
    let mut brief = Vec::new(alloc);
    say_text(&mut brief, text, signs, true, name, call)?;
    Ok(brief)
}

/// What is said of the bar's call beside what it is.
fn signs_of(scene: &Scene, faulty: bool, place: Option<usize>, bar: &Bar) -> Signs
    ensures { result ≡ signs_of scene.now faulty place bar.now }
{
    Signs {
        faulty,
        shared: is_shared(scene, column_of(scene, bar.lane)),
        place,
    }
}

/// What the texts of bars say: with which name of a call's key.
#[derive(Clone, Copy)]
pub(crate) struct BarTexts<'a> {
    pub(crate) alloc: Global,
    pub(crate) scene: &'a Scene,
    pub(crate) name: &'a str,
}

impl BarTexts<'_> {
    /// Adds such a text of the call in the row of the place, if there is one.
    fn append_text(
        &self,
        page: &mut Vec<u8>,
        column: usize,
        signs: Signs,
        call: &Call<'_>,
        text: BarText,
        place: Option<usize>,
    ) -> Result<(), Memory>
        requires { IsInOrder self.now.scene.now }
        ensures { OnOk result (page.new.items ≡ page.old.items
            ++ rendered (if_any (text_at self.now.scene.now text column signs
            self.now.name.now call.now) place)) }
    {
        let Some(place) = place else {
            return Ok(());
        };
        let (scene, alloc) = (self.scene, self.alloc);
        let x = across(scene, TEXT_LEFT, column);
        let y = down(TEXT_BASE, row_of_place(scene, place));
        let room = room_of(scene);
        let spot = Spot::new(text_class(text), x, y, room);
        let words = fitted_words(alloc, room, text, signs, self.name, call)?;
        append_label(alloc, page, &spot, &words)
    }

    /// Adds the texts of the call's bar in that column.
    fn append_in(
        &self,
        page: &mut Vec<u8>,
        column: usize,
        signs: Signs,
        bar: &Bar,
        call: &Call<'_>,
    ) -> Result<(), Memory>
        requires { IsInOrder self.now.scene.now }
        ensures { OnOk result (page.new.items ≡ page.old.items ++ rendered
            (texts_in self.now.scene.now column bar.now signs self.now.name.now call.now)) }
    {
        self.append_text(page, column, signs, call, BarText::Begin, Some(bar.begins))?;
        self.append_text(page, column, signs, call, BarText::Note, bar.note)?;
        self.append_text(page, column, signs, call, BarText::Answer, bar.answered)
    }

    /// Adds the texts of the call's bar; the call is at fault or not, and has that place in a refused
    /// order, if any.
    pub(crate) fn append(
        &self,
        page: &mut Vec<u8>,
        bar: &Bar,
        faulty: bool,
        place: Option<usize>,
        call: &Call<'_>,
    ) -> Result<(), Memory>
        requires { IsInOrder self.now.scene.now }
        ensures { OnOk result (page.new.items ≡ page.old.items ++ rendered
            (texts self.now.scene.now bar.now faulty place self.now.name.now call.now)) }
    {
        let column = column_of(self.scene, bar.lane);
        let signs = signs_of(self.scene, faulty, place, bar);
        self.append_in(page, column, signs, bar, call)
    }

    /// Adds the texts of the call's bar in that column that stand in rows of the strip.
    fn append_strip_texts(
        &self,
        page: &mut Vec<u8>,
        strip: usize,
        column: usize,
        signs: Signs,
        bar: &Bar,
        call: &Call<'_>,
    ) -> Result<(), Memory>
        requires { IsInOrder self.now.scene.now }
        ensures { OnOk result (page.new.items ≡ page.old.items ++ rendered
            (strip_texts_in self.now.scene.now strip column bar.now signs
            self.now.name.now call.now)) }
    {
        let scene = self.scene;
        let begins = place_in(scene, strip, Some(bar.begins));
        self.append_text(page, column, signs, call, BarText::Begin, begins)?;
        let note = place_in(scene, strip, bar.note);
        self.append_text(page, column, signs, call, BarText::Note, note)?;
        let answered = place_in(scene, strip, bar.answered);
        self.append_text(page, column, signs, call, BarText::Answer, answered)
    }

    /// Adds the texts of the call's bar that stand in rows of the strip.
    pub(crate) fn append_in_strip(
        &self,
        page: &mut Vec<u8>,
        strip: usize,
        bar: &Bar,
        faulty: bool,
        place: Option<usize>,
        call: &Call<'_>,
    ) -> Result<(), Memory>
        requires { IsInOrder self.now.scene.now }
        ensures { OnOk result (page.new.items ≡ page.old.items ++ rendered
            (strip_texts self.now.scene.now strip bar.now faulty place
            self.now.name.now call.now)) }
    {
        let column = column_of(self.scene, bar.lane);
        let signs = signs_of(self.scene, faulty, place, bar);
        self.append_strip_texts(page, strip, column, signs, bar, call)
    }
}

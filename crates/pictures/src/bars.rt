//! Bars, one for each call.
ghost use Rattle.std.specs.Prelude.{◌≡◌, ◌++◌, OnOk};
ghost use Rattle.markup.specs.Markup.{opening_tag, rendered};
ghost use Rattle.markup.specs.declared.names.Element.TheVariants as tag;
ghost use Rattle.pictures.specs.Layout.{IsInOrder};
ghost use Rattle.pictures.specs.Bars.{bar_attributes, bar_markup, sentence};

use crate::frames::{append_shape, corner_of};
use crate::picture::Picture;
use crate::texts::BarTexts;
use explanations::append_call;
use labels::{IndexedShape, append_title};
use markup::{Attribute, AttributeName, Element, append_closing, append_opening};
use recorder::Call;
use scenes::Bar;
use std::alloc::Global;
use tag::{Key, Memory};

/// The bars of a picture, each if its call and the call's key are known.
#[derive(Clone, Copy)]
pub(crate) struct Bars<'a> {
    pub(crate) alloc: Global,
    pub(crate) picture: &'a Picture<'a>,
}

/// Adds the call's sentence as a title.
fn append_sentence(
    alloc: Global,
    page: &mut Vec<u8>,
    picture: &Picture<'_>,
    key: &Key,
    call: &Call<'_>,
) -> Result<(), Memory>
    ensures { OnOk result
        (page.new.items ≡ page.old.items ++ rendered (sentence picture.now key.now call.now)) }
{
    let mut words = Vec::new(alloc);
    append_call(&mut words, key, &picture.hall, call)?;
    append_title(page, &words)
}

/// Opens the element of the call's bar.
fn open_bar(page: &mut Vec<u8>, picture: &Picture<'_>, call: &Call<'_>) -> Result<(), Memory>
    ensures { OnOk result (page.new.items
        ≡ page.old.items ++ opening_tag tag.G (bar_attributes picture.now call.now)) }
{
    let id = Attribute::Numbered(AttributeName::Id, picture.ids, u64::from(call.op.0));
    let class = Attribute::Words(AttributeName::Class, picture.class_of(call));
    append_opening(page, Element::G, &[id, class])
}

impl IndexedShape for Bars<'_> {
    type Item = Bar;

    ghost can_append = { λ bars index. IsInOrder bars.picture.now.scene.now };

    ghost shape = { λ bars. bar_markup bars.picture.now };

    fn append(&self, page: &mut Vec<u8>, index: usize, item: &Bar) -> Result<(), Memory> {
        let Some(call) = self.picture.call_of(item.call) else {
            return Ok(());
        };
        let Some(key) = self.picture.key_of(&call) else {
            return Ok(());
        };
        open_bar(page, self.picture, &call)?;
        append_sentence(self.alloc, page, self.picture, key, &call)?;
        append_shape(page, self.picture.scene, item, corner_of(&call.action))?;
        let texts = BarTexts {
            alloc: self.alloc,
            scene: self.picture.scene,
            name: self.picture.keys.said_key(key),
        };
        let faulty = self.picture.is_faulty(call.op);
        texts.append(page, item, faulty, self.picture.place_of(index), &call)?;
        append_closing(page, Element::G)
    }
}

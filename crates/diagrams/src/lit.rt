//! The calls and the messages of a diagram, each with what is seen alone of it while it is pointed at
//! or has the focus.
ghost use Rattle.std.specs.Prelude.{◌≡◌, ◌++◌, OnOk};
ghost use Rattle.markup.specs.Markup.{rendered};
ghost use Rattle.diagram_places.specs.Layout.{HasClientsInOrder};
ghost use Rattle.diagrams.specs.Lit.{alone, are_pair, arrives_in, arrow_markup, arrow_of_call};
ghost use Rattle.diagrams.specs.Lit.{bar_markup, bar_of_message, call_of, is_of, lit_call};
ghost use Rattle.diagrams.specs.Lit.{lit_message, other_of_pair};

use crate::arrows::{append_arrow_shape, append_arrow_title, append_in_arrow, arrow_class};
use crate::bars::{action_class, append_bar_shape, append_call_title, append_in_bar};
use crate::items::{open_hidden, open_item};
use crate::style::LIT;
use crate::texts::CallTexts;
use diagram_places::sizes::MOST_CURTAINS;
use diagram_places::{rows_of, way_of};
use labels::{Shape, append_each};
use markup::{Element, append_closing};
use message_scenes::{Arrow, ArrowEnd, CallBar, MessageScene};
use network::Message;
use replica::{Reply, Request};
use std::alloc::Global;
use tag::{Memory, OpId};

/// The calls of a scene.
#[derive(Clone, Copy)]
pub(crate) struct Bars<'a> {
    pub(crate) alloc: Global,
    pub(crate) scene: &'a MessageScene,
}

/// The messages of a scene.
#[derive(Clone, Copy)]
pub(crate) struct Arrows<'a> {
    pub(crate) alloc: Global,
    pub(crate) scene: &'a MessageScene,
}

/// The messages of a call.
#[derive(Clone, Copy)]
struct ArrowsOfCall<'a> {
    alloc: Global,
    scene: &'a MessageScene,
    call: OpId,
}

/// The call of a message.
#[derive(Clone, Copy)]
struct BarOfMessage<'a> {
    scene: &'a MessageScene,
    message: &'a Message,
}

/// The message that answers another one, or that is answered by it.
#[derive(Clone, Copy)]
struct OtherOfPair<'a> {
    alloc: Global,
    scene: &'a MessageScene,
    arrow: &'a Arrow,
}

/// The call that the message belongs to.
fn call_of(message: &Message) -> OpId
    ensures { result ≡ call_of message.now }
{
    match message {
        Message::ToReplica(_, Request::Query { op, .. }) => *op,
        Message::ToReplica(_, Request::Put { op, .. }) => *op,
        Message::ToClient(_, Reply::Held { op, .. }) => *op,
        Message::ToClient(_, Reply::Kept { op, .. }) => *op,
    }
}

/// Whether the message belongs to the call.
fn is_of(call: OpId, message: &Message) -> bool
    ensures { result ≡ is_of call message.now }
{
    call_of(message).0 == call.0
}

/// Whether a copy that so ends arrives in that row.
fn arrives_in(row: usize, end: ArrowEnd) -> bool
    ensures { result ≡ arrives_in row end }
{
    match end {
        ArrowEnd::Arrives(other) => other == row,
        ArrowEnd::Stale(other) => other == row,
        _ => false,
    }
}

/// Whether one of the two answers the other.
fn are_pair(one: &Arrow, other: &Arrow) -> bool
    ensures { result ≡ are_pair one.now other.now }
{
    arrives_in(other.begins, one.end) || arrives_in(one.begins, other.end)
}

impl Shape for ArrowsOfCall<'_> {
    type Item = Arrow;

    ghost can_append = { λ own. HasClientsInOrder own.scene.now };

    ghost shape = { λ own. arrow_of_call own.scene.now own.call };

    fn append(&self, page: &mut Vec<u8>, item: &Arrow) -> Result<(), Memory> {
        if is_of(self.call, &item.message) {
            append_arrow_shape(self.alloc, page, self.scene, item)
        } else {
            Ok(())
        }
    }
}

impl Shape for BarOfMessage<'_> {
    type Item = CallBar;

    ghost can_append = { λ own. HasClientsInOrder own.scene.now };

    ghost shape = { λ own. bar_of_message own.scene.now own.message.now };

    fn append(&self, page: &mut Vec<u8>, item: &CallBar) -> Result<(), Memory> {
        if is_of(item.call, self.message) {
            append_bar_shape(page, self.scene, item)
        } else {
            Ok(())
        }
    }
}

impl Shape for OtherOfPair<'_> {
    type Item = Arrow;

    ghost can_append = { λ own. HasClientsInOrder own.scene.now };

    ghost shape = { λ own. other_of_pair own.scene.now own.arrow.now };

    fn append(&self, page: &mut Vec<u8>, item: &Arrow) -> Result<(), Memory> {
        if are_pair(self.arrow, item) {
            append_arrow_shape(self.alloc, page, self.scene, item)
        } else {
            Ok(())
        }
    }
}

impl Bars<'_> {
    /// Adds what is seen alone of the call, if there aren't too many rows.
    fn append_lit(&self, page: &mut Vec<u8>, bar: &CallBar) -> Result<(), Memory>
        requires { HasClientsInOrder self.now.scene.now }
        ensures { OnOk result (page.new.items ≡ page.old.items
            ++ rendered (alone self.now.scene.now (lit_call self.now.scene.now bar.now))) }
    {
        let Bars { alloc, scene } = *self;
        if rows_of(scene) > MOST_CURTAINS {
            return Ok(());
        }
        open_hidden(page, LIT)?;
        let call = bar.call;
        append_each(page, &ArrowsOfCall { alloc, scene, call }, &scene.arrows)?;
        CallTexts { alloc, scene }.append(page, bar)?;
        append_closing(page, Element::G)
    }
}

impl Shape for Bars<'_> {
    type Item = CallBar;

    ghost can_append = { λ bars. HasClientsInOrder bars.scene.now };

    ghost shape = { λ bars. bar_markup bars.scene.now };

    fn append(&self, page: &mut Vec<u8>, item: &CallBar) -> Result<(), Memory> {
        open_item(page, action_class(&item.action))?;
        append_call_title(self.alloc, page, item)?;
        append_in_bar(page, self.scene, item)?;
        self.append_lit(page, item)?;
        append_closing(page, Element::G)
    }
}

impl Arrows<'_> {
    /// Adds what is seen alone of the message, if there aren't too many rows.
    fn append_lit(&self, page: &mut Vec<u8>, arrow: &Arrow) -> Result<(), Memory>
        requires { HasClientsInOrder self.now.scene.now }
        ensures { OnOk result (page.new.items ≡ page.old.items
            ++ rendered (alone self.now.scene.now (lit_message self.now.scene.now arrow.now))) }
    {
        let Arrows { alloc, scene } = *self;
        if rows_of(scene) > MOST_CURTAINS {
            return Ok(());
        }
        open_hidden(page, LIT)?;
        let message = &arrow.message;
        append_each(page, &BarOfMessage { scene, message }, &scene.calls)?;
        append_each(
            page,
            &OtherOfPair {
                alloc,
                scene,
                arrow,
            },
            &scene.arrows,
        )?;
        append_closing(page, Element::G)
    }
}

impl Shape for Arrows<'_> {
    type Item = Arrow;

    ghost can_append = { λ arrows. HasClientsInOrder arrows.scene.now };

    ghost shape = { λ arrows. arrow_markup arrows.scene.now };

    fn append(&self, page: &mut Vec<u8>, item: &Arrow) -> Result<(), Memory> {
        open_item(page, arrow_class(item))?;
        append_arrow_title(self.alloc, page, item)?;
        append_in_arrow(self.alloc, page, way_of(self.scene, item), item)?;
        self.append_lit(page, item)?;
        append_closing(page, Element::G)
    }
}

//! The page of a script's run.
ghost use Rattle.std.specs.Prelude.{◌≡◌, ◌++◌, IfOk, OnOk};
ghost use Rattle.markup.specs.Markup.{Markup, opening_tag, page_text, rendered};
ghost use Rattle.markup.specs.declared.names.Element.TheVariants as tag;
ghost use Rattle.diagram_places.specs.Layout.{HasClientsInOrder};
ghost use Rattle.judged_keys.specs.Halls.{HasLinesOfEach};
ghost use Rattle.trace_command.specs.TracePages.{IsPageOf, all_styles, left_out};
ghost use Rattle.trace_command.specs.TracePages.{messages_markup, run_markup, steps_line};
ghost use Rattle.trace_command.specs.TracePages.{script_markup, text_box, trace_markup};

use crate::texts::{append_script, append_told};
use crate::words;
use diagrams::{append_diagram, append_diagram_legend, append_diagram_style};
use draw_command::{
    Drawn, add_history_pictures, append_styles, begin_content, begin_page, end_page, title_of,
};
use history_file::NumberedHistories;
use markup::{
    Attribute, AttributeName, Element, append_closing, append_number, append_opening, append_plain,
    append_text,
};
use message_scenes::MessageScene;
use std::alloc::Global;
use tag::Memory;

/// What is drawn of a run: its scene, the words of its script, its trace, and the history that it records.
#[derive(Clone, Copy)]
pub(crate) struct RunShown<'a> {
    pub(crate) scene: &'a MessageScene,
    pub(crate) script: &'a [u8],
    pub(crate) trace: &'a [u8],
    pub(crate) numbered: &'a NumberedHistories,
    pub(crate) drawn: Drawn<'a>,
}

/// Adds the styles.
#[tactic(auto, unfolding(markup::specs::Markup::rendered))]
fn append_all_styles(page: &mut Vec<u8>) -> Result<(), Memory>
    ensures { OnOk result (page.new.items ≡ page.old.items ++ rendered all_styles) }
{
    append_styles(page)?;
    append_diagram_style(page)?;
    append_plain(page, Element::Style, words::STYLE)
}

/// Says how many steps are left out, if any are.
#[tactic(auto, unfolding(markup::specs::Markup::rendered))]
fn append_left_out(page: &mut Vec<u8>, count: u64) -> Result<(), Memory>
    ensures { OnOk result (page.new.items ≡ page.old.items ++ rendered (left_out count)) }
{
    if count == 0 {
        return Ok(());
    }
    append_text(page, words::LEFT_OUT)?;
    append_number(page, count)
}

/// Says how many steps are shown, and how many are left out.
#[tactic(auto, unfolding(markup::specs::Markup::rendered))]
fn append_steps(page: &mut Vec<u8>, scene: &MessageScene) -> Result<(), Memory>
    ensures { OnOk result (page.new.items ≡ page.old.items ++ rendered (steps_line scene.now)) }
{
    let class = Attribute::Words(AttributeName::Class, words::STEPS);
    append_opening(page, Element::P, &[class])?;
    append_text(page, words::STEPS_SHOWN)?;
    append_number(page, scene.rows.len() as u64)?;
    append_left_out(page, scene.omitted)?;
    append_closing(page, Element::P)
}

/// Adds what the signs of a diagram mean, and the diagram of the run's messages.
#[tactic(auto, unfolding(markup::specs::Markup::rendered))]
fn append_messages(alloc: Global, page: &mut Vec<u8>, scene: &MessageScene) -> Result<(), Memory>
    requires { HasClientsInOrder scene.now }
    ensures { OnOk result
        (page.new.items ≡ page.old.items ++ rendered (messages_markup scene.now)) }
{
    append_diagram_legend(page)?;
    append_diagram(alloc, page, scene)
}

/// Opens the box of a text of that name.
#[tactic(auto, unfolding(markup::specs::Markup::rendered))]
fn open_box(page: &mut Vec<u8>, label: &str) -> Result<(), Memory>
    ensures { OnOk result
        (page.new.items ≡ page.old.items ++ opening_tag tag.Pre (text_box label.now)) }
{
    let attributes = [
        Attribute::Words(AttributeName::Role, words::REGION),
        Attribute::Words(AttributeName::AriaLabel, label),
        Attribute::Number(AttributeName::Tabindex, 0),
    ];
    append_opening(page, Element::Pre, &attributes)
}

/// Adds the script.
#[tactic(auto, unfolding(markup::specs::Markup::rendered))]
fn append_script_box(alloc: Global, page: &mut Vec<u8>, script: &[u8]) -> Result<(), Memory>
    ensures { OnOk result
        (page.new.items ≡ page.old.items ++ rendered (script_markup script.now)) }
{
    let class = Attribute::Words(AttributeName::Class, words::SCRIPT);
    append_opening(page, Element::Details, &[class])?;
    append_plain(page, Element::Summary, words::THE_SCRIPT)?;
    open_box(page, words::THE_SCRIPT)?;
    append_script(alloc, page, script)?;
    append_closing(page, Element::Pre)?;
    append_closing(page, Element::Details)
}

/// Adds the trace.
#[tactic(auto, unfolding(markup::specs::Markup::rendered))]
fn append_trace(alloc: Global, page: &mut Vec<u8>, trace: &[u8]) -> Result<(), Memory>
    ensures { OnOk result (page.new.items ≡ page.old.items ++ rendered (trace_markup trace.now)) }
{
    let class = Attribute::Words(AttributeName::Class, words::TOLD);
    append_opening(page, Element::Details, &[class])?;
    append_plain(page, Element::Summary, words::EACH_STEP)?;
    open_box(page, words::EACH_STEP)?;
    append_told(alloc, page, trace)?;
    append_closing(page, Element::Pre)?;
    append_closing(page, Element::Details)
}

/// Adds what is said and shown of the run, and the heading of its history.
#[tactic(auto, unfolding(markup::specs::Markup::rendered))]
fn append_run(
    alloc: Global,
    page: &mut Vec<u8>,
    scene: &MessageScene,
    script: &[u8],
    trace: &[u8],
) -> Result<(), Memory>
    requires { HasClientsInOrder scene.now }
    ensures { OnOk result (page.new.items
        ≡ page.old.items ++ rendered (run_markup scene.now script.now trace.now)) }
{
    append_steps(page, scene)?;
    append_messages(alloc, page, scene)?;
    append_script_box(alloc, page, script)?;
    append_trace(alloc, page, trace)?;
    append_plain(page, Element::H2, words::HISTORY)
}

/// The page of the run; its title is the file of `drawn`.
pub(crate) fn page_of(alloc: Global, shown: &RunShown<'_>) -> Result<Vec<u8>, Memory>
    requires clients { HasClientsInOrder shown.now.scene.now }
    requires lines { HasLinesOfEach shown.now.numbered.now }
    ensures { IfOk result (λ page. (markup : Markup) × IsPageOf shown.now.scene.now
        shown.now.script.now shown.now.trace.now shown.now.numbered.now shown.now.drawn markup
        × (page.items ≡ page_text markup)) }
{
    let mut page = Vec::new(alloc);
    let title = title_of(shown.drawn.file, words::TITLE);
    begin_page(&mut page, title)?;
    append_all_styles(&mut page)?;
    begin_content(&mut page, title)?;
    append_run(alloc, &mut page, shown.scene, shown.script, shown.trace)?;
    add_history_pictures(alloc, &mut page, shown.numbered, shown.drawn)?;
    end_page(&mut page)?;
    Ok(page)
}

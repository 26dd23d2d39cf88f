//! Attributes: a name, and a value.
ghost use Rattle.std.specs.Prelude.{◌≡◌, ◌++◌, codes, decimal, flat_map, map, OnOk};
ghost use Rattle.markup.specs.Escapes.{escaped};
ghost use Rattle.markup.specs.Markup.{all_tenths_text, attribute_of, attribute_text};
ghost use Rattle.markup.specs.Markup.{tenths_text};
ghost use Rattle.markup.specs.Names.{attribute_name};

use crate::escapes::append_text;
use crate::names::AttributeName;
use sentences::{append, append_number};
use tag::Memory;

/// An attribute of an element.
#[derive(Clone, Copy, Debug)]
pub enum Attribute<'a> {
    /// A text, which is escaped.
    Words(AttributeName, &'a str),
    /// A number.
    Number(AttributeName, u64),
    /// A number of tenths, as `12.5` for 125.
    Tenths(AttributeName, u64),
    /// Numbers of tenths, a blank before each: the corners of a line, or a box.
    AllTenths(AttributeName, &'a [u64]),
    /// A text, and a number after it.
    Numbered(AttributeName, &'a str, u64),
}

impl Attribute<'_> {
    fn name(&self) -> AttributeName
        ensures { result ≡ (attribute_of self.now).name }
    {
        match *self {
            Attribute::Words(name, _)
            | Attribute::Number(name, _)
            | Attribute::Tenths(name, _)
            | Attribute::AllTenths(name, _)
            | Attribute::Numbered(name, _, _) => name,
        }
    }
}

/// Adds the number, which no escape changes.
pub(crate) fn append_decimal(page: &mut Vec<u8>, number: u64) -> Result<(), Memory>
    ensures { OnOk result (page.new.items ≡ page.old.items ++ escaped (decimal number)) }
{
    append_number(page, "", number)
}

/// Adds the number of tenths.
fn append_tenths(page: &mut Vec<u8>, tenths: u64) -> Result<(), Memory>
    ensures { OnOk result (page.new.items ≡ page.old.items ++ tenths_text tenths) }
{
    append_number(page, "", tenths / 10)?;
    append_number(page, ".", tenths % 10)
}

/// Adds the number of tenths, which no escape changes.
fn append_fraction(page: &mut Vec<u8>, tenths: u64) -> Result<(), Memory>
    ensures { OnOk result (page.new.items ≡ page.old.items ++ escaped (tenths_text tenths)) }
{
    append_tenths(page, tenths)
}

/// Adds the numbers of tenths, a blank before each, which no escape changes.
fn append_fractions(page: &mut Vec<u8>, all: &[u64]) -> Result<(), Memory>
    ensures { OnOk result (page.new.items ≡ page.old.items ++ escaped (all_tenths_text all.now)) }
{
    for tenths in all {
        append(page, " ")?;
        append_tenths(page, *tenths)?;
    }
    Ok(())
}

/// Adds the words, escaped, and the number after them.
fn append_numbered(page: &mut Vec<u8>, words: &str, number: u64) -> Result<(), Memory>
    ensures { OnOk result (page.new.items
        ≡ page.old.items ++ escaped (words.now ++ decimal number)) }
{
    append_text(page, words)?;
    append_number(page, "", number)
}

/// Adds the attribute's value, escaped.
fn append_value(page: &mut Vec<u8>, attribute: &Attribute<'_>) -> Result<(), Memory>
    ensures { OnOk result (page.new.items
        ≡ page.old.items ++ escaped (attribute_of attribute.now).value) }
{
    match *attribute {
        Attribute::Words(_, words) => append_text(page, words),
        Attribute::Number(_, number) => append_decimal(page, number),
        Attribute::Tenths(_, tenths) => append_fraction(page, tenths),
        Attribute::AllTenths(_, all) => append_fractions(page, all),
        Attribute::Numbered(_, words, number) => append_numbered(page, words, number),
    }
}

/// Adds the attribute, after a blank.
#[tactic(auto, unfolding(crate::specs::Markup::attribute_text))]
fn append_attribute(page: &mut Vec<u8>, attribute: &Attribute<'_>) -> Result<(), Memory>
    ensures { OnOk result (page.new.items
        ≡ page.old.items ++ attribute_text (attribute_of attribute.now)) }
{
    append(page, " ")?;
    append(page, attribute.name().text())?;
    append(page, "=\"")?;
    append_value(page, attribute)?;
    append(page, "\"")
}

/// Adds the attributes, each after a blank.
pub(crate) fn append_attributes(
    page: &mut Vec<u8>,
    attributes: &[Attribute<'_>],
) -> Result<(), Memory>
    ensures { OnOk result (page.new.items
        ≡ page.old.items ++ flat_map attribute_text (map attribute_of attributes.now)) }
{
    for attribute in attributes {
        append_attribute(page, attribute)?;
    }
    Ok(())
}

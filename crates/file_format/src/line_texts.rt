//! Texts of lines, as parts of the bytes that the lines are of.
ghost use Rattle.std.specs.Prelude.{◌≡◌, ◌<◌, ◌+◌, ◌^◌, ◌++◌, [], IfOk, IfSome, IsUtf8, length};
ghost use Rattle.file_format.specs.LineTexts.{IsTextAt, StandsAt, HaveTexts, text_at};

use std::alloc::Global;
use std::marker::Model;
use std::str;
use std::sync::Arc;
use tag::{Key, Memory};

/// A text of a line, and how many bytes of the line are before it. The place only says where to look, so
/// a wrong one costs memory, and changes no answer.
#[derive(Clone, Copy, Debug)]
pub(crate) struct LineText<'a> {
    pub(crate) text: &'a str,
    pub(crate) start: usize,
}

/// The bytes of a text of a line, and how many bytes of the line are behind them. As with the place of a
/// `LineText`, that number only says where to look.
#[derive(Clone, Copy, Debug)]
pub(crate) struct LinePart<'a> {
    pub(crate) text: &'a [u8],
    pub(crate) behind: usize,
}

/// Where a line stands: in which bytes, and how many of them are before it. Texts that don't stand there
/// are allocated.
#[derive(Drop)]
pub(crate) struct LinePlace {
    alloc: Global,
    pub(crate) bytes: Arc<Vec<u8>>,
    pub(crate) start: usize,
}

/// A part of bytes, from its start to its end.
#[derive(Clone, Copy, Debug)]
struct Span {
    start: u32,
    end: u32,
}

/// A key's and a value's text, as parts of bytes that many share.
#[derive(Debug, Drop)]
struct SharedTexts {
    bytes: Arc<Vec<u8>>,
    key: Span,
    value: Span,
}

impl Model for SharedTexts {
    ghost use Rattle.file_format.specs.LineTexts.{TwoTexts};

    ghost Value = { TwoTexts };

    ghost use Rattle.file_format.specs.LineTexts.{texts_there, AreThere};

    ghost view = { texts_there };

    ghost invariant = { AreThere };
}

/// A key's and a value's text, as parts of the bytes that their line is of, which all lines there share. They
/// take memory of their own only where the line has one of them with an escape. Two empty texts share nothing.
#[derive(Debug, Drop)]
pub(crate) struct LineTexts {
    shared: Option<SharedTexts>,
}

impl Model for LineTexts {
    ghost use Rattle.file_format.specs.LineTexts.{TwoTexts};

    ghost Value = { TwoTexts };

    ghost use Rattle.file_format.specs.LineTexts.{texts_or_none};

    ghost view = { λ texts. texts_or_none texts.shared };
}

/// The bytes, for many to share.
pub(crate) fn shared(alloc: Global, bytes: &[u8]) -> Result<Arc<Vec<u8>>, Memory>
    ensures { IfOk result (λ all. all.value.items ≡ bytes.now) }
{
    Ok(Arc::new(alloc, Vec::from_slice(alloc, bytes)?)?)
}

/// The two texts, one after the other.
fn joined(alloc: Global, first: &str, second: &str) -> Result<Arc<Vec<u8>>, Memory>
    ensures { IfOk result (λ all. all.value.items ≡ first.now ++ second.now) }
{
    let mut bytes = Vec::from_slice(alloc, first.as_bytes())?;
    bytes.extend_from_slice(second.as_bytes())?;
    Ok(Arc::new(alloc, bytes)?)
}

/// The text that stands there.
fn text_at(bytes: &[u8], span: Span) -> &str
    requires { IsTextAt bytes.now span }
    ensures { result.now ≡ text_at bytes.now span }
{
    let text = &bytes[span.start as usize..span.end as usize];
    unsafe { str::from_utf8_unchecked(text) }
}

/// The part of the bytes that is the text, where it stands at that place. `None` says nothing.
#[inline(always)]
fn span_at(bytes: &[u8], place: usize, text: &[u8]) -> Option<Span>
    requires { IsUtf8 text.now }
    ensures { IfSome result (λ span. StandsAt bytes.now span text.now) }
{
    if text.is_empty() {
        return Some(Span { start: 0, end: 0 });
    }
    let Ok(start) = u32::try_from(place) else {
        return None;
    };
    let Ok(end) = u32::try_from(place.saturating_add(text.len())) else {
        return None;
    };
    match bytes.get(start as usize..end as usize) {
        Some(same) if same == text => Some(Span { start, end }),
        _ => None,
    }
}

impl<'a> LineText<'a> {
    /// No text.
    pub(crate) fn none() -> LineText<'a>
        ensures { result.text.now ≡ [] }
    {
        LineText { text: "", start: 0 }
    }
}

impl<'a> LinePart<'a> {
    /// No text.
    #[inline(always)]
    pub(crate) fn none() -> LinePart<'a>
        ensures { result.text.now ≡ [] }
    {
        LinePart {
            text: &[],
            behind: 0,
        }
    }
}

impl LinePlace {
    /// No line.
    pub(crate) fn new(alloc: Global) -> Result<LinePlace, Memory> {
        Ok(LinePlace {
            alloc,
            bytes: shared(alloc, &[])?,
            start: 0,
        })
    }

    /// The texts as parts of the bytes, if they stand at those places.
    #[inline(always)]
    fn texts_at(
        &self,
        key: &[u8],
        key_place: usize,
        value: &[u8],
        value_place: usize,
    ) -> Result<Option<LineTexts>, Memory>
        requires key { IsUtf8 key.now }
        requires value { IsUtf8 value.now }
        ensures { IfOk result (λ found. IfSome found (HaveTexts key.now value.now)) }
    {
        if key.is_empty() && value.is_empty() {
            return Ok(Some(LineTexts { shared: None }));
        }
        let bytes = self.bytes.as_slice();
        let Some(key) = span_at(bytes, key_place, key) else {
            return Ok(None);
        };
        let Some(value) = span_at(bytes, value_place, value) else {
            return Ok(None);
        };
        let shared = SharedTexts {
            bytes: self.bytes.clone()?,
            key,
            value,
        };
        Ok(Some(LineTexts {
            shared: Some(shared),
        }))
    }

    /// The place of a text of the line.
    fn place_of(&self, text: LineText<'_>) -> usize {
        self.start.saturating_add(text.start)
    }

    /// The place of a part of the line, which has so many bytes.
    #[inline(always)]
    fn place_of_part(&self, length: usize, part: LinePart<'_>) -> usize {
        let end = self
            .start
            .saturating_add(length)
            .saturating_sub(part.behind);
        end.saturating_sub(part.text.len())
    }

    /// The texts as parts of the bytes, if they stand in the line.
    fn found(&self, key: LineText<'_>, value: LineText<'_>) -> Result<Option<LineTexts>, Memory>
        ensures { IfOk result (λ found. IfSome found
            (HaveTexts key.entry.text.now value.entry.text.now)) }
    {
        let (key_place, value_place) = (self.place_of(key), self.place_of(value));
        let (key, value) = (key.text.as_bytes(), value.text.as_bytes());
        self.texts_at(key, key_place, value, value_place)
    }

    /// The parts of the line, which has so many bytes, as parts of the bytes, if they stand there.
    #[inline(always)]
    pub(crate) fn parts(
        &self,
        length: usize,
        key: LinePart<'_>,
        value: LinePart<'_>,
    ) -> Result<Option<LineTexts>, Memory>
        requires key { IsUtf8 key.text.now }
        requires value { IsUtf8 value.text.now }
        ensures { IfOk result (λ found. IfSome found
            (HaveTexts key.entry.text.now value.entry.text.now)) }
    {
        let key_place = self.place_of_part(length, key);
        let value_place = self.place_of_part(length, value);
        self.texts_at(key.text, key_place, value.text, value_place)
    }
}

impl SharedTexts {
    /// The key.
    fn key(&self) -> &str
        ensures { result.now ≡ self.now.key }
    {
        text_at(self.bytes.as_slice(), self.key)
    }

    /// The value.
    fn value(&self) -> &str
        ensures { result.now ≡ self.now.value }
    {
        text_at(self.bytes.as_slice(), self.value)
    }
}

impl LineTexts {
    /// The texts of a line that stands there.
    pub(crate) fn new(
        place: &LinePlace,
        key: LineText<'_>,
        value: LineText<'_>,
    ) -> Result<LineTexts, Memory>
        requires { length key.text.now + length value.text.now < 2 ^ 32 }
        ensures { IfOk result (HaveTexts key.entry.text.now value.entry.text.now) }
    {
        match place.found(key, value)? {
            Some(texts) => Ok(texts),
            None => LineTexts::copied(place.alloc, key.text, value.text),
        }
    }

    /// The texts in bytes of their own.
    fn copied(alloc: Global, key: &str, value: &str) -> Result<LineTexts, Memory>
        requires { length key.now + length value.now < 2 ^ 32 }
        ensures { IfOk result (HaveTexts key.now value.now) }
    {
        let bytes = joined(alloc, key, value)?;
        let middle = key.len() as u32;
        let end = (key.len() + value.len()) as u32;
        let shared = SharedTexts {
            bytes,
            key: Span {
                start: 0,
                end: middle,
            },
            value: Span { start: middle, end },
        };
        Ok(LineTexts {
            shared: Some(shared),
        })
    }

    /// The key.
    pub(crate) fn key(&self) -> &str
        ensures { result.now ≡ self.now.key }
    {
        match &self.shared {
            Some(shared) => shared.key(),
            None => "",
        }
    }

    /// The key, with a text of its own.
    pub(crate) fn to_key(&self, alloc: Global) -> Result<Key, Memory>
        ensures { IfOk result (λ key. key ≡ self.now.key) }
    {
        match Key::new(alloc, self.key()) {
            Ok(key) => Ok(key),
            Err(_) => Err(Memory),
        }
    }

    /// The value.
    pub(crate) fn value(&self) -> &str
        ensures { result.now ≡ self.now.value }
    {
        match &self.shared {
            Some(shared) => shared.value(),
            None => "",
        }
    }
}

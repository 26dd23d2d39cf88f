//! The files of the pieces while they are written.
ghost use Rattle.std.specs.Prelude.{◌≡◌, ◌<◌, ℕ, List, length, IfOk, OnOk};
ghost use Rattle.split_command.specs.PieceTexts.{AreBegun, AreFresh, AreHeaders, HaveTexts, header_text};

use counted_devices::{CountedWrite, WriteFault, relieve, write_text};
use file_format::{
    append_history_header, append_numbered_invoke, append_numbered_note, append_numbered_respond,
};
use recorder::{ActionRef, ReturnedRef};
use split_rows::Moved;
use std::alloc::Global;
use tag::{ClientId, Memory, Tag};

/// The files of the pieces, by number, and what waits to go out to each.
#[derive(Drop)]
pub(crate) struct PieceFiles<W> {
    writers: Vec<W>,
    waiting: Vec<Vec<u8>>,
    ghost one: { length waiting.items ≡ length writers.items },
}

/// The header of a piece.
fn header(alloc: Global) -> Result<Vec<u8>, Memory>
    ensures { IfOk result (λ text. text.items ≡ header_text) }
{
    let mut text = Vec::new(alloc);
    append_history_header(&mut text)?;
    Ok(text)
}

/// So many headers.
fn headers(alloc: Global, parts: usize) -> Result<Vec<Vec<u8>>, Memory>
    ensures { IfOk result (λ texts. AreHeaders parts texts.items) }
{
    let mut texts = Vec::new(alloc);
    for _ in 0..parts {
        texts.push(header(alloc)?)?;
    }
    Ok(texts)
}

/// Writes each text to the writer of its number.
fn write_all<W: CountedWrite>(texts: &[Vec<u8>], writers: &mut [W]) -> Result<(), WriteFault>
    requires { length texts.now ≡ length writers.old }
    ensures same { OnOk result (length writers.new ≡ length writers.old) }
    ensures texts { OnOk result ((pieces : ℕ → List ℕ)
        → AreBegun W.contents pieces writers.old texts.now
        → HaveTexts W.contents pieces writers.new) }
{
    for piece in 0..texts.len() {
        write_text(texts[piece].as_slice(), &mut writers[piece])?;
    }
    Ok(())
}

impl<W: CountedWrite + Drop> PieceFiles<W> {
    ghost use Rattle.std.specs.Prelude.{true};
    ghost use Rattle.tag.specs.Names.{is_key};
    ghost use Rattle.recorder.specs.declared.row.Row.{Row};
    ghost use Rattle.split_command.specs.Files.{AddsRow, HoldTexts, file_count};

    /// The files of pieces without a row.
    pub(crate) fn new(alloc: Global, writers: Vec<W>) -> Result<PieceFiles<W>, Memory>
        requires { AreFresh W.contents writers.items }
        ensures texts { IfOk result (HoldTexts W.contents (λ p. header_text)) }
        ensures count { IfOk result (λ files. file_count files ≡ length writers.items) }
    {
        let waiting = headers(alloc, writers.len())?;
        Ok(PieceFiles { writers, waiting })
    }

    /// How many files there are.
    pub(crate) fn count(&self) -> usize
        ensures { result ≡ file_count self.now }
    {
        self.writers.len()
    }

    /// That the piece has a file: else it can't be written.
    fn find(&self, piece: usize) -> Result<(), WriteFault>
        ensures { OnOk result (piece < file_count self.now) }
    {
        if piece < self.count() {
            Ok(())
        } else {
            Err(WriteFault::Device)
        }
    }

    /// What waits for the file goes out, once it is enough.
    fn relieve(&mut self, piece: usize) -> Result<(), WriteFault>
        requires { piece < file_count self.old }
        ensures count { file_count self.new ≡ file_count self.old }
        ensures texts { OnOk result ((texts : ℕ → List ℕ) → HoldTexts W.contents texts self.old
            → HoldTexts W.contents texts self.new) }
    {
        relieve(&mut self.waiting[piece], &mut self.writers[piece])
    }

    /// A call begins in a piece.
    pub(crate) fn invoke(
        &mut self,
        moved: Moved,
        line: u64,
        client: ClientId,
        key: &str,
        action: &ActionRef<'_>,
    ) -> Result<(), WriteFault>
        requires { is_key key.now ≡ true }
        ensures count { file_count self.new ≡ file_count self.old }
        ensures row { OnOk result (AddsRow W.contents self.old self.new moved.piece
            (record { line = line; row = Row.Invoke moved.op client key.now action.now })) }
    {
        self.find(moved.piece)?;
        let waiting = &mut self.waiting[moved.piece];
        append_numbered_invoke(waiting, line, moved.op, client, key, action)?;
        self.relieve(moved.piece)
    }

    /// A call's tag is fixed in a piece.
    pub(crate) fn note(&mut self, moved: Moved, line: u64, tag: Tag) -> Result<(), WriteFault>
        ensures count { file_count self.new ≡ file_count self.old }
        ensures row { OnOk result (AddsRow W.contents self.old self.new moved.piece
            (record { line = line; row = Row.Note moved.op tag })) }
    {
        self.find(moved.piece)?;
        append_numbered_note(&mut self.waiting[moved.piece], line, moved.op, tag)?;
        self.relieve(moved.piece)
    }

    /// A call is answered in a piece.
    pub(crate) fn respond(
        &mut self,
        moved: Moved,
        line: u64,
        returned: &ReturnedRef<'_>,
    ) -> Result<(), WriteFault>
        ensures count { file_count self.new ≡ file_count self.old }
        ensures row { OnOk result (AddsRow W.contents self.old self.new moved.piece
            (record { line = line; row = Row.Respond moved.op returned.now })) }
    {
        self.find(moved.piece)?;
        append_numbered_respond(&mut self.waiting[moved.piece], line, moved.op, returned)?;
        self.relieve(moved.piece)
    }

    /// All that waits goes out. The files, by number.
    pub(crate) fn finish(self) -> Result<Vec<W>, WriteFault>
        ensures count { IfOk result (λ files. length files.items ≡ file_count self) }
        ensures texts { IfOk result (λ files. (texts : ℕ → List ℕ)
            → HoldTexts W.contents texts self → HaveTexts W.contents texts files.items) }
    {
        let PieceFiles {
            mut writers,
            waiting,
        } = self;
        write_all(waiting.as_slice(), writers.as_mut_slice())?;
        Ok(writers)
    }
}

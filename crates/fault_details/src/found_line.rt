//! A line of a file, looked for by its number.
ghost use Rattle.std.specs.Prelude.{ℕ, List, ◌≡◌, ◌<◌, ◌≤◌, ◌+◌, ◌^◌, ◌++◌, ◌∷◌, ◌==◌, []};
ghost use Rattle.std.specs.Prelude.{length, true, false, IfOk, MatchOption, OnOk};
ghost use Rattle.counted_devices.specs.Cuts.{HasNoEnd};
ghost use Rattle.counted_devices.specs.DeviceStates.{states};
ghost use Rattle.fault_details.specs.FoundLines.{Ends, EndsLine, FindsLine, IsEnded, IsLineIn};
ghost use Rattle.fault_details.specs.FoundLines.{IsLineOf, IsMissing, IsScan, Takes, kept_after};

use counted_devices::{CountedRead, first_end};
use std::alloc::Global;
use tag::Memory;

/// How many bytes are read together.
const BLOCK: usize = 65_536;

/// The most bytes of a line that are kept: one more than a line may have.
const KEPT: usize = 65_537;

/// A line of a file, and where it stands.
#[derive(Debug, Drop)]
pub struct FoundLine {
    /// Its number, from 1.
    pub number: u64,
    /// The file's first line, without its end: its first 65,537 bytes.
    pub first: Vec<u8>,
    /// The line, without its end: its first 65,537 bytes.
    pub bytes: Vec<u8>,
    /// Whether it has its end.
    pub has_end: bool,
    /// How many bytes stand before it.
    pub begins: u64,
}

/// The lines of a file so far.
#[derive(Drop)]
pub(crate) struct Scan {
    /// The number of the line that is looked for.
    wanted: u64,
    /// The number of the line under way.
    under_way: u64,
    /// How many bytes there were so far.
    fed: u64,
    /// How many bytes stand before the line under way.
    begins: u64,
    /// The first line, as far as it is kept.
    first: Vec<u8>,
    /// The line that is looked for, as far as it is kept.
    bytes: Vec<u8>,
}

/// The first line of the bytes, without its end, and what stands after it; `None` where no line ends.
fn cut_line(bytes: &[u8]) -> Option<(&[u8], &[u8])>
    ensures { MatchOption result (HasNoEnd bytes.now) (λ cut. HasNoEnd cut.0.now
        × (bytes.now ≡ cut.0.now ++ 10 ∷ cut.1.now)) }
{
    let end = first_end(bytes)?;
    Some((&bytes[..end], &bytes[end + 1..]))
}

/// Adds the bytes to a line that is kept, as far as one is.
fn keep(line: &mut Vec<u8>, is_kept: bool, bytes: &[u8]) -> Result<(), Memory>
    ensures { OnOk result (line.new.items ≡ kept_after is_kept line.old.items bytes.now) }
{
    if !is_kept {
        return Ok(());
    }
    let room = KEPT.saturating_sub(line.len()).min(bytes.len());
    line.extend_from_slice(&bytes[..room])?;
    Ok(())
}

impl Scan {
    /// No byte yet.
    fn new(alloc: Global, wanted: u64) -> Scan
        ensures scan { IsScan [] result }
        ensures wanted { result.wanted ≡ wanted }
        ensures fed { result.fed ≡ 0 }
        ensures few { result.under_way ≤ result.fed + 1 }
    {
        Scan {
            wanted,
            under_way: 1,
            fed: 0,
            begins: 0,
            first: Vec::new(alloc),
            bytes: Vec::new(alloc),
        }
    }

    /// Whether the line that is looked for is under way.
    fn is_there(&self) -> bool
        ensures { result ≡ (self.now.under_way == self.now.wanted) }
    {
        self.under_way == self.wanted
    }

    /// Takes bytes of the line under way.
    fn take(&mut self, bytes: &[u8]) -> Result<(), Memory>
        requires { self.old.fed + length bytes.now < 2 ^ 63 }
        ensures { OnOk result (Takes bytes.now self.old self.new) }
    {
        let is_first = self.under_way == 1;
        let is_there = self.is_there();
        keep(&mut self.first, is_first, bytes)?;
        keep(&mut self.bytes, is_there, bytes)?;
        self.fed += bytes.len() as u64;
        Ok(())
    }

    /// Takes the end of the line under way.
    fn end_line(&mut self)
        requires few { self.old.under_way ≤ self.old.fed + 1 }
        requires room { self.old.fed + 1 < 2 ^ 63 }
        ensures { EndsLine self.old self.new }
    {
        self.under_way += 1;
        self.fed += 1;
        self.begins = self.fed;
    }

    /// Takes the next block, up to the end of the line that is looked for. Whether it has that end.
    fn feed(&mut self, block: &[u8]) -> Result<bool, Memory>
        requires few { self.old.under_way ≤ self.old.fed + 1 }
        requires room { self.old.fed + length block.now < 2 ^ 63 }
        ensures scan { IfOk result (λ ended. (before : List ℕ) → IsScan before self.old
            → Ends ended (before ++ block.now) self.new) }
        ensures there { IfOk result (λ ended. ended ≡ true → (self.new.under_way == self.new.wanted) ≡ true) }
        ensures wanted { OnOk result (self.new.wanted ≡ self.old.wanted) }
        ensures few { OnOk result (self.new.under_way ≤ self.new.fed + 1) }
        ensures fed { OnOk result (self.new.fed ≤ self.old.fed + length block.now) }
    {
        let mut rest = block;
        'lines: while let Some((line, behind)) = cut_line(rest) {
            self.take(line)?;
            if self.is_there() {
                return Ok(true);
            }
            self.end_line();
            rest = behind;
        }
        self.take(rest)?;
        Ok(false)
    }

    /// The line that is looked for, which is under way, with its end or without.
    fn line(self, has_end: bool) -> FoundLine
        requires { (self.under_way == self.wanted) ≡ true }
        ensures number { result.number ≡ self.wanted }
        ensures ended { has_end ≡ true → (bytes : List ℕ) → IsEnded bytes self → IsLineIn bytes result }
        ensures unended { has_end ≡ false → (bytes : List ℕ) → IsScan bytes self → IsLineIn bytes result }
    {
        let Scan {
            wanted,
            first,
            bytes,
            begins,
            ..
        } = self;
        FoundLine {
            number: wanted,
            first,
            bytes,
            has_end,
            begins,
        }
    }

    /// The line that is looked for, if it is under way at the end.
    fn last_line(self) -> Option<FoundLine>
        ensures { (bytes : List ℕ) → IsScan bytes self
            → MatchOption result (IsMissing bytes self.wanted) (IsLineOf bytes self.wanted) }
    {
        if self.is_there() {
            Some(self.line(false))
        } else {
            None
        }
    }
}

/// The line of that number, from 1, of the file that the reader gives. `None` comes where the file
/// has fewer lines, or the reader fails before its end; the last line may be empty. It keeps no other
/// line than the first.
pub fn find_line<R: CountedRead>(
    alloc: Global,
    reader: &mut R,
    number: u64,
) -> Result<Option<FoundLine>, Memory>
    ensures { IfOk result
        (FindsLine (states R.remaining R.failures reader.old reader.new) number) }
{
    let mut room = vec![in alloc; 0u8; BLOCK]?;
    let mut scan = Scan::new(alloc, number);
    'reads: loop {
        match reader.read_counted(room.as_mut_slice()) {
            Ok(0) => return Ok(scan.last_line()),
            Ok(count) => {
                if scan.feed(&room[..count])? {
                    return Ok(Some(scan.line(true)));
                }
            }
            Err(_) => return Ok(None),
        }
    }
}

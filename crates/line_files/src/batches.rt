//! Blocks of a reader that are judged together.
ghost use Rattle.std.specs.Prelude.{◌≡◌, ◌≤◌, ◌<◌, ◌+◌, length, take};
ghost use Rattle.std.specs.Io.KnownBytes.{Consumes};
ghost use Rattle.line_files.specs.Batches.{IsBehind};

use counted_devices::CountedRead;

/// The most bytes that a reader is asked for at once.
pub const BLOCK: usize = 1_048_576;

/// What was after the bytes of a batch.
#[derive(Clone, Copy, Debug)]
pub enum Behind {
    More,
    End,
    Failure,
}

/// How many bytes were read into a room, and what was after them.
#[derive(Clone, Copy, Debug)]
pub struct Batch {
    pub count: usize,
    pub behind: Behind,
}

/// Reads blocks into the room, one after the other, until it is full or a block came short. A
/// reader that gives its bytes slowly isn't waited for.
pub(crate) fn read_batch<R: CountedRead>(reader: &mut R, room: &mut [u8]) -> Batch
    requires { 0 < length room.old }
    ensures bound { result.count ≤ length room.new }
    ensures bytes { Consumes (R.remaining reader.old) (R.remaining reader.new)
        (take result.count room.new) }
    ensures given { R.given reader.new ≡ R.given reader.old + result.count }
    ensures behind { IsBehind result.count result.behind (R.remaining reader.new)
        (R.failures reader.old) (R.failures reader.new) }
{
    let mut count = 0;
    'reads: while count < room.len() {
        let end = room.len().min(count.saturating_add(BLOCK));
        match reader.read_counted(&mut room[count..end]) {
            Ok(0) => {
                return Batch {
                    count,
                    behind: Behind::End,
                };
            }
            Ok(more) => {
                count += more;
                if count < end {
                    break;
                }
            }
            Err(_) => {
                return Batch {
                    count,
                    behind: Behind::Failure,
                };
            }
        }
    }
    Batch {
        count,
        behind: Behind::More,
    }
}

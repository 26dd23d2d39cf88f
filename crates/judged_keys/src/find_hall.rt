//! The history of a key's hall.
ghost use Rattle.judged_keys.specs.Halls.{HasLinesOfEach, IsHallOfKey};

use explanations::HallRows;
use history_file::NumberedHistories;
use recorder::Halls;
use tag::Key;

/// The history of the key's hall, with the line of each row.
pub fn hall_of<'a>(numbered: &'a NumberedHistories, key: &Key) -> HallRows<'a>
    requires { HasLinesOfEach numbered.now }
    ensures { IsHallOfKey numbered.now key.now result }
{
    let histories = numbered.histories.halls();
    match Halls::new(histories.len() as u8) {
        Some(halls) => {
            let hall = usize::from(halls.of(key));
            HallRows {
                history: &histories[hall],
                lines: &numbered.lines[hall],
            }
        }
        None => unreachable!(),
    }
}

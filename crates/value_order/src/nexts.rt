//! The next write of a call's value.
ghost use Rattle.std.specs.Prelude.{IfOk};
ghost use Rattle.value_order.specs.Classes.{AreClasses, AreNexts};

use crate::classes::Class;
use crate::placed::PlacedPart;
use std::alloc::Global;
use tag::Memory;

/// Beside each call the next write of its value after it, if there is one.
pub(crate) fn next_writes(
    alloc: Global,
    part: &PlacedPart<'_, '_>,
    classes: &[Class],
) -> Result<Vec<Option<u32>>, Memory>
    requires { AreClasses part.now classes.now }
    ensures { IfOk result (λ nexts. AreNexts classes.now nexts.items) }
{
    let mut nexts = vec![in alloc; None; classes.len()]?;
    let mut following: Vec<Option<u32>> = vec![in alloc; None; classes.len()]?;
    let mut i = classes.len();
    'calls: while i > 0 {
        i -= 1;
        match classes[i] {
            Class::Writes(first) => {
                nexts[i] = following[first as usize];
                following[first as usize] = Some(part.short_index(i));
            }
            Class::Answers(first) => nexts[i] = following[first as usize],
            _ => {}
        }
    }
    Ok(nexts)
}

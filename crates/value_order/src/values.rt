//! What the values of a part say of its calls.
ghost use Rattle.std.specs.Prelude.{◌≡◌, IfOk};
ghost use Rattle.value_order.specs.Classes.{AreClasses, AreNexts};
ghost use Rattle.value_order.specs.Sources.{AreSources};

use crate::classes::{Class, classes};
use crate::nexts::next_writes;
use crate::placed::PlacedPart;
use crate::sources::{Source, sources};
use recorder::Part;
use std::alloc::Global;
use tag::Memory;

/// What the values of a part say of its calls.
#[derive(Drop)]
pub(crate) struct Values<'p, 'h> {
    pub(crate) part: PlacedPart<'p, 'h>,
    pub(crate) classes: Vec<Class>,
    pub(crate) nexts: Vec<Option<u32>>,
    pub(crate) sources: Vec<Source>,
}

/// What the part's values say.
pub(crate) fn read_values<'p, 'h>(
    alloc: Global,
    part: &'p Part<'h>,
) -> Result<Values<'p, 'h>, Memory>
    ensures part { IfOk result (λ values. values.part ≡ part.now) }
    ensures classes { IfOk result (λ values. AreClasses part.now values.classes.items) }
    ensures nexts { IfOk result (λ values. AreNexts values.classes.items values.nexts.items) }
    ensures sources { IfOk result (λ values. AreSources part.now values.sources.items) }
{
    let (part, classes) = classes(alloc, part)?;
    let nexts = next_writes(alloc, &part, classes.as_slice())?;
    let sources = sources(alloc, &part, classes.as_slice(), nexts.as_slice())?;
    Ok(Values {
        part,
        classes,
        nexts,
        sources,
    })
}

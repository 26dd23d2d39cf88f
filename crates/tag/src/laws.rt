//! Laws of the definitions, each the contract of a function that does nothing.
ghost use Rattle.std.specs.Prelude.{◌≡◌, ◌↔◌};
ghost use Rattle.std.specs.declared.cmp.Ordering.TheVariants.{Less};
ghost use Rattle.tag.specs.Tags.{Tag, IsBelow, tag_cmp};

/// The order of tags is by number, then by writer.
pub fn tags_are_ordered_by_number_then_writer()
    ensures { (a b : Tag) → (tag_cmp a b ≡ Less) ↔ IsBelow a b }
{}

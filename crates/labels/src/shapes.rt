//! Shapes, one for each item of a list.
ghost use Rattle.std.specs.Prelude.{ℕ, ◌≡◌, ◌<◌, ◌++◌, length, OnOk};
ghost use Rattle.markup.specs.Markup.{Markup, each, rendered};
ghost use Rattle.labels.specs.Each.{each_from};

use tag::Memory;

/// A kind of shape: what a page has of an item. It holds what the shapes are drawn with.
pub trait Shape {
    type Item;

    // What has to hold where such shapes are drawn.
    ghost can_append: { Self → Type 0 };

    // The shape of an item.
    ghost shape: { Self → Self.Item → Markup };

    /// Adds the shape of the item.
    fn append(&self, page: &mut Vec<u8>, item: &Self::Item) -> Result<(), Memory>
        requires { can_append self.now }
        ensures { OnOk result
            (page.new.items ≡ page.old.items ++ rendered (shape self.now item.now)) };
}

/// Adds the shape of each item, in the order of the list.
pub fn append_each<S: Shape>(
    page: &mut Vec<u8>,
    shapes: &S,
    items: &[S::Item],
) -> Result<(), Memory>
    requires { S.can_append shapes.now }
    ensures { OnOk result
        (page.new.items ≡ page.old.items ++ rendered (each (S.shape shapes.now) items.now)) }
{
    for item in items {
        shapes.append(page, item)?;
    }
    Ok(())
}

/// A kind of shape that depends on an item's index too, as its row or its column does.
pub trait IndexedShape {
    type Item;

    // What has to hold where the shape of the item of that index is drawn.
    ghost can_append: { Self → ℕ → Type 0 };

    // The shape of the item of that index.
    ghost shape: { Self → ℕ → Self.Item → Markup };

    /// Adds the shape of the item of that index.
    fn append(&self, page: &mut Vec<u8>, index: usize, item: &Self::Item) -> Result<(), Memory>
        requires { can_append self.now index }
        ensures { OnOk result
            (page.new.items ≡ page.old.items ++ rendered (shape self.now index item.now)) };
}

/// Adds the shape of each item and its index, in the order of the list.
pub fn append_each_indexed<S: IndexedShape>(
    page: &mut Vec<u8>,
    shapes: &S,
    items: &[S::Item],
) -> Result<(), Memory>
    requires { (index : ℕ) → index < length items.now → S.can_append shapes.now index }
    ensures { OnOk result
        (page.new.items
        ≡ page.old.items ++ rendered (each_from (S.shape shapes.now) 0 items.now)) }
{
    for (index, item) in items.iter().enumerate() {
        shapes.append(page, index, item)?;
    }
    Ok(())
}

//! What stands in slices, by places that may not be there.
ghost use Rattle.std.specs.Prelude.{◌≡◌, get_or, set};
ghost use Rattle.nl_tool_texts.specs.Lists.{between};

/// The item at a place; the other one if there is none.
pub fn item_at<T: Copy>(items: &[T], place: usize, other: T) -> T
    ensures { result ≡ get_or items.now place other }
{
    items.get(place).copied().unwrap_or(other)
}

/// Changes the item at a place, if there is one.
pub fn set_at<T: Copy>(items: &mut [T], place: usize, item: T)
    ensures { items.new ≡ set items.old place item }
{
    if place < items.len() {
        items[place] = item;
    }
}

/// What stands from one place to another, as far as there is any.
pub fn between<T>(from: usize, to: usize, items: &[T]) -> &[T]
    ensures { result.now ≡ between from to items.now }
{
    let front = &items[..to.min(items.len())];
    &front[from.min(front.len())..]
}

// A table of touches: its first `count` places hold touches in rising order of position.
ghost use Rattle.std.specs.Prelude.{◌≡◌, ◌+◌, ◌<◌, ◌≤◌, ◌++◌, length, take, drop, nat_lt};
ghost use Rattle.std.specs.List.{insert as inserted};
ghost use Rattle.caps.specs.Touches.{insert};
ghost use Rattle.caps.specs.Places.{places_before};
ghost use Rattle.caps.specs.Laws.{LawsOfOneMore};

use crate::Touch;

// Whether the touch lies after the position.
fn is_after(touch: &Touch, position: u16) -> bool
    ensures { result ≡ nat_lt position touch.now.position }
{
    position < touch.position
}

// How many touches, from the first on, lie at the position or before.
fn place_of(touches: &[Touch], position: u16) -> usize
    ensures { result ≡ places_before position touches.now }
{
    touches
        .iter()
        .position(|touch| is_after(touch, position))
        .unwrap_or(touches.len())
}

// Puts `item` at the place `at` of the first `count` items; those from there on move up by one.
fn insert_at<T: Copy>(items: &mut [T], count: usize, at: usize, item: T)
    requires within { at ≤ count }
    requires room { count < length items.old }
    ensures { items.new ≡ inserted (take count items.old) at item ++ drop (count + 1) items.old }
{
    // One touch at a time is lent and changed, a rule of the project: a `rotate_right` would move each of them twice.
    let mut carried = item;
    for i in at..count + 1 {
        let slot = &mut items[i];
        let old = *slot;
        *slot = carried;
        carried = old;
    }
}

// Puts the touch in at its place in rising order, and leaves the places after the touches as they were. The touches are a fixed table, so their count is beside it.
pub fn insert_touch(table: &mut [Touch], count: usize, touch: Touch)
    requires { count < length table.old }
    ensures is { table.new ≡ insert touch (take count table.old) ++ drop (count + 1) table.old }
    ensures laws { LawsOfOneMore }
{
    let at = place_of(&table[0..count], touch.position);
    insert_at(table, count, at, touch);
}

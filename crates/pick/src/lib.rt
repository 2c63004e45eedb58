// The first item of highest rank: one text for every kind of item that has a whole-number rank.
#![tactic(auto)]

ghost use Rattle.std.specs.Prelude.{◌≡◌, ℤ, Some, int_lt};
ghost use Rattle.std.specs.Iterator.{AlwaysYields, IsFinite};
ghost use Rattle.pick.specs.Picks.{picked, Picks, better, first_above, Finds};

// An item with a whole-number rank.
pub trait Ranked {
    ghost level: { Self → ℤ };

    fn rank(&self) -> i32
        ensures { result ≡ level self.now };
}

// The pick so far with one more item: the better of the two.
fn higher<T: Ranked + Copy>(best: Option<T>, item: T) -> Option<T>
    ensures { result ≡ Some (better T.Ranked.level best item) }
{
    match best {
        Some(held) if item.rank() <= held.rank() => best,
        _ => Some(item),
    }
}

// The pick: the first item of highest rank; of no items, none.
pub fn first_highest<I: Iterator>(items: I) -> Option<I::Item>
where
    I::Item: Ranked + Copy,
    requires can { I.can_next items }
    requires ends { IsFinite (I.remaining items) }
    ensures is { (xs : _) → AlwaysYields I.next_gives (λ x. x) items xs → result ≡ picked I.Item.Ranked.level xs }
    ensures first { (xs : _) → AlwaysYields I.next_gives (λ x. x) items xs → Picks I.Item.Ranked.level xs result }
{
    items.fold(None, higher)
}

// Whether the item's rank exceeds the bound.
fn is_above<T: Ranked>(item: &T, bound: i32) -> bool
    ensures { result ≡ int_lt bound (T.Ranked.level item.now) }
{
    bound < item.rank()
}

// The first item above the bound; where there is none, none.
pub fn first_above<I: Iterator + Drop>(mut items: I, bound: i32) -> Option<I::Item>
where
    I::Item: Ranked + Copy,
    requires can { I.can_next items }
    requires ends { IsFinite (I.remaining items) }
    ensures is { (xs : _) → AlwaysYields I.next_gives (λ x. x) items xs → result ≡ first_above I.Item.Ranked.level bound xs }
    ensures first { (xs : _) → AlwaysYields I.next_gives (λ x. x) items xs → Finds I.Item.Ranked.level bound xs result }
{
    items.find(|item| is_above(item, bound))
}

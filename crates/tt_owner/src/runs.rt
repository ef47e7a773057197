//! A part of a list.
ghost use Rattle.std.specs.Prelude.{◌≡◌, ◌≤◌, length, take, drop};

/// The items from a place on, up to another.
pub fn middle<T>(items: &[T], begin: usize, end: usize) -> &[T]
    requires order { begin ≤ end }
    requires bound { end ≤ length items.now }
    ensures { result.now ≡ drop begin (take end items.now) }
{
    let (front, _behind) = items.split_at(end);
    let (_before, middle) = front.split_at(begin);
    middle
}

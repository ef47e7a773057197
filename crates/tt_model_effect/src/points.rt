//! How points change.

ghost use Rattle.std.specs.Prelude.{◌≡◌, fold};
ghost use Rattle.tt_plain.specs.effect.Apply.{changed_point};

fn change_point(points: &mut Vec<Option<u64>>, place: u64, moment: u64)
    ensures { points.new.items ≡ changed_point points.old.items (place, moment) }
{
    if place < points.len() as u64 {
        points[place as usize] = Some(moment);
    }
}

/// The points with others in some places, one after the other.
pub fn change_points(points: &mut Vec<Option<u64>>, changes: &[(u64, u64)])
    ensures { points.new.items ≡ fold changed_point points.old.items changes.now }
{
    for (place, moment) in changes {
        change_point(points, *place, *moment);
    }
}

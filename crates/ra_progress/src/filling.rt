//! Rows that are written late: memory that is not written does not count as taken by the system.

ghost use Rattle.std.specs.Prelude.{◌≡◌, ◌≤◌, length};
ghost use Rattle.std.specs.Vec.{vec_capacity};

/// Puts the same in this many places of a row which has room for them, where there are not as many yet.
pub fn fill_up<T: Copy>(row: &mut Vec<T>, value: T, count: usize)
    requires { count ≤ vec_capacity row.old }
    ensures { length row.new.items ≡ count }
{
    if row.len() == count {
        return;
    }
    row.clear();
    while row.len() < count {
        row.push_reserved(value);
    }
}

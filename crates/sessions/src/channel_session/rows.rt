//! The front of a list.

ghost use Rattle.std.specs.Prelude.{◌≡◌, ◌≤◌, drop, vec_len};

/// Takes out the first items.
pub(crate) fn remove_front<T: Copy + Drop>(items: &mut Vec<T>, count: usize)
    requires { count ≤ vec_len items.old }
    ensures { items.new.items ≡ drop count items.old.items }
{
    let len = items.len() - count;
    items.rotate_left(count);
    items.truncate(len);
}

//! Things that are given one after another.
ghost use Rattle.std.specs.Prelude.{◌≡◌, ◌≤◌, ◌<◌, ◌+◌, ◌++◌, ℕ, List, length, min, take, drop, vec_len, vec_capacity};

use std::collections::VecDeque;

/// Moves the first so many of a row, or all where there are fewer, after those that were given.
pub(crate) fn first_of<T>(row: &mut VecDeque<T>, count: usize, given: &mut Vec<T>)
    requires { vec_len given.old + count ≤ vec_capacity given.old }
    ensures given { given.new.items ≡ given.old.items ++ take count row.old.items }
    ensures rest { row.new.items ≡ drop count row.old.items }
    ensures len { vec_len given.new ≤ vec_len given.old + count }
    ensures capacity { vec_capacity given.new ≡ vec_capacity given.old }
{
    for _turn in 0..count {
        match row.pop_front() {
            Some(thing) => given.push_reserved(thing),
            None => return,
        }
    }
}

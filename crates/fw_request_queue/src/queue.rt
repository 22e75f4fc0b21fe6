//! Rows in the order in which they came.

ghost use Rattle.std.specs.Prelude.{◌≡◌, ◌<◌, ◌≤◌, ◌++◌, ◌∷◌, [], drop, length};
ghost use Rattle.std.specs.List.Retain.{RetainsInTurn};
ghost use Rattle.std.specs.Fn.{CalledAtMut};

use arrayvec::ArrayVec;
use std::marker::Model;

/// At most 512 rows, the oldest first. The first one is mostly the one that is taken away, so it is passed over, and the others are
/// moved to the beginning when there is no more room after them. Contracts see it as the list of them.
#[derive(Drop)]
pub struct Queue<T> {
    rows: ArrayVec<T, 512>,
    // How many at the beginning are passed over.
    start: usize,
}

impl<T> Model for Queue<T> {
    ghost use Rattle.std.specs.Prelude.{List, ◌≤◌, drop, length};

    ghost Value = { List T };

    ghost view = { λ q. drop q.start q.rows.items };

    ghost invariant = { λ q. q.start ≤ length q.rows.items };
}

impl<T: Default> Queue<T> {
    /// No row.
    pub fn new() -> Queue<T>
        ensures { result ≡ [] }
    {
        Queue {
            rows: ArrayVec::new(),
            start: 0,
        }
    }
}

impl<T: Default + Drop> Queue<T> {
    /// The rows.
    #[inline(always)]
    pub fn as_slice(&self) -> &[T]
        ensures { result.now ≡ self.now }
    {
        &self.rows.as_slice()[self.start..]
    }

    /// Drops all.
    pub fn clear(&mut self)
        ensures { self.new ≡ [] }
    {
        self.rows.clear();
        self.start = 0;
    }

    /// Takes the first one away, if there is one.
    #[inline(always)]
    pub fn take_first(&mut self)
        ensures { self.new ≡ drop 1 self.old }
    {
        if self.start < self.rows.len() {
            self.start += 1;
        }
    }

    /// Appends a row.
    #[inline(always)]
    pub fn push(&mut self, new: T)
        requires { length self.old < 512 }
        ensures { self.new ≡ self.old ++ new ∷ [] }
    {
        if self.rows.is_full() {
            move_up(&mut self.rows, self.start);
            self.start = 0;
        }
        self.rows.push(new);
    }

    /// Keeps the rows of which the test says so.
    pub fn retain<F: FnMut(&mut T) -> bool>(&mut self, test: F)
        requires { F.IsAlwaysCallable test }
        ensures { RetainsInTurn (CalledAtMut F.FnMut) test self.old self.new }
    {
        move_up(&mut self.rows, self.start);
        self.start = 0;
        self.rows.retain(test);
    }
}

// Moves the rows from this place on to the beginning.
#[inline(never)]
fn move_up<T: Default + Drop>(rows: &mut ArrayVec<T, 512>, start: usize)
    requires { start ≤ length rows.old.items }
    ensures { rows.new.items ≡ drop start rows.old.items }
{
    let count = rows.as_slice().len() - start;
    rows.as_mut_slice().rotate_left(start);
    rows.truncate(count);
}

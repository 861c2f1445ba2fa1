//! The rule of the lock's table, and what its steps tell.
ghost use Rattle.sw_lock.specs.Turns.{Kept};
ghost use Rattle.sw_lock.specs.Steps.{newcomer, gave, further, together, gone, drew, saw, tallied, passed, looked};

use crate::logged::Logged;
use crate::view::View;
use atomic_table::{Join, Play, Split, TableRule};
use std::marker::PhantomData;
use std::snapshot::Snapshot;

/// What the lock was made with.
pub struct Start<T> {
    pub opened: Snapshot<T>,
    pub made: u32,
    pub number: u64,
}

impl<T> Drop for Start<T> {
    fn drop(self) {
        let Self {
            opened: _,
            made: _,
            number: _,
        } = self;
    }
}

pub struct Turns<T> {
    value: PhantomData<T>,
}

impl<T: Logged> TableRule<Option<T>, View<T, T::Entry>, Start<T>> for Turns<T> {
    ghost holds = { λ key. Kept T.Logged key.opened.value key.made };

    ghost first = { λ key. newcomer T.log key.opened.value };
}

pub struct Further;

impl<V, E> Split<View<V, E>> for Further {
    ghost left = { gave };

    ghost right = { further };
}

pub struct Together;

impl<V, E> Join<View<V, E>> for Together {
    ghost both = { together };

    ghost spent = { gone };
}

pub struct Draw;

impl<V, E> Play<Option<V>, View<V, E>> for Draw {
    ghost then = { drew };
}

pub struct PassOn;

impl<V, E> Play<Option<V>, View<V, E>> for PassOn {
    ghost then = { passed };
}

pub struct Look;

impl<V, E> Play<Option<V>, View<V, E>> for Look {
    ghost then = { looked };
}

pub struct See<T> {
    value: PhantomData<T>,
}

impl<T: Logged> Play<Option<T>, View<T, T::Entry>> for See<T> {
    ghost then = { saw T.Logged };
}

pub struct Count<T> {
    value: PhantomData<T>,
}

impl<T: Logged> Play<Option<T>, View<T, T::Entry>> for Count<T> {
    ghost then = { tallied T.Logged };
}

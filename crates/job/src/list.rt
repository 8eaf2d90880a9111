// A list with room for as many elements as its limit allows. It lies in the value that has it, and is copied with it.
ghost use Rattle.std.specs.Prelude.{◌≡◌, ◌+◌, ◌<◌, ◌≤◌, ◌==◌, [], ◌∷◌, ◌++◌, length};

use std::marker::Model;

// The elements are the first `len` places. Those behind them hold anything.
#[derive(Clone, Copy)]
pub struct List<T, const CAP: usize> {
    places: [T; CAP],
    len: usize,
}

// The view keeps the places behind the elements too, since a value is copied only if its view gives back all of it.
impl<T, const CAP: usize> Model for List<T, CAP> {
    ghost use Rattle.std.specs.Prelude.{◌≡◌, ◌≤◌, ◌++◌, length, take, drop, refl};
    ghost use Rattle.std.proofs.Common.{take-append-drop, length-take-le};
    ghost use Rattle.job.specs.Items.{Items};

    ghost Value = { Items T };

    ghost view = { λ l. record { items = take l.len l.places; spare = drop l.len l.places } };

    ghost invariant = { λ l. (l.len ≤ length l.places) × (length l.places ≡ CAP) };

    ghost inverse = { λ l. record { places = l.items ++ l.spare; len = length l.items } };

    ghost inverse_ok = { λ l h. rw (take-append-drop l.len l.places, length-take-le l.len l.places h.0) refl };
}

impl<T: Copy + Default, const CAP: usize> List<T, CAP> {
    pub fn new() -> Self
        ensures { result.items ≡ [] }
    {
        List {
            places: [T::default(); CAP],
            len: 0,
        }
    }
}

impl<T: Copy, const CAP: usize> List<T, CAP> {
    #[inline]
    pub fn len(&self) -> usize
        ensures value { result ≡ length self.now.items }
        ensures fits { result ≤ CAP }
    {
        self.len
    }

    #[inline]
    pub fn is_empty(&self) -> bool
        ensures { result ≡ (length self.now.items == 0) }
    {
        self.len == 0
    }

    // Whether there is no room left.
    #[inline]
    pub fn is_full(&self) -> bool
        ensures value { result ≡ (length self.now.items == CAP) }
        ensures fits { length self.now.items ≤ CAP }
    {
        self.len == CAP
    }

    #[inline]
    pub fn as_slice(&self) -> &[T]
        ensures value { result.now ≡ self.now.items }
        ensures fits { length result.now ≤ CAP }
    {
        &self.places[..self.len]
    }

    // Puts an element behind the others.
    #[inline]
    pub fn push(&mut self, element: T)
        requires { length self.old.items < CAP }
        ensures items { self.new.items ≡ self.old.items ++ element ∷ [] }
        ensures len { length self.new.items ≡ length self.old.items + 1 }
    {
        self.places[self.len] = element;
        self.len += 1;
    }
}

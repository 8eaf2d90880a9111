// Whether no cart is in another's way at a step: each step by who stands where.
ghost use Rattle.std.specs.Prelude.{ℕ, ◌+◌, ◌<◌, ◌≤◌, ◌≡◌, true, None, length, get_or};
ghost use Rattle.model.specs.Limits.{max_carts, max_steps};
ghost use Rattle.model.specs.Walk.{At};
ghost use Rattle.job.specs.Held.{as_ride, Decides};
ghost use Rattle.planjudge.specs.PlanTests.{ride_at, Unshared, Trades, Untraded, Clear, Standing};

use job::held::Ride;
use model::Limits;

// Puts each ride's cart on its cell at the step t, until one is taken already. The array is lent: given back in an `Option` it is copied at every step, and a check of 64 paths of 256 steps is
// 4 % slower (tried).
fn stand(rides: &[Ride], t: usize, on: &mut [Option<u8>; Limits::CELLS]) -> bool
    requires { (length rides.now ≤ max_carts) × (t < max_steps) × ((c : ℕ) → get_or on.old c None ≡ None) }
    ensures { Decides result (Unshared rides.now t) × (result ≡ true → Standing rides.now (length rides.now) t on.new) }
{
    for (k, ride) in rides.iter().enumerate() {
        if t <= usize::from(ride.last) {
            let cell = usize::from(ride.cells[t]);
            if on[cell].is_some() {
                return false;
            }
            on[cell] = Some(k as u8);
        }
    }
    true
}

// Whether a ride's cart is on a cell at the step t.
fn is_on(ride: &Ride, t: usize, cell: u8) -> bool
    ensures { Decides result (At (as_ride ride.now).cells t cell) }
{
    t <= usize::from(ride.last) && ride.cells[t] == cell
}

// Whether the cart on the cell that ride k's goes to is going to the cell that ride k's leaves.
fn trades(rides: &[Ride], t: usize, on: &[Option<u8>; Limits::CELLS], k: usize) -> bool
    requires { (length rides.now ≤ max_carts) × (t + 1 < max_steps) × (k < length rides.now) × (t < (ride_at rides.now k).last) × Standing rides.now (length rides.now) t on.now }
    ensures { Decides result (Trades rides.now t k) }
{
    let ride = &rides[k];
    let Some(m) = on[usize::from(ride.cells[t + 1])] else {
        return false;
    };
    let m = usize::from(m);
    m != k && is_on(&rides[m], t + 1, ride.cells[t])
}

// Whether no cart trades places from the step t to the next.
fn untraded(rides: &[Ride], t: usize, on: &[Option<u8>; Limits::CELLS]) -> bool
    requires { (length rides.now ≤ max_carts) × Standing rides.now (length rides.now) t on.now }
    ensures { Decides result (Untraded rides.now t) }
{
    for (k, ride) in rides.iter().enumerate() {
        if t < usize::from(ride.last) && trades(rides, t, on, k) {
            return false;
        }
    }
    true
}

// Takes the carts that stand on their cells at the step t off again.
fn leave(rides: &[Ride], t: usize, on: &mut [Option<u8>; Limits::CELLS])
    requires { (length rides.now ≤ max_carts) × (t < max_steps) × Standing rides.now (length rides.now) t on.old }
    ensures { (c : ℕ) → get_or on.new c None ≡ None }
{
    for ride in rides {
        let last = usize::from(ride.last);
        if t <= last {
            on[usize::from(ride.cells[t])] = None;
        }
    }
}

// Whether the carts are in nobody's way at the step t. The table of who stands where has nobody before, and after a step that is clear.
fn clear(rides: &[Ride], t: usize, on: &mut [Option<u8>; Limits::CELLS]) -> bool
    requires { (length rides.now ≤ max_carts) × (t < max_steps) × ((c : ℕ) → get_or on.old c None ≡ None) }
    ensures { Decides result (Clear rides.now t) × (result ≡ true → (c : ℕ) → get_or on.new c None ≡ None) }
{
    if !stand(rides, t, on) {
        return false;
    }
    if !untraded(rides, t, on) {
        return false;
    }
    leave(rides, t, on);
    true
}

// Whether they are so at every step up to h. The table is made once: made at every step it takes a third of the check of a few carts.
pub fn all_clear(rides: &[Ride], h: usize) -> bool
    requires { (length rides.now ≤ max_carts) × (h < max_steps) }
    ensures { Decides result ((t : ℕ) → t ≤ h → Clear rides.now t) }
{
    let mut on = [None; Limits::CELLS];
    for t in 0..=h {
        if !clear(rides, t, &mut on) {
            return false;
        }
    }
    true
}

// The order of a sheet's lines: paths by call, spare carts by number.
ghost use Rattle.job.specs.Held.{Decides};
ghost use Rattle.planjudge.specs.PlanTests.{CallsKnown, Ordered, SparesRise};

use floor::order::sooner;
use job::held::Ride;
use job::state::Call;

// Whether the calls of the paths are in order, each before the next.
pub fn in_order(calls: &[Call], paths: &[Ride]) -> bool
    requires { CallsKnown calls.now paths.now }
    ensures { Decides result (Ordered calls.now paths.now) }
{
    for pair in paths.windows(2) {
        let p = &calls[usize::from(pair[0].call)];
        let q = &calls[usize::from(pair[1].call)];
        if !sooner(p, q) {
            return false;
        }
    }
    true
}

// Whether the carts rise, each number below the next.
pub fn spares_rise(spares: &[Ride]) -> bool
    ensures { Decides result (SparesRise spares.now) }
{
    spares.windows(2).all(|pair| pair[0].cart < pair[1].cart)
}

// The limits and the answers that every layer takes from here. The definitions of a job, a plan, a choke list and the texts are in specs/.
#![tactic(auto)]

pub mod answer;

ghost use Rattle.std.specs.Prelude.{◌≡◌, [], ◌∷◌};
ghost use Rattle.model.specs.Limits.{max_cells, max_tracks, max_carts, max_calls, max_steps, max_side, max_text};

#[derive(Drop)]
pub struct Limits {}

impl Limits {
    pub const CELLS: usize = 256;

    pub const TRACKS: usize = 512;

    pub const CARTS: usize = 64;

    pub const CALLS: usize = 64;

    // The steps from 0 to the largest deadline allowed, 255.
    pub const STEPS: usize = 256;

    // Rows of a map, and letters of a row.
    pub const SIDE: usize = 64;

    pub const TEXT: usize = 16384;
}

// Holds the numbers of specs/Limits.antt to the code's.
pub fn limits_agree() -> [usize; 7]
    ensures { result ≡ max_cells ∷ max_tracks ∷ max_carts ∷ max_calls ∷ max_steps ∷ max_side ∷ max_text ∷ [] }
{
    [
        Limits::CELLS,
        Limits::TRACKS,
        Limits::CARTS,
        Limits::CALLS,
        Limits::STEPS,
        Limits::SIDE,
        Limits::TEXT,
    ]
}

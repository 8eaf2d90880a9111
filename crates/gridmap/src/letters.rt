// The letters of a map.
ghost use Rattle.std.specs.Prelude.{◌≡◌};
ghost use Rattle.model.specs.GridMap.{is_cell, is_wall};

pub fn cell(letter: u8) -> bool
    ensures { result ≡ is_cell letter }
{
    matches!(letter, b'.' | b'G')
}

pub fn wall(letter: u8) -> bool
    ensures { result ≡ is_wall letter }
{
    matches!(letter, b'@' | b'O' | b'T')
}

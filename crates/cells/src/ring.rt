// Numbers of cells: how many a count demands, and the way round them, where cell 0 follows the last.
// Public for the crates above, which show what `home_of`, `step` and `distance` ask.
ghost use Rattle.std.specs.Prelude.{◌≡◌, ◌<◌, ◌≤◌};
ghost use Rattle.layout.specs.Capacity.{capacity, home_at, power};
ghost use Rattle.layout.specs.Cells.{next, distance as steps};

// The power of two of the capacity. Three quarters of 2 ^ p cells are 3 × 2 ^ (p - 2).
pub fn power_of(count: usize) -> u8
    ensures { result ≡ power count }
{
    (3u8..10)
        .find(|p| count <= 3usize << (*p - 2))
        .unwrap_or(10)
}

// How many cells a count of records demands.
pub fn capacity_of(count: usize) -> usize
    ensures { result ≡ capacity count }
{
    1 << power_of(count)
}

// The home of a hash. Its callers have at most 1024 cells: a clause says so, since lent memory is a slice, a rule of the project.
pub fn home_of(cells: usize, hash: u32) -> usize
    requires { cells ≤ 1024 }
    ensures { result ≡ home_at cells hash }
{
    (hash as u64 * cells as u64 / 4294967296) as usize
}

// The cell that follows cell i.
pub fn step(cells: usize, i: usize) -> usize
    requires { i < cells }
    ensures { result ≡ next cells i }
{
    if i + 1 == cells { 0 } else { i + 1 }
}

// How many steps lead from cell h to cell i.
pub fn distance(cells: usize, h: usize, i: usize) -> usize
    requires { h < cells }
    ensures { result ≡ steps cells h i }
{
    if h <= i { i - h } else { cells - (h - i) }
}

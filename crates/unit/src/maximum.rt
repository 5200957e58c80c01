// The maximum RU, M.
ghost use Rattle.std.specs.Prelude.{◌≡◌};
ghost use Rattle.unit.specs.Maximum.{max_good};

// Bounds of the maximum RU.
pub const LEAST_MAXIMUM: u32 = 8;

pub const GREATEST_MAXIMUM: u32 = 1024;

pub fn max_good(max: u32) -> bool
    ensures { result ≡ max_good max }
{
    (LEAST_MAXIMUM <= max) & (max <= GREATEST_MAXIMUM)
}

// Rule 4: where the parts of a record's block lie.
ghost use Rattle.std.specs.Prelude.{◌≡◌};
ghost use Rattle.parts.specs.Layout.{layout_of};

use crate::settings::Settings;

// A detection's coordinates, the floats of a stored one, where the last detection and the history start, and the block's size.
#[derive(Clone, Copy)]
pub struct Layout {
    pub coords: usize,
    pub width: usize,
    pub last_at: usize,
    pub past_at: usize,
    pub size: usize,
}

pub fn layout_of(settings: Settings) -> Layout
    ensures { result ≡ layout_of settings.config }
{
    let config = settings.config;
    let coords = config.points * config.dims;
    let width = coords + config.points;
    let last_at = 6 * coords;
    let past_at = last_at + width;
    Layout {
        coords,
        width,
        last_at,
        past_at,
        size: past_at + config.past_detections_length * width,
    }
}

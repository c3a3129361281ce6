// Rule 3: settings whose sizes lie in their ranges, which the functions on a record lean on.
ghost use Rattle.parts.specs.Ranges.{Sizes};

use crate::TrackerConfig;

#[derive(Clone, Copy)]
pub struct Settings {
    pub config: TrackerConfig,
    ghost sizes: { Sizes config },
}

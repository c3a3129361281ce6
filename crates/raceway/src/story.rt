// The made-up fish: four swim downstream, each in its lane at its own speed, and the camera does not see each of them in every frame.
use std::alloc::{AllocError, Global};
use std::ops::Range;

// A fish swims from frame `first` on; the camera does not see it in the frames `hidden`.
struct Fish {
    lane: f64,
    speed: f64,
    first: u32,
    hidden: Range<u32>,
}

static FISH: [Fish; 4] = [
    // always in sight
    Fish {
        lane: 10.0,
        speed: 1.5,
        first: 1,
        hidden: 0..0,
    },
    // out of sight for two frames: the tracker still knows it
    Fish {
        lane: 35.0,
        speed: 2.0,
        first: 1,
        hidden: 5..7,
    },
    // out of sight for four frames: its record dies
    Fish {
        lane: 60.0,
        speed: 2.5,
        first: 1,
        hidden: 4..8,
    },
    // comes late
    Fish {
        lane: 85.0,
        speed: 3.0,
        first: 5,
        hidden: 0..0,
    },
];

impl Fish {
    fn is_seen(&self, frame: u32) -> bool {
        self.first <= frame && !self.hidden.contains(&frame)
    }

    // How far downstream the fish is.
    fn reached(&self, frame: u32) -> f64 {
        self.speed * (f64::from(frame) - f64::from(self.first))
    }
}

// Where the camera sees fish in this frame, two coordinates each.
pub(crate) fn camera(alloc: Global, frame: u32) -> Result<Vec<f64>, AllocError> {
    let mut points = Vec::new(alloc);
    for fish in FISH.iter().filter(|fish| fish.is_seen(frame)) {
        points.push(fish.reached(frame))?;
        points.push(fish.lane)?;
    }
    Ok(points)
}

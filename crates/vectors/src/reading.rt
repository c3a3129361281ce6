// The words of the input, one after the other: see FORMAT.md. At the input's end every word is 0.
ghost use Rattle.std.specs.Prelude.{◌≡◌, ◌≤◌, IfOk, vec_len};

use std::alloc::Global;
use std::io;
use std::io::Read;
use tracker::{FilterSettings, TrackerConfig};

// How many bytes are read at a time.
const PART: u64 = 65536;

// The part of the input that was read last, and the place in it.
#[derive(Drop)]
pub(crate) struct Reader<R> {
    input: R,
    part: Vec<u8>,
    at: usize,
    alloc: Global,
}

impl<R: Read> Reader<R> {
    pub(crate) fn new(alloc: Global, input: R) -> Self {
        Reader {
            input,
            part: Vec::new(alloc),
            at: 0,
            alloc,
        }
    }

    // The next part, whole but at the input's end. Where a read fails, no word of it is held to anything.
    fn read_part(&mut self) -> io::Result<()> {
        self.part.clear();
        self.at = 0;
        self.input.by_ref().take(PART).read_to_end(&mut self.part)?;
        Ok(())
    }

    fn byte(&mut self) -> io::Result<Option<u8>> {
        if self.at >= self.part.len() {
            self.read_part()?;
        }
        let byte = self.part.get(self.at).copied();
        if byte.is_some() {
            self.at += 1;
        }
        Ok(byte)
    }

    // The next word, with the byte that ends it.
    pub(crate) fn word(&mut self) -> io::Result<u64> {
        let mut word = 0;
        for _ in 0..17 {
            let Some(digit) = self.byte()?.and_then(digit) else {
                break;
            };
            word = word << 4 | digit;
        }
        Ok(word)
    }

    // The next word as a number, cut down to the most that can be meant.
    pub(crate) fn few(&mut self, most: usize) -> io::Result<usize>
        ensures { IfOk result (λ n. n ≤ most) }
    {
        Ok(self.word()?.min(most as u64) as usize)
    }

    fn signed(&mut self) -> io::Result<i32> {
        Ok(words::moved_down(self.word()?))
    }

    pub(crate) fn float(&mut self) -> io::Result<f64> {
        Ok(words::float_of(self.word()?))
    }

    fn bit(&mut self) -> io::Result<u8> {
        Ok(self.few(1)? as u8)
    }

    // The next n floats.
    pub(crate) fn floats(&mut self, n: usize) -> io::Result<Vec<f64>>
        ensures { IfOk result (λ xs. vec_len xs ≡ n) }
    {
        let alloc = self.alloc;
        (0..n).map(|_| self.float()).try_collect(alloc)
    }

    // The next n words, 0 or 1.
    pub(crate) fn bits(&mut self, n: usize) -> io::Result<Vec<u8>>
        ensures { IfOk result (λ xs. vec_len xs ≡ n) }
    {
        let alloc = self.alloc;
        (0..n).map(|_| self.bit()).try_collect(alloc)
    }

    // The ReID matrix that the host lends to step 3.
    pub(crate) fn matrix(&mut self) -> io::Result<Vec<f64>> {
        let candidates = self.few(32)?;
        let old = self.few(64)?;
        self.floats(candidates * old)
    }

    // A tracker's settings.
    pub(crate) fn settings(&mut self) -> io::Result<TrackerConfig> {
        Ok(TrackerConfig {
            points: self.few(1000)?,
            dims: self.few(1000)?,
            capacity: self.few(1000)?,
            past_detections_length: self.few(1000)?,
            hit_counter_max: self.signed()?,
            initialization_delay: self.signed()?,
            pointwise_hit_counter_max: self.few(100000)? as u32,
            reid_hit_counter_max: reid_counter(self.word()?),
            distance_threshold: self.float()?,
            detection_threshold: self.float()?,
            reid_distance_threshold: self.float()?,
            has_reid_distance: self.word()? != 0,
            filter: self.filter_settings()?,
        })
    }

    fn filter_settings(&mut self) -> io::Result<FilterSettings> {
        Ok(FilterSettings {
            r: self.float()?,
            q: self.float()?,
            pos_variance: self.float()?,
            pos_vel_covariance: self.float()?,
            vel_variance: self.float()?,
        })
    }
}

// What a hexadecimal digit stands for.
fn digit(byte: u8) -> Option<u64> {
    match byte {
        b'0'..=b'9' => Some(u64::from(byte - b'0')),
        b'a'..=b'f' => Some(u64::from(byte - b'a') + 10),
        _ => None,
    }
}

fn reid_counter(word: u64) -> Option<i32> {
    (word != 0).then(|| words::moved_down(word))
}

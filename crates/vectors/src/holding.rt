// What the calls answered, held word by word to what the trace says: every field of every record, and every float of its block.
use crate::lent::Shape;
use crate::reading::Reader;
use parts::TrackedObject;
use std::io::Read;
use std::{fmt, io};
use tracker::{Pair, Refusal, Table};

// An answer that is not the trace's.
#[derive(Clone, Copy)]
pub(crate) struct Difference {
    frame: usize,
    entry: usize,
    name: &'static str,
    expected: u64,
    got: u64,
}

impl fmt::Display for Difference {
    fn fmt<W: fmt::Write>(&self, f: &mut fmt::Formatter<W>) -> fmt::Result {
        write!(
            f,
            "difference in frame {}, entry {}, {}: expected {:x}, got {:x}",
            self.frame, self.entry, self.name, self.expected, self.got
        )
    }
}

// The traces, where the first difference is printed, the frame and the entry at hand, and how often the trace at hand differs so far.
#[derive(Drop)]
pub(crate) struct Trace<'a, R, P> {
    pub(crate) reader: Reader<R>,
    rt: &'a P,
    pub(crate) frame: usize,
    entry: usize,
    pub(crate) differences: u64,
}

impl<'a, R: Read, P: Print> Trace<'a, R, P> {
    pub(crate) fn new(rt: &'a P, reader: Reader<R>) -> Self {
        Trace {
            reader,
            rt,
            frame: 0,
            entry: 0,
            differences: 0,
        }
    }

    // The next trace begins. The entry at hand stays, as it does from one frame to the next.
    pub(crate) fn begin(&mut self) {
        self.frame = 0;
        self.differences = 0;
    }

    // All differences are counted, up to 1,000,000,000, and the first is printed as soon as it is met.
    pub(crate) fn meet(&mut self, name: &'static str, expected: u64, got: u64) -> io::Result<()> {
        if expected == got {
            return Ok(());
        }
        if self.differences == 0 {
            let first = Difference {
                frame: self.frame,
                entry: self.entry,
                name,
                expected,
                got,
            };
            print!(self.rt; "first {first}; ")?;
        }
        if self.differences < 1000000000 {
            self.differences += 1;
        }
        Ok(())
    }

    // A number, held to the next word.
    pub(crate) fn hold(&mut self, name: &'static str, got: u64) -> io::Result<()> {
        let expected = self.reader.word()?;
        self.meet(name, expected, got)
    }

    // A float, held to the next word, NaN as one value.
    fn hold_float(&mut self, name: &'static str, got: f64) -> io::Result<()> {
        let expected = self.reader.float()?;
        self.meet(name, words::word_of(expected), words::word_of(got))
    }

    fn hold_flag(&mut self, name: &'static str, got: bool) -> io::Result<()> {
        self.hold(name, u64::from(got))
    }

    // The pair list, up to the count.
    pub(crate) fn hold_pairs(&mut self, pairs: &[Pair], count: usize) -> io::Result<()> {
        self.hold("number of pairs", count as u64)?;
        for (i, pair) in pairs.iter().take(count).enumerate() {
            self.entry = i;
            self.hold("detection of a pair", pair.detection as u64)?;
            self.hold("global ID of a pair", u64::from(pair.global_id))?;
            self.hold("pass of a pair", u64::from(pair.pass))?;
            self.hold_float("distance of a pair", pair.distance)?;
        }
        Ok(())
    }

    // The active list, up to the count.
    pub(crate) fn hold_active(&mut self, active: &[u32], count: usize) -> io::Result<()> {
        self.hold("number of active records", count as u64)?;
        for (i, id) in active.iter().take(count).enumerate() {
            self.entry = i;
            self.hold("active global ID", u64::from(*id))?;
        }
        Ok(())
    }

    // Both counts, and every record.
    pub(crate) fn hold_table(&mut self, table: &Table, storage: &[f64]) -> io::Result<()> {
        let total = tracker::total_object_count(*table);
        self.hold_count("total", "total's refusal", total)?;
        let current = tracker::current_object_count(*table);
        self.hold_count("current count", "current count's refusal", current)?;
        let records = table.counts.records;
        self.hold("number of records", records as u64)?;
        let shape = Shape::of(&table.config);
        // at least 1, since the table of a refused tracker has no points
        let blocks = storage.chunks(shape.block_floats().max(1));
        let objects = table.records.iter().take(records);
        for (i, (object, block)) in objects.zip(blocks).enumerate() {
            self.entry = i;
            self.hold_object(object, shape.points)?;
            self.hold_floats(block, shape.used_floats(object.past_count))?;
        }
        Ok(())
    }

    fn hold_count(
        &mut self,
        name: &'static str,
        refusal: &'static str,
        answer: Result<usize, Refusal>,
    ) -> io::Result<()> {
        self.meet(refusal, 0, told(answer.err()))?;
        self.hold(name, answer.unwrap_or(0) as u64)
    }

    // Every field of a record, the floats of its block apart.
    fn hold_object(&mut self, object: &TrackedObject, points: usize) -> io::Result<()> {
        let origin = object.origin;
        self.hold("global ID", u64::from(origin.global_id))?;
        self.hold("initializing ID", u64::from(origin.initializing_id))?;
        self.hold("initial period", u64::from(origin.initial_period))?;
        let life = object.life;
        self.hold("age", u64::from(life.age))?;
        self.hold("hit counter", words::moved_up(life.hit_counter))?;
        let reid = life.reid_hit_counter.map_or(0, words::moved_up);
        self.hold("ReID counter", reid)?;
        self.hold_flag("is initializing", life.is_initializing)?;
        self.hold("permanent ID", life.id.map_or(0, u64::from))?;
        let seen = object.detected_at_least_once_points;
        self.hold("seen flags", u64::from(seen))?;
        for counter in object.point_hit_counter.iter().take(points) {
            self.hold("point counter", u64::from(*counter))?;
        }
        let distance = object.last.distance;
        self.hold_flag("has a last distance", distance.is_some())?;
        self.hold_float("last distance", distance.unwrap_or(0.0))?;
        self.hold_flag("last detection has scores", object.last.has_scores)?;
        self.hold_past(object)
    }

    fn hold_past(&mut self, object: &TrackedObject) -> io::Result<()> {
        self.hold("past detections", object.past_count as u64)?;
        for past in object.past.iter().take(object.past_count) {
            let age = past.age.unwrap_or(-1);
            self.hold("age of a past detection", words::moved_up(age))?;
            self.hold_flag("past detection has scores", past.has_scores)?;
        }
        Ok(())
    }

    // The first n floats of a block.
    fn hold_floats(&mut self, block: &[f64], n: usize) -> io::Result<()> {
        for float in block.iter().take(n) {
            self.hold_float("float of the block", *float)?;
        }
        Ok(())
    }
}

// The number of a refusal, 0 where there is none.
pub(crate) fn told(refusal: Option<Refusal>) -> u64 {
    refusal.map_or(0, |refusal| u64::from(refusal.number()))
}

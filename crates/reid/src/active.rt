// Rule 64: the active list.
ghost use Rattle.std.specs.Prelude.{◌≡◌, ◌++◌, ◌≤◌, length, drop};
ghost use Rattle.reid.specs.Step.{active, active_of, active_ids};

use parts::TrackedObject;

// Not initializing, hit counter at least 0.
pub fn is_active(o: &TrackedObject) -> bool
    ensures { result ≡ active o.now }
{
    !o.life.is_initializing && 0 <= o.life.hit_counter
}

// How many records are active.
pub fn active_count(records: &[TrackedObject]) -> usize
    ensures { result ≡ length (active_of (length records.now) records.now) }
{
    records.iter().filter(|o| is_active(o)).count()
}

// The global IDs of the active ones, in front of a lent list.
pub fn list_active(records: &[TrackedObject], list: &mut [u32]) -> usize
    requires { length records.now ≤ length list.old }
    ensures value { result ≡ length (active_ids (length records.now) records.now) }
    ensures list_after { list.new ≡ active_ids (length records.now) records.now ++ drop (length (active_ids (length records.now) records.now)) list.old }
{
    // How many so far, and so where the next one goes.
    let mut count = 0;
    for o in records {
        if is_active(o) {
            list[count] = o.origin.global_id;
            count += 1;
        }
    }
    count
}

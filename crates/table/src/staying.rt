// Rules 30 and 63: the records that stay move down in order, and their blocks with them. Records are lent as `Kept` beside their floats, so that the array is not copied.
ghost use Rattle.std.specs.Prelude.{◌≡◌, false, ◌*◌, ◌≤◌, get_or, length};
ghost use Rattle.parts.specs.Layout.{block_size};
ghost use Rattle.table.specs.Slots.{slots_where, kept_back, floats_back};

use crate::Kept;
use parts::settings::Settings;
use parts::{block, past};

// Of the records at hand those whose flag is set stay, and behind them what was there.
pub fn move_staying(settings: Settings, kept: &mut Kept, s: &mut [f64], stays: [bool; 64])
    requires { (kept.old.count ≤ 64) × (kept.old.count * block_size settings.config ≤ length s.old) }
    ensures value { kept.new ≡ kept_back (slots_where (λ i. get_or stays i false) (block_size settings.config) kept.old.records s.old kept.old.count) kept.old.records }
    ensures s_after { s.new ≡ floats_back (block_size settings.config) (slots_where (λ i. get_or stays i false) (block_size settings.config) kept.old.records s.old kept.old.count) s.old }
{
    let size = block::layout_of(settings).size;
    let n = kept.count;
    kept.count = 0;
    for i in 0..n {
        if stays[i] {
            kept.records[kept.count] = kept.records[i];
            past::move_down(s, kept.count * size, i * size, size);
            kept.count += 1;
        }
    }
}

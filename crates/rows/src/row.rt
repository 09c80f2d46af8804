// One row of the index: an entry for each chain.
ghost use Rattle.std.specs.Prelude.{◌≡◌, ℕ, ◌+◌, ◌*◌, ◌<◌, ◌≤◌, min, length, ◌≢◌, slice_index};
ghost use Rattle.rows.specs.Steps.{Outside};

use crate::layout::Layout;

/// What a row has for a chain where there is no position: the index is the host's, of 16-bit numbers.
pub const NO_POSITION: u16 = 65535;

/// Writes to each entry of the row of t that there is no position.
pub fn empty_row(layout: &Layout, t: u16, index: &mut [u16])
    requires { t * layout.now.chains + layout.now.chains ≤ length index.old }
    ensures row { (c : ℕ) → c < layout.now.chains → slice_index index.new (t * layout.now.chains + c) ≡ 65535 }
    ensures outside { Outside layout.now.chains t index.old index.new }
{
    index[layout.row(t)].fill(NO_POSITION);
}

/// Lowers each entry of the row of t to that of the row of its base.
pub fn merge_row(layout: &Layout, t: u16, base: u16, index: &mut [u16])
    requires apart { base ≢ t }
    requires room { t * layout.now.chains + layout.now.chains ≤ length index.old }
    requires base_room { base * layout.now.chains + layout.now.chains ≤ length index.old }
    ensures row { (c : ℕ) → c < layout.now.chains → slice_index index.new (t * layout.now.chains + c) ≡ min (slice_index index.old (t * layout.now.chains + c)) (slice_index index.old (base * layout.now.chains + c)) }
    ensures outside { Outside layout.now.chains t index.old index.new }
{
    // By place: both rows are parts of one table.
    for (to, from) in layout.row(t).zip(layout.row(base)) {
        index[to] = index[to].min(index[from]);
    }
}

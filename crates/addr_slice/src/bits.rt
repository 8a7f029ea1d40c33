ghost use Rattle.std.specs.Prelude.{◌≡◌, ◌≢◌, ℕ, ◌+◌, ◌*◌, ◌/◌, ◌<◌, ◌≤◌, true, nat_lt, length, slice_index, IfSome};
ghost use Rattle.addr_slice.specs.Claims.{IsNext};
ghost use Rattle.addr_slice.specs.WordSet.{has_bit, in_rows, Puts};

/// How many bits a row has.
pub const ROW: usize = 64;

/// Whether a bit of a row is set.
fn has_bit(row: u64, bit: usize) -> bool
    requires { bit < 64 }
    ensures { result ≡ has_bit row bit }
{
    (row >> bit) & 1 == 1
}

/// The row with one more bit.
fn with_bit(row: u64, bit: usize) -> u64
    requires { bit < 64 }
    ensures some { 0 < result }
    ensures set { has_bit result bit ≡ true }
    ensures others { (k : ℕ) → k ≢ bit → has_bit result k ≡ has_bit row k }
{
    row | 1 << bit
}

/// The least bit that is set.
pub fn least_bit(row: u64) -> usize
    requires { 0 < row }
    ensures within { result < 64 }
    ensures least { IsNext (has_bit row) 0 (Some result) }
{
    row.trailing_zeros() as usize
}

/// The least bit that is set and not below `from`.
pub fn next_bit(row: u64, from: usize) -> Option<usize>
    requires { from < 64 }
    ensures within { IfSome result (λ bit. bit < 64) }
    ensures next { IsNext (has_bit row) from result }
{
    let rest = row >> from;
    if rest == 0 {
        None
    } else {
        Some(from + least_bit(rest))
    }
}

/// Whether a number is in the rows.
pub fn in_rows(rows: &[u64], number: usize) -> bool
    requires { number < 64 * length rows.now }
    ensures { result ≡ in_rows rows.now number }
{
    has_bit(rows[number / ROW], number % ROW)
}

/// Puts a number into the rows.
pub fn put_in_rows(rows: &mut [u64], number: usize)
    requires { number < 64 * length rows.old }
    ensures { Puts rows.old rows.new number }
{
    let row = &mut rows[number / ROW];
    *row = with_bit(*row, number % ROW);
}

/// The least number in the rows that isn't below `from`. It costs the rows that it looks at.
pub fn next_in_rows(rows: &[u64], from: usize) -> Option<usize>
    requires { length rows.now ≤ 16384 }
    ensures { IsNext (in_rows rows.now) from result }
{
    let mut at = from;
    while at / ROW < rows.len() {
        match next_bit(rows[at / ROW], at % ROW) {
            Some(bit) => return Some(at / ROW * ROW + bit),
            None => at = (at / ROW + 1) * ROW,
        }
    }
    None
}

/// Sets to 0 each row whose number is in the summary, which are all that aren't 0.
pub fn empty_rows(rows: &mut [u64], summary: &[u64])
    requires few { length summary.now ≤ 16384 }
    requires exact { (row : ℕ) → in_rows summary.now row ≡ nat_lt 0 (slice_index rows.old row) }
    ensures { (row : ℕ) → slice_index rows.new row ≡ 0 }
{
    let mut from = 0;
    while let Some(row) = next_in_rows(summary, from) {
        rows[row] = 0;
        from = row + 1;
    }
}

/// Sets all rows to 0.
pub fn empty_all_rows(rows: &mut [u64])
    ensures { (row : ℕ) → slice_index rows.new row ≡ 0 }
{
    for row in rows.iter_mut() {
        *row = 0;
    }
}

// Component transfer: the map of a channel, a byte for each byte, worked out from the kind of transfer and its numbers in units.
#![tactic(auto)]

ghost use Rattle.std.specs.Prelude.{◌≡◌, ℕ, ◌+◌, ◌-◌, ◌*◌, ◌/◌, ◌≤◌, ◌<◌, min, length, get_or};
ghost use Rattle.number.specs.Number.{value};
ghost use Rattle.pixel.specs.Coefficient.{Allowed};
ghost use Rattle.pixel.specs.Curve.{table_channel, discrete_channel, linear_channel};
ghost use Rattle.window.specs.Store.{Filled};
ghost use Rattle.kernel_curve.specs.Channel.{value_at, Counted, AllowedValues, channel_map};
ghost use Rattle.kernel_curve.specs.Code.{Entries, EntriesFrom, byte_of};

use number::Fixed;
use pixel::Transfer;

// From units to a byte: 255 times a value, with the half that rounds it added, divided and limited to 255.
fn limited(sum: u64) -> u8
    ensures { result ≡ min (sum / 65536) 255 }
{
    (sum / 65536).min(255) as u8
}

// n + 1 entries, linear between them.
#[tactic(auto, unfolding(pixel::specs::Curve::table_channel))]
fn table_byte(entries: &[u64], n: usize, c: usize) -> u8
    requires { Entries entries.now × (n < 16) × (c < 256) }
    ensures { result ≡ table_channel n (λ (k : ℕ). get_or entries.now k 0) c }
{
    let s = c * n;
    let k = s / 255;
    let t = (s % 255) as u64;
    let low = entries[k];
    let high = entries[k + 1];
    limited((255 - t) * low + t * high + 32768)
}

// One of n entries.
#[tactic(auto, unfolding(pixel::specs::Curve::discrete_channel))]
fn discrete_byte(entries: &[u64], n: usize, c: usize) -> u8
    requires { Entries entries.now × (1 ≤ n) × (n ≤ 16) × (c < 256) }
    ensures { result ≡ discrete_channel n (λ (k : ℕ). get_or entries.now k 0) c }
{
    let k = (c * n / 255).min(n - 1);
    limited(255 * entries[k] + 32768)
}

// What is above zero and what is below it, added apart.
fn linear_byte(slope: Fixed, intercept: Fixed, c: u64) -> u8
    requires { Allowed slope × Allowed intercept × (c < 256) }
    ensures { result ≡ linear_channel (value slope) (value intercept) c }
{
    let above = c * slope.above + 255 * intercept.above + 32768;
    let below = c * slope.below + 255 * intercept.below;
    limited(above.saturating_sub(below))
}

// What a transfer makes of the byte c.
#[tactic(auto, unfolding(crate::specs::Code::byte_of, crate::specs::Channel::Counted))]
fn transfer_byte(
    transfer: Transfer,
    entries: &[u64],
    slope: Fixed,
    intercept: Fixed,
    c: usize,
) -> u8
    requires { Counted transfer × Entries entries.now × Allowed slope × Allowed intercept × (c < 256) }
    ensures { result ≡ byte_of transfer entries.now slope intercept c }
{
    match transfer {
        Transfer::Identity => c as u8,
        Transfer::Table(n) => table_byte(entries, n - 1, c),
        Transfer::Discrete(n) => discrete_byte(entries, n, c),
        Transfer::Linear => linear_byte(slope, intercept, c as u64),
    }
}

// Value i, and 0 behind the last.
fn number_at(values: [Fixed; 64], i: usize) -> Fixed
    ensures { result ≡ value_at values i }
{
    values.get(i).copied().unwrap_or(Fixed::ZERO)
}

// The values from `first` on that a table can look at, which are not below zero.
fn fill_entries(values: [Fixed; 64], first: usize, entries: &mut [u64])
    requires { (first ≤ 64) × (length entries.old ≡ 17) }
    ensures { EntriesFrom values first entries.new }
{
    for (k, entry) in entries.iter_mut().enumerate() {
        *entry = number_at(values, first + k).above;
    }
}

// The same for every byte.
fn fill_bytes(transfer: Transfer, entries: &[u64], slope: Fixed, intercept: Fixed, map: &mut [u8])
    requires { Counted transfer × Entries entries.now × Allowed slope × Allowed intercept × (length map.old ≡ 256) }
    ensures { Filled (byte_of transfer entries.now slope intercept) 0 256 map.old map.new }
{
    for (c, byte) in map.iter_mut().enumerate() {
        *byte = transfer_byte(transfer, entries, slope, intercept, c);
    }
}

// The map of a channel whose numbers stand from `first` on, to 256 bytes from `at` on.
pub fn fill_map(transfer: Transfer, values: [Fixed; 64], first: usize, maps: &mut [u8], at: usize)
    requires { Counted transfer × AllowedValues values × (first ≤ 64) × (at + 256 ≤ length maps.old) }
    ensures { Filled (λ i. channel_map transfer values first (i - at)) at (at + 256) maps.old maps.new }
{
    let mut entries = [0u64; 17];
    fill_entries(values, first, &mut entries);
    let slope = number_at(values, first);
    let intercept = number_at(values, first + 1);
    fill_bytes(
        transfer,
        &entries,
        slope,
        intercept,
        &mut maps[at..at + 256],
    );
}

// The numbers of a component transfer, channel by channel (RULES 5.13).
ghost use Rattle.std.specs.Prelude.{◌≡◌, ◌≤◌};
ghost use Rattle.filter.specs.Curves.{entries?, transfer?, transfers?, entries_of, transfer_count, transfer_range};
ghost use Rattle.filter.specs.Limits.{most_entries};

use super::Sheet;
use number::Range;
use pixel::{Transfer, Transfers};

fn entries_allowed(n: usize) -> bool
    ensures { result ≡ entries? n }
{
    0 < n && n <= Sheet::ENTRIES
}

fn is_allowed(transfer: Transfer) -> bool
    ensures { result ≡ transfer? transfer }
{
    match transfer {
        Transfer::Table(n) | Transfer::Discrete(n) => entries_allowed(n),
        Transfer::Identity | Transfer::Linear => true,
    }
}

// 16.
pub fn are_allowed(transfers: Transfers) -> bool
    ensures { result ≡ transfers? transfers }
{
    is_allowed(transfers.r)
        && is_allowed(transfers.g)
        && is_allowed(transfers.b)
        && is_allowed(transfers.a)
}

// A count that a record claims may be any: one that 16 refuses adds nothing, so that no sum leaves a word.
fn entries_of(n: usize) -> usize
    ensures { (result ≡ entries_of n) × (result ≤ most_entries) }
{
    if entries_allowed(n) {
        return n;
    }
    0
}

pub fn transfer_count(transfer: Transfer) -> usize
    ensures { (result ≡ transfer_count transfer) × (result ≤ most_entries) }
{
    match transfer {
        Transfer::Identity => 0,
        Transfer::Table(n) | Transfer::Discrete(n) => entries_of(n),
        Transfer::Linear => 2,
    }
}

pub fn transfer_range(transfer: Transfer) -> Range
    ensures { result ≡ transfer_range transfer }
{
    match transfer {
        Transfer::Identity | Transfer::Table(_) | Transfer::Discrete(_) => Range::Fraction,
        Transfer::Linear => Range::Coefficient,
    }
}

// The transfers of a curve's line.
ghost use Rattle.std.specs.Prelude.{◌≡◌, ◌≤◌};
ghost use Rattle.text_field.specs.Split.{split};
ghost use Rattle.text_step.specs.Transfers.{transfer_in, head_of, transfer_fields, transfers_in};

use super::fields::whole_at;
use filter::curves::transfer_count;
use pixel::{Transfer, Transfers};
use text_field::lines::field;

// The transfer whose word stands in field p.
#[tactic(auto, unfolding(crate::specs::Transfers::transfer_in))]
fn transfer_in(line: &[u8], p: usize) -> Option<Transfer>
    requires { p ≤ 60 }
    ensures { result ≡ transfer_in (split 9 line.now) p }
{
    match field(line, p) {
        b"identity" => Some(Transfer::Identity),
        b"table" => Some(Transfer::Table(whole_at(line, p + 1))),
        b"discrete" => Some(Transfer::Discrete(whole_at(line, p + 1))),
        b"linear" => Some(Transfer::Linear),
        _ => None,
    }
}

// The fields of a channel in front of its numbers, and all of them.
pub fn head_of(transfer: Transfer) -> usize
    ensures { (result ≡ head_of transfer) × (result ≤ 2) }
{
    match transfer {
        Transfer::Identity | Transfer::Linear => 1,
        Transfer::Table(_) | Transfer::Discrete(_) => 2,
    }
}

fn transfer_fields(transfer: Transfer) -> usize
    ensures { (result ≡ transfer_fields transfer) × (result ≤ 18) }
{
    head_of(transfer) + transfer_count(transfer)
}

// The transfers of a line, each from where the one before ends.
#[tactic(auto, unfolding(crate::specs::Transfers::transfers_of))]
pub fn transfers_in(line: &[u8]) -> Option<Transfers>
    ensures { result ≡ transfers_in (split 9 line.now) }
{
    let r = transfer_in(line, 6)?;
    let green = 6 + transfer_fields(r);
    let g = transfer_in(line, green)?;
    let blue = green + transfer_fields(g);
    let b = transfer_in(line, blue)?;
    let alpha = blue + transfer_fields(b);
    let a = transfer_in(line, alpha)?;
    Some(Transfers { r, g, b, a })
}

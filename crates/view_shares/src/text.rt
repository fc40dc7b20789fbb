//! The text of shares and overspending.
ghost use Rattle.std.specs.Prelude.{◌≡◌, ◌≤◌, ◌++◌, length, string_bytes, IfOk, OnOk, slice_index_or, None};
ghost use Rattle.std.specs.List.{flat_map, enumerate_from};
ghost use Rattle.aps_model.specs.After.{state_after};
ghost use Rattle.aps_model.specs.Legal.{IsLegal};
ghost use Rattle.view_shares.specs.Share.{no_share};
ghost use Rattle.view_shares.specs.Spent.{AreSpent};
ghost use Rattle.view_shares.specs.Text as spec;
ghost use Rattle.aps_model.specs.Limits.{most_entries, most_partitions};

use crate::lines::{add_head, add_partition};
use crate::overspending::all_spent;
use crate::share::Share;
use crate::shares::{all_shares, tick_of_all};
use crate::spent::Spent;
use aps_model::{History, NoMemory, Order, PartitionRow};
use std::alloc::Global;

/// What each partition gets of the time that its budget allows, over all windows that are full, and how often it overspent
/// its critical budget; all in ns. Partitions come by their numbers. The history is legal in this order of turns. `NoMemory`
/// comes where memory runs out.
pub fn shares_text(alloc: Global, history: &History, order: Order) -> Result<String, NoMemory>
    requires legal { IsLegal history.now.scenario order history.now.entries }
    requires few { length history.now.entries ≤ most_entries }
    ensures { IfOk result (λ text. string_bytes text ≡ spec.shares_text history.now.scenario history.now.entries) }
{
    let spent = all_spent(alloc, history, order)?;
    shares_text_with(alloc, history, order, &spent)
}

/// The same, where it is given how often each partition overspent its critical budget; all in ns. Partitions come by their
/// numbers. The history is legal in this order of turns. `NoMemory` comes where memory runs out.
pub fn shares_text_with(
    alloc: Global,
    history: &History,
    order: Order,
    spent: &[Option<Spent>; 32],
) -> Result<String, NoMemory>
    requires legal { IsLegal history.now.scenario order history.now.entries }
    requires few { length history.now.entries ≤ most_entries }
    requires spent { AreSpent history.now.scenario history.now.entries spent.now }
    ensures { IfOk result (λ text. string_bytes text ≡ spec.shares_text history.now.scenario history.now.entries) }
{
    let all = all_shares(alloc, history, order)?;
    let turn = tick_of_all(history.scenario().shape());
    let mut out = String::new(alloc);
    add_head(&mut out, &all.shares.counts, turn)?;
    add_partitions(&mut out, all.rows.as_slice(), &all.shares.each, spent)?;
    Ok(out)
}

/// All partitions, by their numbers.
fn add_partitions(
    out: &mut String,
    rows: &[PartitionRow],
    shares: &[Share; 32],
    spent: &[Option<Spent>; 32],
) -> Result<(), NoMemory>
    requires { length rows.now ≤ most_partitions }
    ensures { OnOk result (string_bytes out.new
        ≡ string_bytes out.old
        ++ flat_map (spec.partition_share_text (λ p. slice_index_or shares.now p no_share) (λ p. slice_index_or spent.now p None))
        (enumerate_from 0 rows.now)) }
{
    for (p, row) in rows.iter().enumerate() {
        add_partition(out, p, &row.name, &shares[p], &spent[p])?;
    }
    Ok(())
}

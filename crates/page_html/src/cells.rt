//! The cells of the table of moves.
ghost use Rattle.std.specs.Prelude.{◌≡◌, ◌<◌, ◌+◌, ◌^◌, ◌++◌, OnOk, codes};
ghost use Rattle.std.specs.Fmt.{decimal};
ghost use Rattle.tree_rows.specs.Numbers.{AreSmall};
ghost use Rattle.tree_rows.specs.TreeText.{quotient};
ghost use Rattle.page_html.specs.Table.{averages, bar, bar_start, cell, cell_start, columns, part_of_bar, part_start, parts_of_bar, results, share, unfinished, wins_and_draws};

use crate::numbers::{push_attribute, push_number, push_quotient, push_share};
use std::alloc::{AllocError, Global};
use tree_rows::Numbers;

/// Adds the numbers of a row, of so many games in all.
#[tactic(auto, using(std::proofs::Common::append_assoc), unfolding(crate::specs::Table::columns))]
pub(crate) fn push_columns(out: &mut Vec<u8>, n: &Numbers, whole: u128) -> Result<(), AllocError>
    requires small { AreSmall n.now }
    ensures added { OnOk result (out.new.items ≡ out.old.items ++ columns whole n.now) }
{
    push_number_cell(out, b"count", n.games)?;
    push_share_cell(out, b"share", n.games, whole)?;
    push_results_cell(out, n)?;
    push_averages(out, n)
}

// Adds the score and the averages.
#[tactic(auto, using(std::proofs::Common::append_assoc), unfolding(crate::specs::Table::averages))]
fn push_averages(out: &mut Vec<u8>, n: &Numbers) -> Result<(), AllocError>
    requires small { AreSmall n.now }
    ensures added { OnOk result (out.new.items ≡ out.old.items ++ averages n.now) }
{
    push_share_cell(out, b"score", 2 * n.white + n.draws, 2 * ended(n))?;
    push_quotient_cell(out, b"rating", n.mover_sum, n.mover_rated)?;
    push_quotient_cell(out, b"other", n.other_sum, n.other_rated)?;
    push_quotient_cell(out, b"year", n.year_sum, n.dated)
}

// How many games ended.
fn ended(n: &Numbers) -> u128
    requires small { AreSmall n.now }
    ensures sum { result ≡ n.now.white + n.now.draws + n.now.black }
    ensures few { result < 2 ^ 102 }
{
    n.white + n.draws + n.black
}

// Begins a cell of a column of this class.
#[tactic(auto, using(std::proofs::Common::append_assoc), unfolding(crate::specs::Table::cell_start))]
fn begin_cell(out: &mut Vec<u8>, class: &[u8]) -> Result<(), AllocError>
    ensures added { OnOk result (out.new.items ≡ out.old.items ++ cell_start class.now) }
{
    out.extend_from_slice(b"<td class=\"")?;
    out.extend_from_slice(class)?;
    out.extend_from_slice(b"\">")?;
    Ok(())
}

// Adds a cell with a number.
#[tactic(auto, using(std::proofs::Common::append_assoc), unfolding(crate::specs::Table::cell))]
fn push_number_cell(out: &mut Vec<u8>, class: &[u8], number: u128) -> Result<(), AllocError>
    ensures added { OnOk result (out.new.items ≡ out.old.items ++ cell class.now (decimal number)) }
{
    begin_cell(out, class)?;
    push_number(out, number)?;
    out.extend_from_slice(b"</td>")?;
    Ok(())
}

// Adds a cell with a share.
#[tactic(auto, using(std::proofs::Common::append_assoc), unfolding(crate::specs::Table::cell))]
fn push_share_cell(
    out: &mut Vec<u8>,
    class: &[u8],
    part: u128,
    whole: u128,
) -> Result<(), AllocError>
    requires small { part < 2 ^ 110 }
    ensures added { OnOk result (out.new.items ≡ out.old.items ++ cell class.now (share part whole)) }
{
    begin_cell(out, class)?;
    push_share(out, part, whole)?;
    out.extend_from_slice(b"</td>")?;
    Ok(())
}

// Adds a cell with a quotient.
#[tactic(auto, using(std::proofs::Common::append_assoc), unfolding(crate::specs::Table::cell))]
fn push_quotient_cell(
    out: &mut Vec<u8>,
    class: &[u8],
    number: u128,
    by: u128,
) -> Result<(), AllocError>
    ensures added { OnOk result (out.new.items ≡ out.old.items ++ cell class.now (quotient number by)) }
{
    begin_cell(out, class)?;
    push_quotient(out, number, by)?;
    out.extend_from_slice(b"</td>")?;
    Ok(())
}

// Adds the cell of the results.
#[tactic(auto, using(std::proofs::Common::append_assoc), unfolding(crate::specs::Table::cell))]
fn push_results_cell(out: &mut Vec<u8>, n: &Numbers) -> Result<(), AllocError>
    requires small { AreSmall n.now }
    ensures added { OnOk result (out.new.items ≡ out.old.items ++ cell (codes "results") (bar n.now ++ results n.now)) }
{
    begin_cell(out, b"results")?;
    push_bar(out, n)?;
    push_results(out, n)?;
    out.extend_from_slice(b"</td>")?;
    Ok(())
}

// Adds the bar of the games that White won, that were drawn and that Black won.
#[tactic(auto, using(std::proofs::Common::append_assoc), unfolding(crate::specs::Table::bar))]
fn push_bar(out: &mut Vec<u8>, n: &Numbers) -> Result<(), AllocError>
    requires small { AreSmall n.now }
    ensures added { OnOk result (out.new.items ≡ out.old.items ++ bar n.now) }
{
    let width = ended(n);
    if width == 0 {
        return Ok(());
    }
    begin_bar(out, width)?;
    push_parts(out, n)?;
    out.extend_from_slice(b"</svg>")
}

// Begins a bar that is so wide.
#[tactic(auto, using(std::proofs::Common::append_assoc), unfolding(crate::specs::Table::bar_start))]
fn begin_bar(out: &mut Vec<u8>, width: u128) -> Result<(), AllocError>
    ensures added { OnOk result (out.new.items ≡ out.old.items ++ bar_start width) }
{
    out.extend_from_slice(
        b"<svg aria-hidden=\"true\" preserveAspectRatio=\"none\" viewBox=\"0 0 ",
    )?;
    push_number(out, width)?;
    out.extend_from_slice(b" 1\">")?;
    Ok(())
}

// Adds the parts of a bar.
#[tactic(auto, using(std::proofs::Common::append_assoc), unfolding(crate::specs::Table::parts_of_bar))]
fn push_parts(out: &mut Vec<u8>, n: &Numbers) -> Result<(), AllocError>
    requires small { AreSmall n.now }
    ensures added { OnOk result (out.new.items ≡ out.old.items ++ parts_of_bar n.now) }
{
    push_part(out, b"won", 0, n.white)?;
    push_part(out, b"drawn", n.white, n.draws)?;
    push_part(out, b"lost", n.white + n.draws, n.black)
}

// Adds a part of a bar.
#[tactic(auto, using(std::proofs::Common::append_assoc), unfolding(crate::specs::Table::part_of_bar))]
fn push_part(out: &mut Vec<u8>, class: &[u8], from: u128, width: u128) -> Result<(), AllocError>
    ensures added { OnOk result (out.new.items ≡ out.old.items ++ part_of_bar class.now from width) }
{
    if width == 0 {
        return Ok(());
    }
    begin_part(out, class)?;
    push_attribute(out, b"x", from)?;
    push_attribute(out, b"width", width)?;
    out.extend_from_slice(b"/>")
}

// Begins a part of a bar.
#[tactic(auto, using(std::proofs::Common::append_assoc), unfolding(crate::specs::Table::part_start))]
fn begin_part(out: &mut Vec<u8>, class: &[u8]) -> Result<(), AllocError>
    ensures added { OnOk result (out.new.items ≡ out.old.items ++ part_start class.now) }
{
    out.extend_from_slice(b"<rect class=\"")?;
    out.extend_from_slice(class)?;
    out.extend_from_slice(b"\" height=\"1\"")
}

// Adds how many games White won, how many were drawn, how many Black won, and how many have no result.
#[tactic(auto, using(std::proofs::Common::append_assoc), unfolding(crate::specs::Table::results))]
fn push_results(out: &mut Vec<u8>, n: &Numbers) -> Result<(), AllocError>
    ensures added { OnOk result (out.new.items ≡ out.old.items ++ results n.now) }
{
    out.extend_from_slice(b"<small>+")?;
    push_wins_and_draws(out, n)?;
    push_unfinished(out, n.unfinished)?;
    out.extend_from_slice(b"</small>")
}

// Adds how many games White won, how many were drawn, and how many Black won.
#[tactic(auto, using(std::proofs::Common::append_assoc), unfolding(crate::specs::Table::wins_and_draws))]
fn push_wins_and_draws(out: &mut Vec<u8>, n: &Numbers) -> Result<(), AllocError>
    ensures added { OnOk result (out.new.items ≡ out.old.items ++ wins_and_draws n.now) }
{
    push_number(out, n.white)?;
    out.extend_from_slice(b" =")?;
    push_number(out, n.draws)?;
    out.extend_from_slice(b" -")?;
    push_number(out, n.black)
}

// Adds how many games have no result, if there are any.
#[tactic(auto, using(std::proofs::Common::append_assoc), unfolding(crate::specs::Table::unfinished))]
fn push_unfinished(out: &mut Vec<u8>, number: u128) -> Result<(), AllocError>
    ensures added { OnOk result (out.new.items ≡ out.old.items ++ unfinished number) }
{
    if number == 0 {
        return Ok(());
    }
    out.extend_from_slice(b" *")?;
    push_number(out, number)
}

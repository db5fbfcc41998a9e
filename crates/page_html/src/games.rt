//! The games of a page.
ghost use Rattle.std.specs.Prelude.{◌≡◌, ◌<◌, ◌++◌, OnOk, flat_map, length};
ghost use Rattle.sig_index.specs.Games.{head_in};
ghost use Rattle.page_html.specs.Listing.{black_cells, event_cells, game_link, game_row, games_head, games_table, known, number_cell, place_text, rating_cell, result_cell, row_if_there, white_cells, year_cell};

use crate::frame::game_file_name;
use crate::numbers::push_number;
use crate::text::push_text;
use book_pages::Listed;
use sig_index::{Games, HeadName};
use std::alloc::{AllocError, Global};

/// Adds games, if there are any: players with their ratings, result, event and year.
#[tactic(auto, using(std::proofs::Common::append_assoc), unfolding(crate::specs::Listing::games_table))]
pub(crate) fn push_games<G: Games>(
    out: &mut Vec<u8>,
    games: &G,
    listed: &[Listed],
) -> Result<(), AllocError>
    ensures added { OnOk result (out.new.items ≡ out.old.items ++ games_table (G.heads games.now) listed.now) }
{
    if listed.is_empty() {
        return Ok(());
    }
    out.extend_from_slice(games_head())?;
    push_rows(out, games, listed)?;
    out.extend_from_slice(b"</tbody>\n</table></div>\n")
}

// What stands before the rows.
#[tactic(auto, unfolding(crate::specs::Listing::games_head))]
fn games_head() -> &'static [u8]
    ensures text { result.now ≡ games_head }
{
    b"<div class=\"scroll\" role=\"region\" aria-labelledby=\"games\" tabindex=\"0\"><table class=\"games\">\n<caption id=\"games\">Best rated games</caption>\n<thead><tr><th scope=\"col\" class=\"number\">Game</th><th scope=\"col\">White</th><th scope=\"col\" class=\"rating\">Rating</th><th scope=\"col\">Black</th><th scope=\"col\" class=\"rating\">Rating</th><th scope=\"col\">Result</th><th scope=\"col\" class=\"event\">Event</th><th scope=\"col\" class=\"year\">Year</th></tr></thead>\n<tbody>\n"
}

// Adds the rows of games.
fn push_rows<G: Games>(out: &mut Vec<u8>, games: &G, listed: &[Listed]) -> Result<(), AllocError>
    ensures rows { OnOk result (out.new.items ≡ out.old.items ++ flat_map (row_if_there (G.heads games.now)) listed.now) }
{
    for game in listed {
        push_row(out, games, game)?;
    }
    Ok(())
}

// Adds the row of a game, if the base has it.
fn push_row<G: Games>(out: &mut Vec<u8>, games: &G, game: &Listed) -> Result<(), AllocError>
    ensures row { OnOk result (out.new.items ≡ out.old.items ++ row_if_there (G.heads games.now) game.now) }
{
    if game.number >= games.len() {
        return Ok(());
    }
    push_game(out, games, game)
}

// Adds one game, with a link to its page.
#[tactic(auto, using(std::proofs::Common::append_assoc), unfolding(crate::specs::Listing::game_row))]
fn push_game<G: Games>(out: &mut Vec<u8>, games: &G, game: &Listed) -> Result<(), AllocError>
    requires game { game.now.number < length (G.sigs games.now) }
    ensures row { OnOk result (out.new.items ≡ out.old.items ++ game_row game.now (head_in (G.heads games.now) game.now.number)) }
{
    push_white(out, games, game)?;
    push_black(out, games, game.number)?;
    push_event(out, games, game.number)
}

// Adds the number of a game, and White with a link to its page.
#[tactic(auto, using(std::proofs::Common::append_assoc), unfolding(crate::specs::Listing::white_cells))]
fn push_white<G: Games>(out: &mut Vec<u8>, games: &G, game: &Listed) -> Result<(), AllocError>
    requires game { game.now.number < length (G.sigs games.now) }
    ensures cells { OnOk result (out.new.items ≡ out.old.items ++ white_cells game.now (head_in (G.heads games.now) game.now.number)) }
{
    push_game_number(out, u128::from(game.number))?;
    push_game_link(out, game)?;
    push_text(out, games.name(game.number, HeadName::White))?;
    out.extend_from_slice(b"</a></th>")?;
    push_rating(out, games.white_rating(game.number).value)
}

// Adds the number of a game, and begins the cell of White.
#[tactic(auto, unfolding(crate::specs::Listing::number_cell))]
fn push_game_number(out: &mut Vec<u8>, number: u128) -> Result<(), AllocError>
    ensures cell { OnOk result (out.new.items ≡ out.old.items ++ number_cell number) }
{
    out.extend_from_slice(b"<tr><td class=\"number\">")?;
    push_number(out, number)?;
    out.extend_from_slice(b"</td><th scope=\"row\">")?;
    Ok(())
}

// Adds Black.
#[tactic(auto, using(std::proofs::Common::append_assoc), unfolding(crate::specs::Listing::black_cells))]
fn push_black<G: Games>(out: &mut Vec<u8>, games: &G, i: u32) -> Result<(), AllocError>
    requires game { i < length (G.sigs games.now) }
    ensures cells { OnOk result (out.new.items ≡ out.old.items ++ black_cells (head_in (G.heads games.now) i)) }
{
    out.extend_from_slice(b"<td>")?;
    push_text(out, games.name(i, HeadName::Black))?;
    out.extend_from_slice(b"</td>")?;
    push_rating(out, games.black_rating(i).value)
}

// Adds the result, the event and the year.
#[tactic(auto, using(std::proofs::Common::append_assoc), unfolding(crate::specs::Listing::event_cells))]
fn push_event<G: Games>(out: &mut Vec<u8>, games: &G, i: u32) -> Result<(), AllocError>
    requires game { i < length (G.sigs games.now) }
    ensures cells { OnOk result (out.new.items ≡ out.old.items ++ event_cells (head_in (G.heads games.now) i)) }
{
    push_result(out, games.outcome(i).text())?;
    push_text(out, games.name(i, HeadName::Event))?;
    push_year(out, games.date(i).year)
}

// Ends the cell of the event, and adds the year.
#[tactic(auto, unfolding(crate::specs::Listing::year_cell))]
fn push_year(out: &mut Vec<u8>, year: u16) -> Result<(), AllocError>
    ensures cell { OnOk result (out.new.items ≡ out.old.items ++ year_cell year) }
{
    out.extend_from_slice(b"</td><td class=\"year\">")?;
    push_known(out, year)?;
    out.extend_from_slice(b"</td></tr>\n")?;
    Ok(())
}

// Adds the text of a result, and begins the cell of the event.
#[tactic(auto, unfolding(crate::specs::Listing::result_cell))]
fn push_result(out: &mut Vec<u8>, text: &[u8]) -> Result<(), AllocError>
    ensures cell { OnOk result (out.new.items ≡ out.old.items ++ result_cell text.now) }
{
    out.extend_from_slice(b"<td class=\"result\">")?;
    out.extend_from_slice(text)?;
    out.extend_from_slice(b"</td><td class=\"event\">")?;
    Ok(())
}

// Adds the beginning of a link to a game's page, at the position at which the game is listed.
#[tactic(auto, using(std::proofs::Common::append_assoc), unfolding(crate::specs::Listing::game_link))]
fn push_game_link(out: &mut Vec<u8>, game: &Listed) -> Result<(), AllocError>
    ensures link { OnOk result (out.new.items ≡ out.old.items ++ game_link game.now) }
{
    out.extend_from_slice(b"<a href=\"")?;
    game_file_name(out, game.number)?;
    push_ply(out, game.ply)?;
    out.extend_from_slice(b"\">")
}

// Adds the place of a game's page at which it is played so far.
#[tactic(auto, using(std::proofs::Common::append_assoc), unfolding(crate::specs::Listing::place_text))]
fn push_ply(out: &mut Vec<u8>, ply: u32) -> Result<(), AllocError>
    ensures place { OnOk result (out.new.items ≡ out.old.items ++ place_text ply) }
{
    if ply == 0 {
        return Ok(());
    }
    out.extend_from_slice(b"#m")?;
    push_number(out, u128::from(ply))
}

// Adds a rating in a column of its own.
#[tactic(auto, unfolding(crate::specs::Listing::rating_cell))]
fn push_rating(out: &mut Vec<u8>, rating: u16) -> Result<(), AllocError>
    ensures cell { OnOk result (out.new.items ≡ out.old.items ++ rating_cell rating) }
{
    out.extend_from_slice(b"<td class=\"rating\">")?;
    push_known(out, rating)?;
    out.extend_from_slice(b"</td>")?;
    Ok(())
}

/// Adds a number, or a dash for 0, which stands for one that is not known.
#[tactic(auto, unfolding(crate::specs::Listing::known))]
pub(crate) fn push_known(out: &mut Vec<u8>, number: u16) -> Result<(), AllocError>
    ensures added { OnOk result (out.new.items ≡ out.old.items ++ known number) }
{
    if number == 0 {
        return out.extend_from_slice(b"-");
    }
    push_number(out, u128::from(number))
}

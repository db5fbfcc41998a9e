//! Changes of each kind by each client.
ghost use Rattle.std.specs.Prelude.{◌≡◌, ◌<◌, IfOk, OnOk, length};
ghost use Rattle.session_vectors.specs.Ready.{IsReady};

use super::ready::{begin, bring, filter, watch};
use cell_core::{Board, Colour, Move, Square, pack};
use client_desk::{Change, Client, Desk};
use game_filter::{Filter, Renumbering};
use game_tree::Outcome;
use std::alloc::Global;
use std::process::Abort;
use std::test::Fail;
use tree_live::{TableView, TreeView};
use tree_rows::GameHit;

/// What a client sees: how many games its two slots count, how many are in its filter, and the ply of the second game
/// there.
type Seen = (u32, u32, u32, Option<u32>);

// What a client sees after four changes of its own, counted by hand, with the second game at ply 5 before:
//
// - A game comes in that the client's first slot counts.
// - The second game is replaced by one that no slot counts.
// - It gets another head, and both slots count it.
// - The game that came in goes.
const OWN: [Seen; 4] = [
    (3, 1, 3, Some(5)),
    (2, 0, 3, Some(0)),
    (3, 1, 3, Some(0)),
    (2, 1, 2, Some(0)),
];

// What it sees after those of another client.
const OTHERS: [Seen; 4] = [
    (2, 1, 2, Some(0)),
    (1, 0, 2, Some(0)),
    (2, 1, 2, Some(0)),
    (2, 1, 2, Some(0)),
];

fn counted(view: &Option<Box<dyn TreeView>>) -> u32 {
    match view {
        None => 0,
        Some(view) => {
            let mut games = 0u32;
            for i in 0..view.len() {
                games = games.saturating_add(view.row(i).games);
            }
            games
        }
    }
}

fn seen(rt: &impl Abort, desk: &Desk, views: &[Option<Box<dyn TreeView>>], client: Client) -> Seen {
    assert_eq!(rt; views.len(), 8);
    let place = 2 * usize::from(client.number());
    let filter = desk.seat(client).filter();
    assert!(rt; filter.len() > 1);
    (
        counted(&views[place]),
        counted(&views[place + 1]),
        filter.count(),
        filter.get(1),
    )
}

// All four see what they should after a change of one of them.
fn all_see(
    rt: &impl Abort,
    desk: &Desk,
    views: &[Option<Box<dyn TreeView>>],
    by: Client,
    own: Seen,
    others: Seen,
) {
    for number in 0..4u8 {
        if let Some(client) = Client::new(number) {
            let expected = if client == by { own } else { others };
            assert_eq!(rt; seen(rt, desk, views, client), expected);
        }
    }
}

// A game that goes on with a move from this square to that two ranks above.
fn played(from: u8) -> Option<GameHit>
    requires { from < 48 }
{
    Some(GameHit {
        next: Some(Move {
            from: Square::at(from),
            to: Square::at(from + 16),
            promo: None,
        }),
        result: Outcome::Draw,
        mover: 2400,
        other: 0,
        year: 2024,
    })
}

// Hits in the first and the second slot of each client.
fn in_slots(first: &Option<GameHit>, second: &Option<GameHit>) -> [Option<GameHit>; 8] {
    [
        *first, *second, *first, *second, *first, *second, *first, *second,
    ]
}

// A client watches the empty board in both slots: the first counts both games, the second the second one.
fn watch_both(
    alloc: Global,
    desk: &mut Desk,
    views: &mut [Option<Box<dyn TreeView>>],
    by: Client,
) -> Result<(), Fail>
    requires ready { IsReady (λ b. rows b) desk.old views.old 2 }
    ensures ready { OnOk result (IsReady (λ b. rows b) desk.new views.new 2) }
{
    let board = pack(&Board::empty(), Colour::White);
    let both = Vec::from_array(alloc, [played(12), played(11)])?;
    watch(alloc, desk, views, by, 0, board, both)?;
    let second = Vec::from_array(alloc, [None, played(11)])?;
    watch(alloc, desk, views, by, 1, board, second)?;
    Ok(())
}

// Both games are in, the second at ply 5.
fn late(alloc: Global) -> Result<Filter, Fail>
    ensures games { IfOk result (λ filter. length filter ≡ 2) }
{
    let mut late = Filter::new(alloc, 2)?;
    late.set(1, Some(5));
    Ok(late)
}

// A client makes a change of each kind, and all see what they should after each.
fn change_all(
    rt: &impl Abort,
    alloc: Global,
    desk: &mut Desk,
    views: &mut [Option<Box<dyn TreeView>>],
    by: Client,
) -> Result<(), Fail>
    requires ready { IsReady (λ b. rows b) desk.old views.old 2 }
    ensures ready { OnOk result (IsReady (λ b. rows b) desk.new views.new 2) }
{
    filter(alloc, desk, views, by, late(alloc)?)?;
    let added = Change::Added {
        hits: in_slots(&played(12), &None),
    };
    bring(alloc, desk, views, by, &added, 2, 3)?;
    all_see(rt, desk, views, by, OWN[0], OTHERS[0]);
    let replaced = Change::Edited {
        game: 1,
        replaced: true,
        hits: in_slots(&None, &None),
    };
    bring(alloc, desk, views, by, &replaced, 3, 3)?;
    all_see(rt, desk, views, by, OWN[1], OTHERS[1]);
    change_more(rt, alloc, desk, views, by)
}

// The last two changes.
fn change_more(
    rt: &impl Abort,
    alloc: Global,
    desk: &mut Desk,
    views: &mut [Option<Box<dyn TreeView>>],
    by: Client,
) -> Result<(), Fail>
    requires ready { IsReady (λ b. rows b) desk.old views.old 3 }
    ensures ready { OnOk result (IsReady (λ b. rows b) desk.new views.new 2) }
{
    let tagged = Change::Edited {
        game: 1,
        replaced: false,
        hits: in_slots(&played(11), &played(11)),
    };
    bring(alloc, desk, views, by, &tagged, 3, 3)?;
    all_see(rt, desk, views, by, OWN[2], OTHERS[2]);
    let mut fewer = Renumbering::new(alloc);
    fewer.keep()?;
    fewer.keep()?;
    fewer.remove()?;
    let _to = fewer.to();
    bring(alloc, desk, views, by, &Change::Renumbered(fewer), 3, 2)?;
    all_see(rt, desk, views, by, OWN[3], OTHERS[3]);
    Ok(())
}

// All four watch, and then each makes its changes.
fn change_by_each(
    rt: &impl Abort,
    alloc: Global,
    views: &mut [Option<Box<dyn TreeView>>],
    clients: &[Client],
) -> Result<(), Fail> {
    let mut desk = begin(alloc, views, 2)?;
    for client in clients {
        watch_both(alloc, &mut desk, views, *client)?;
    }
    for client in clients {
        change_all(rt, alloc, &mut desk, views, *client)?;
    }
    Ok(())
}

#[test]
fn changes_of_each_kind_by_each_client(rt: HostRuntime) -> Result<(), Fail> {
    let mut views: Vec<Option<Box<dyn TreeView>>> = Vec::new(rt.alloc());
    let mut clients = Vec::new(rt.alloc());
    for number in 0..4u8 {
        for _slot in 0..2u8 {
            let view: Box<dyn TreeView> = Box::new(
                rt.alloc(),
                TableView::new(Vec::new(rt.alloc()), None),
            )?;
            views.push(Some(view))?;
        }
        if let Some(client) = Client::new(number) {
            clients.push(client)?;
        }
    }
    change_by_each(&rt, rt.alloc(), views.as_mut_slice(), clients.as_slice())
}

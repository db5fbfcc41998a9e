//! Games as plain trees of moves with their comments, annotations and variations, and the heads of games: names, dates,
//! results, ratings and tags.
#![tactic(auto)]

mod bounds;
mod builder;
mod counts;
mod date;
mod decimal;
mod eco;
mod game;
mod head;
mod legality;
mod marks;
mod node;
mod open_line;
mod outcome;
mod promotions;
mod settling;
mod tag_edit;
mod tag_name;
mod tags;

pub use bounds::{are_bounded, is_name};
pub use builder::Builder;
pub use counts::Counts;
pub use date::Date;
pub use decimal::read_decimal;
pub use eco::{eco_text, read_eco};
pub use game::{Game, main_line, plies};
pub use head::{Head, HeadRef, Outcome, Rating, Tag};
pub use legality::{DEEPEST, comments_leave_the_moves, legal};
pub use marks::mark_letters;
pub use node::{Branch, Node};
pub use promotions::Promotions;
pub use settling::settle;
pub use tag_edit::{TagEdit, TagEditError, apply};
pub use tag_name::{is_refused, is_reserved, is_tag_byte, is_tag_name, rating_of, rating_tag};
pub use tags::Tags;

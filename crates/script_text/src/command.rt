//! The commands of a script.
use cell_core::{Board, Colour, Text};
use game_filter::Op;
use game_tree::TagEdit;
use sig_index::{HeadQuery, MatQuery, PosQuery};

/// What a line of a script says.
#[derive(Debug, Drop)]
pub enum Command {
    /// A line that does nothing: an empty one, or one that begins with `#`.
    Nothing,
    /// `find BOARD SIDE`
    Find(Board, Colour),
    /// `search OP position MODE BOARD SIDE`
    SearchPosition(Op, PosQuery),
    /// `search OP material ITEM ..`
    SearchMaterial(Op, MatQuery),
    /// `search OP header ITEM ..`
    SearchHeader(Op, HeadQuery),
    /// `reset`
    Reset,
    /// `clear`
    Clear,
    /// `negate`
    Negate,
    /// `restrict A B`
    Restrict(u64, u64),
    /// `keep NAME`
    Keep(Text),
    /// `use NAME`
    Take(Text),
    /// `and NAME`
    And(Text),
    /// `or NAME`
    Or(Text),
    /// `drop NAME`
    Drop(Text),
    /// `hits`
    Hits,
    /// `list`
    List,
    /// `show G`
    Show(u64),
    /// `export`
    Export,
    /// `import <<WORD`, with the word that ends the body.
    Import(Text),
    /// `replace G <<WORD`, with the word that ends the body.
    Replace(u64, Text),
    /// `eco <<WORD`, with the word that ends the body.
    Eco(Text),
    /// `tag G NAME VALUE`
    Tag(u64, TagEdit),
    /// `delete G`
    Delete(u64),
    /// `undelete G`
    Undelete(u64),
    /// `mark G LETTER on` or `off`, with the bit of the marks that the letter names, below 18.
    Mark(u64, u8, bool),
    /// `tree BOARD SIDE`
    Tree(Board, Colour),
    /// `watch K BOARD SIDE`
    Watch(u64, Board, Colour),
    /// `view K`
    View(u64),
    /// `unwatch K`
    Unwatch(u64),
    /// `cross EVENT`
    Cross(Text),
    /// `twins D`, D at most 131,071.
    Twins(u32),
    /// `index D`, D at most 40, or `index off`.
    Index(Option<u8>),
    /// `save`
    Save,
    /// `compact`
    Compact,
    /// `info`
    Info,
    /// `demo SEED GAMES`
    Demo(u64, u32),
    /// `quit`
    Quit,
}

//! How often the games of a base use its names.
ghost use Rattle.std.specs.Prelude.{◌≡◌, ◌<◌, [], All, length, replicate, IfOk};
ghost use Rattle.index_entry.specs.Entry.{entry_in};
ghost use Rattle.base_core.specs.Counting.{HasUses, one_more, with_uses};
ghost use Rattle.base_core.specs.Entries.{HasNames};
ghost use Rattle.base_core.specs.Uses.{frequencies_of};

use crate::entries::Entries;
use index_entry::{ENTRY_LEN, black_in, event_in, round_in, site_in, white_in};
use name_base::{NameKind, Names};
use std::alloc::{AllocError, Global};
use std::marker::Model;

/// The greatest frequency that is written.
const GREATEST_FREQUENCY: u32 = 16_777_215;

/// How often the names of each kind are used, by id.
#[derive(Drop)]
pub(crate) struct Uses {
    players: Vec<u32>,
    events: Vec<u32>,
    sites: Vec<u32>,
    rounds: Vec<u32>,
}

impl Model for Uses {
    ghost use Rattle.name_base.specs.NamesText.{Frequencies};

    ghost Value = { Frequencies };

    ghost view = { λ uses. record { players = uses.players.items; events = uses.events.items; sites = uses.sites.items; rounds = uses.rounds.items } };
}

/// How often these entries use the names.
pub(crate) fn uses_of(alloc: Global, names: &Names, entries: &Entries) -> Result<Uses, AllocError>
    requires named { All (HasNames names.now) entries.now }
    ensures uses { IfOk result (λ uses. uses ≡ frequencies_of names.now entries.now) }
{
    let mut uses = Uses::none(alloc, names)?;
    for i in 0..entries.len() {
        uses.add(entries.packed(i));
    }
    Ok(uses)
}

impl Uses {
    // No uses of these names.
    fn none(alloc: Global, names: &Names) -> Result<Uses, AllocError>
        ensures none { IfOk result (λ uses. uses ≡ frequencies_of names.now []) }
    {
        Ok(Uses {
            players: zeros(alloc, names.count(NameKind::Player))?,
            events: zeros(alloc, names.count(NameKind::Event))?,
            sites: zeros(alloc, names.count(NameKind::Site))?,
            rounds: zeros(alloc, names.count(NameKind::Round))?,
        })
    }

    // Counts the names of one game more, by the 47 bytes of its entry.
    fn add(&mut self, packed: &[u8; ENTRY_LEN])
        requires ids { HasUses self.old (entry_in packed.now) }
        ensures added { self.new ≡ with_uses self.old (entry_in packed.now) }
    {
        one_more(self.players.as_mut_slice(), white_in(packed));
        one_more(self.players.as_mut_slice(), black_in(packed));
        one_more(self.events.as_mut_slice(), event_in(packed));
        one_more(self.sites.as_mut_slice(), site_in(packed));
        one_more(self.rounds.as_mut_slice(), round_in(packed));
    }

    /// Of the players, for both colours.
    pub(crate) fn players(&self) -> &[u32]
        ensures players { result.now ≡ self.now.players }
    {
        self.players.as_slice()
    }

    /// Of the events.
    pub(crate) fn events(&self) -> &[u32]
        ensures events { result.now ≡ self.now.events }
    {
        self.events.as_slice()
    }

    /// Of the sites.
    pub(crate) fn sites(&self) -> &[u32]
        ensures sites { result.now ≡ self.now.sites }
    {
        self.sites.as_slice()
    }

    /// Of the rounds.
    pub(crate) fn rounds(&self) -> &[u32]
        ensures rounds { result.now ≡ self.now.rounds }
    {
        self.rounds.as_slice()
    }
}

// So many names that are not used.
fn zeros(alloc: Global, count: u32) -> Result<Vec<u32>, AllocError>
    ensures zeros { IfOk result (λ uses. uses.items ≡ replicate count 0) }
{
    vec![in alloc; 0u32; count as usize]
}

// Counts one use more of an id. A count stands still at the greatest frequency.
fn one_more(uses: &mut [u32], id: u32)
    requires there { id < length uses.old }
    ensures more { uses.new ≡ one_more id uses.old }
{
    let i = id as usize;
    uses[i] = uses[i].saturating_add(1).min(GREATEST_FREQUENCY);
}

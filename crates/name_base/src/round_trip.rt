//! What is written is read again.
ghost use Rattle.std.specs.Prelude.{◌≡◌, List, ℕ};
ghost use Rattle.name_base.specs.NameLists.{NameLists, AreSound};
ghost use Rattle.name_base.specs.NamesFile.{NameFile};
ghost use Rattle.name_base.specs.NamesText.{Frequencies, AreFrequencies, IsNamesText};

/// A law: the written form of names, with whatever frequencies, is a names file with these names. So `read_names` gives them back.
pub fn written_names_are_read()
    ensures read_again { (lists : NameLists) (f : Frequencies) (bytes : List ℕ) → AreSound lists
        → AreFrequencies lists.players f.players → AreFrequencies lists.events f.events
        → AreFrequencies lists.sites f.sites → AreFrequencies lists.rounds f.rounds
        → IsNamesText lists f bytes → NameFile bytes lists }
{}

/// A law: names with these frequencies have one written form.
pub fn written_form_is_one()
    ensures one_form { (lists : NameLists) (f : Frequencies) (a b : List ℕ) → AreSound lists
        → AreFrequencies lists.players f.players → AreFrequencies lists.events f.events
        → AreFrequencies lists.sites f.sites → AreFrequencies lists.rounds f.rounds
        → IsNamesText lists f a → IsNamesText lists f b → a ≡ b }
{}

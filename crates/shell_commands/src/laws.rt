//! Laws of the plain machine.
ghost use Rattle.std.specs.Prelude.{◌≡◌, ◌<◌, ◌^◌, ◌++◌, ℕ, Bool, false, List, Option, None, Ok, Err, length};
ghost use Rattle.base_core.specs.Base.{Base, Held};
ghost use Rattle.cell_core.specs.Board.{Men};
ghost use Rattle.cell_core.specs.declared.man.Colour.{Colour};
ghost use Rattle.command_runs.specs.Plain.{after_all};
ghost use Rattle.game_filter.specs.declared.op.Op.{Op};
ghost use Rattle.script_text.specs.Tasks.{Order, Task, task};
ghost use Rattle.script_text.specs.declared.command.Command.TheVariants.{And, Clear, Cross, Delete, Demo, Drop, Hits, Import, Index, Info, Keep, List as Listing, Mark, Negate, Nothing, Or, Quit, Reset, Restrict, SearchHeader, Take, Undelete, Unwatch, View, Watch};
ghost use Rattle.script_text.specs.declared.fault.ScriptFault.{ScriptFault};
ghost use Rattle.shell_commands.specs.Refused.{IsError};
ghost use Rattle.shell_commands.specs.Tasks.{order_work, tasks};
ghost use Rattle.shell_state.specs.Slots.{Slot, slot_at};
ghost use Rattle.shell_state.specs.State.{HasFilters, State, begin};
ghost use Rattle.sig_index.specs.declared.head_query.HeadQuery.{HeadQuery};
ghost use Rattle.view_commands.specs.Views.{all_slots, is_own};
ghost use Rattle.view_commands.specs.declared.window.Window.{Window};

/// A law: a task whose text begins with `error: ` leaves the state as it was, but for `import` and `demo`, which only add games behind those
/// that were there.
pub fn refused_tasks_change_nothing()
    ensures refused { (w : Window) (s : State) (t : Task) → length s.seat.filter < 2 ^ 64 → IsError ((tasks w).text s t)
        → ((word : List ℕ) → t.order ≡ Ok (Import word) → ⊥) → ((seed games : ℕ) → t.order ≡ Ok (Demo seed games) → ⊥) → (tasks w).after s t ≡ s }
    ensures imported { (w : Window) (s : State) (word body : List ℕ) → (more : List Held) × (((tasks w).after s (task (Ok (Import word)) body)).shared.base.games ≡ s.shared.base.games ++ more) }
    ensures made { (w : Window) (s : State) (seed games : ℕ) (body : List ℕ) → (more : List Held) × (((tasks w).after s (task (Ok (Demo seed games)) body)).shared.base.games ≡ s.shared.base.games ++ more) }
    // If no game is added, the state is as it was. Of `demo` this holds if it ends with the error line of a game, since else it searches.
    ensures imported_none { (w : Window) (s : State) (word body : List ℕ) → ((tasks w).after s (task (Ok (Import word)) body)).shared.base.games ≡ s.shared.base.games → (tasks w).after s (task (Ok (Import word)) body) ≡ s }
    ensures made_none { (w : Window) (s : State) (seed games : ℕ) (body : List ℕ) → IsError ((tasks w).text s (task (Ok (Demo seed games)) body)) → ((tasks w).after s (task (Ok (Demo seed games)) body)).shared.base.games ≡ s.shared.base.games → (tasks w).after s (task (Ok (Demo seed games)) body) ≡ s }
{}

/// A law: every filter has an entry for each game, and at most eight are kept, behind whatever tasks a script begins with.
pub fn filters_fit()
    ensures task { (w : Window) (s : State) (t : Task) → HasFilters s → HasFilters ((tasks w).after s t) }
    ensures script { (w : Window) (created : Bool) (fresh : Option (List ℕ)) (slots : List Slot) (base : Base) (done : List Task) → HasFilters (after_all (tasks w) (begin created fresh slots base) done) }
{}

/// A law: what the slots show stays as it is, but for a task that watches one, or watches it no more. A slot that is
/// not the user's own stays behind each of the user's tasks. None comes or goes.
pub fn slots_stay()
    ensures stay { (w : Window) (s : State) (t : Task) → ((k : ℕ) (board : Men) (side : Colour) → t.order ≡ Ok (Watch k board side) → ⊥) → ((k : ℕ) → t.order ≡ Ok (Unwatch k) → ⊥) → ((tasks w).after s t).slots ≡ s.slots }
    ensures others { (w : Window) (s : State) (t : Task) (i : ℕ) → is_own w i ≡ false → slot_at ((tasks w).after s t).slots i ≡ slot_at s.slots i }
    ensures number { (w : Window) (s : State) (t : Task) → length ((tasks w).after s t).slots ≡ length s.slots }
{}

/// A law: whoever says a line, it writes while it works, uses the files, changes them and reads a body alike, leaves the same base in their
/// place, and has the same price.
pub fn lines_of_any_user()
    ensures files { (w : Window) (order : Order) (body : List ℕ) → (order_work w order body).files ≡ (order_work all_slots order body).files }
    ensures writes { (w : Window) (order : Order) (body : List ℕ) → (order_work w order body).writes ≡ (order_work all_slots order body).writes }
    ensures body { (w : Window) (order : Order) (body : List ℕ) → (order_work w order body).body ≡ (order_work all_slots order body).body }
    ensures early { (w : Window) (order : Order) (body : List ℕ) → (order_work w order body).early ≡ (order_work all_slots order body).early }
    ensures left { (w : Window) (order : Order) (body : List ℕ) → (order_work w order body).left ≡ (order_work all_slots order body).left }
    ensures price { (w : Window) (order : Order) (body : List ℕ) → (order_work w order body).price ≡ (order_work all_slots order body).price }
{}

/// A law: these lines use no file, whatever stands in their bodies, so that no fault of the files breaks them off.
pub fn lines_without_files()
    ensures faulty { (w : Window) (fault : ScriptFault) (body : List ℕ) → (order_work w (Err fault) body).files ≡ false }
    ensures empty { (w : Window) (body : List ℕ) → (order_work w (Ok Nothing) body).files ≡ false }
    ensures header { (w : Window) (op : Op) (query : HeadQuery) (body : List ℕ) → (order_work w (Ok (SearchHeader op query)) body).files ≡ false }
    ensures reset { (w : Window) (body : List ℕ) → (order_work w (Ok Reset) body).files ≡ false }
    ensures clear { (w : Window) (body : List ℕ) → (order_work w (Ok Clear) body).files ≡ false }
    ensures negate { (w : Window) (body : List ℕ) → (order_work w (Ok Negate) body).files ≡ false }
    ensures restrict { (w : Window) (first last : ℕ) (body : List ℕ) → (order_work w (Ok (Restrict first last)) body).files ≡ false }
    ensures keep { (w : Window) (name : List ℕ) (body : List ℕ) → (order_work w (Ok (Keep name)) body).files ≡ false }
    ensures take { (w : Window) (name : List ℕ) (body : List ℕ) → (order_work w (Ok (Take name)) body).files ≡ false }
    ensures and { (w : Window) (name : List ℕ) (body : List ℕ) → (order_work w (Ok (And name)) body).files ≡ false }
    ensures or { (w : Window) (name : List ℕ) (body : List ℕ) → (order_work w (Ok (Or name)) body).files ≡ false }
    ensures drop { (w : Window) (name : List ℕ) (body : List ℕ) → (order_work w (Ok (Drop name)) body).files ≡ false }
    ensures hits { (w : Window) (body : List ℕ) → (order_work w (Ok Hits) body).files ≡ false }
    ensures list { (w : Window) (body : List ℕ) → (order_work w (Ok Listing) body).files ≡ false }
    ensures view { (w : Window) (slot : ℕ) (body : List ℕ) → (order_work w (Ok (View slot)) body).files ≡ false }
    ensures unwatch { (w : Window) (slot : ℕ) (body : List ℕ) → (order_work w (Ok (Unwatch slot)) body).files ≡ false }
    ensures cross { (w : Window) (event : List ℕ) (body : List ℕ) → (order_work w (Ok (Cross event)) body).files ≡ false }
    ensures info { (w : Window) (body : List ℕ) → (order_work w (Ok Info) body).files ≡ false }
    ensures delete { (w : Window) (game : ℕ) (body : List ℕ) → (order_work w (Ok (Delete game)) body).files ≡ false }
    ensures undelete { (w : Window) (game : ℕ) (body : List ℕ) → (order_work w (Ok (Undelete game)) body).files ≡ false }
    ensures mark { (w : Window) (game bit : ℕ) (on : Bool) (body : List ℕ) → (order_work w (Ok (Mark game bit on)) body).files ≡ false }
    ensures index_off { (w : Window) (body : List ℕ) → (order_work w (Ok (Index None)) body).files ≡ false }
    ensures quit { (w : Window) (body : List ℕ) → (order_work w (Ok Quit) body).files ≡ false }
{}

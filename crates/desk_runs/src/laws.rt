//! Laws of the definitions.
ghost use Rattle.std.specs.Prelude.{◌≡◌, ◌<◌, ℕ, Bool, List, Option, Some, Ok, length, slice_index_or, true};
ghost use Rattle.base_core.specs.Base.{Base};
ghost use Rattle.client_desk.specs.Changes.{moving_of};
ghost use Rattle.client_desk.specs.Desks.{Echoed};
ghost use Rattle.client_desk.specs.Seats.{Seated};
ghost use Rattle.client_desk.specs.declared.change.Change.{Change};
ghost use Rattle.command_runs.specs.Plain.{after_all};
ghost use Rattle.desk_commands.specs.Desk.{Desk, brought, desk_begin, desk_said, desks, moved_by};
ghost use Rattle.desk_runs.specs.Desks.{plain_seat};
ghost use Rattle.desk_runs.specs.Filters.{AllFit, AreCounted};
ghost use Rattle.desk_runs.specs.Isolation.{desk_run, said_to, without_private};
ghost use Rattle.script_lines.specs.Clients.{Tagged, heard, said};
ghost use Rattle.script_text.specs.Tasks.{Order, Task};
ghost use Rattle.script_text.specs.declared.command.Command.TheVariants.{Demo, Import};
ghost use Rattle.shell_commands.specs.Refused.{IsError};
ghost use Rattle.shell_state.specs.Slots.{Slot};

/// A law: what is written to a client at a desk of four, whatever all of them say, is what would be written to it if the others said their
/// public commands alone.
pub fn clients_are_isolated()
    ensures isolated { (desk : Desk) → (list : List Tagged) → (client : ℕ) → desk.clients.tagged ≡ true → said_to client (desk_run desk list) ≡ said_to client (desk_run desk (without_private client list)) }
{}

/// A law: the filters of every client at a desk have an entry for each game, and each client keeps at most eight, whatever lines are said.
pub fn filters_of_all_clients_fit()
    ensures line { (desk : Desk) (t : Tagged) → AllFit desk → AllFit (desks.after desk t) }
    ensures script { (tagged created : Bool) (fresh : Option (List ℕ)) (slots : List Slot) (base : Base) (done : List Tagged) → AllFit (after_all desks (desk_begin tagged created fresh slots base) done) }
{}

/// A law: a line that is answered by an error line leaves a desk as it was, but for who may speak, and but for `import` and `demo`, which only add
/// games behind those that were there.
pub fn refused_lines_change_nothing()
    ensures refused { (desk : Desk) (client : ℕ) (task : Task) → AreCounted desk → IsError (desk_said desk client task)
        → ((word : List ℕ) → task.order ≡ Ok (Import word) → ⊥) → ((seed games : ℕ) → task.order ≡ Ok (Demo seed games) → ⊥)
        → desks.after desk (record { client = Some client; task = task }) ≡ record desk { clients = heard desk.clients (said (Some client) task.order) } }
{}

/// A law: what a change brings to the seats of the others at a desk of `client_desk` is what a line that moves the same brings to them here.
pub fn desks_agree()
    ensures agree { (by : ℕ) (change : Change) (old new : List Seated) → Echoed by change old new → (client : ℕ) (d : Seated) → (client ≡ by → ⊥) → client < length old
        → (order : Order) (before after : Base) → moved_by order before after ≡ moving_of change (length (slice_index_or old client d).filter)
        → plain_seat (slice_index_or new client d) ≡ brought order before after (plain_seat (slice_index_or old client d)) }
{}

//! Laws of scripts.
ghost use Rattle.std.specs.Prelude.{◌≡◌, ℕ, ◌+◌, true, false, List, [], ◌∷◌, ◌++◌, length, take, Some, None};
ghost use Rattle.script_text.specs.Reading.{reading};
ghost use Rattle.script_text.specs.Tasks.{body_word};
ghost use Rattle.script_lines.specs.Bodies.{body_of};
ghost use Rattle.script_lines.specs.Clients.{Clients, Tagged, heard, is_end, is_quit, line_of, new_clients, tagged_task};
ghost use Rattle.script_lines.specs.Reading.{grown, led_on};
ghost use Rattle.script_lines.specs.Bytewise.{script_from};
ghost use Rattle.script_lines.specs.Script.{led_by, script, script_by};
ghost use Rattle.script_lines.specs.declared.line.Line.{Line};

/// A law: what a reader meets byte by byte is what the lines of the bytes say.
#[tactic(auto, using(crate::proofs::LineLaws::reader_meets))]
pub fn readers_meet_the_lines()
    ensures meets { (last : Tagged → List Tagged) (clients : Clients) (bytes : List ℕ) → script_by last clients bytes ≡ script_from last clients 0 [] bytes }
{}

/// A law: what bytes say behind a line. Nothing comes behind the line that ends the script. A line without a body is a
/// task of its own. The body of a command and the line that ends it are its task, whatever follows. If no line ends the
/// body, all bytes are.
#[tactic(auto, using(crate::proofs::TaskLaws::on_end, crate::proofs::TaskLaws::on_line, crate::proofs::TaskLaws::on_body, crate::proofs::TaskLaws::on_open))]
pub fn tasks_are_lines_with_their_bodies()
    ensures end { (last : Tagged → List Tagged) (clients : Clients) (line : Line) (more : List ℕ) → is_end clients line ≡ true
        → led_on last clients line more ≡ script (tagged_task line [] ∷ []) 0 }
    ensures alone { (last : Tagged → List Tagged) (clients : Clients) (line : Line) (more : List ℕ) → is_end clients line ≡ false → body_word line.order ≡ None
        → led_on last clients line more ≡ led_by (tagged_task line []) (script_from last (heard clients line) 0 [] more) }
    ensures ended { (last : Tagged → List Tagged) (clients : Clients) (line : Line) (word bytes more : List ℕ) (count k : ℕ) → is_end clients line ≡ false → body_word line.order ≡ Some word
        → (body_of word true bytes).end ≡ Some count → k ≡ length (body_of word true bytes).bytes + count
        → led_on last clients line (take k bytes ++ more) ≡ grown k (led_by (tagged_task line (body_of word true bytes).bytes) (script_from last (heard clients line) 0 [] more)) }
    ensures open_ended { (last : Tagged → List Tagged) (clients : Clients) (line : Line) (word bytes : List ℕ) → is_end clients line ≡ false → body_word line.order ≡ Some word
        → (body_of word true bytes).end ≡ None → led_on last clients line bytes ≡ script (last (tagged_task line (body_of word true bytes).bytes)) (length bytes) }
{}

/// A law: a script of one client ends with its first `quit`, and behind any other line who has ended is as before, at a desk too.
#[tactic(auto, using(crate::proofs::ClientLaws::one_ends, crate::proofs::ClientLaws::none_ends))]
pub fn clients_end_with_quit()
    ensures one { (line : List ℕ) → is_end (new_clients false) (line_of false line) ≡ is_quit (reading line) }
    ensures others { (clients : Clients) (line : Line) → is_quit line.order ≡ false → heard clients line ≡ clients }
{}

//! Writing a whole text with its tags.
ghost use Rattle.std.specs.Prelude.{◌≡◌, [], OnOk};
ghost use Rattle.base_files.specs.Told.{adds};
ghost use Rattle.command_runs.specs.Counts.{Causes, Why, counts};
ghost use Rattle.command_runs.specs.Endings.{Halted, NoneLost};
ghost use Rattle.command_runs.specs.Rendered.{Rendered, no_text, opening, said};
ghost use Rattle.command_runs.specs.Tagged.{tagged};

use crate::page::TagPage;
use crate::sink::{Opens, TaggedSink};
use crate::way::Way;
use crate::writing::write_text;
use base_files::{Sink, Stop};
use std::marker::Brand;

/// Writes a text, each of whose lines goes out behind the tag. After an error the sink has taken a front part of it, which may be empty.
pub fn write_tagged<K: Sink>(
    out: &mut K,
    page: &mut TagPage,
    tag: &[u8],
    text: &[u8],
) -> Result<(), Stop>
    ensures written { OnOk result (K.taken out.new ≡ adds (K.taken out.old) (tagged tag.now text.now)) }
    ensures halted { Halted [] (tagged tag.now text.now) (K.taken out.old) (K.taken out.new) }
    ensures none_lost { NoneLost (K.taken out.old) (K.taken out.new) }
    ensures causes { Causes Why result (counts 0 0 (K.faults out.old)) (counts 0 0 (K.faults out.new)) }
{
    let (way, put) = write_in::<Brand, K>(Way { out, page, tag }, text);
    let Way { out, page, .. } = way;
    match put {
        Ok(()) => page.flush(out),
        Err(stop) => Err(stop),
    }
}

// Writes a text that begins here, of which the end may wait on the page.
fn write_in<'o, 'p, 't, O: Opens, K: Sink>(
    way: Way<'o, 'p, 't, K>,
    text: &[u8],
) -> (Way<'o, 'p, 't, K>, Result<(), Stop>)
    requires begins { O.opening ≡ opening way.tag.now (K.taken way.out.now) (K.faults way.out.now) way.out.ghost_name way.page.ghost_name }
    ensures out { result.0.out.ghost_name ≡ way.entry.out.ghost_name }
    ensures page { result.0.page.ghost_name ≡ way.entry.page.ghost_name }
    ensures said { OnOk result.1 (said O.opening (K.taken result.0.out.now) result.0.page.now ≡ adds (no_text O.opening.told) text.now) }
    ensures halted { Halted [] text.now (no_text O.opening.told) (said O.opening (K.taken result.0.out.now) result.0.page.now) }
    ensures causes { Causes Why result.1 (counts 0 0 0) (counts 0 0 result.0.page.now.faults) }
    ensures rendered { Rendered O.opening (K.taken result.0.out.now) (K.faults result.0.out.now) result.0.page.now }
{
    let mut sink: TaggedSink<'o, 'p, 't, K, O> = TaggedSink::open(way);
    let result = write_text(&mut sink, text);
    (sink.close(), result)
}

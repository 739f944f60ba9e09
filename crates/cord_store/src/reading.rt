//! Bytes of a rope, and where they stand.

ghost use Rattle.std.specs.Prelude.{◌≡◌};
ghost use Rattle.function_leaf.specs.Coded.{coded_byte};
ghost use Rattle.node_table.specs.Held.{held_coded, table_of};
ghost use Rattle.rope_node.specs.Denotes.{IsRope};
ghost use Rattle.cord_types.specs.HeldTexts.{stated_as_held};
ghost use Rattle.cord_store.specs.Asked.{FetchesPlace, LocatesPlace, ReadsPart};

use crate::codes::{BAD_SOURCES, DONE, RANGE, UNHELD};
use cord_position::fetch;
use cord_types::{CordRun, CordSource, HeldSources, located, read_run};
use function_leaf::Coded;
use rope_node::Rope;
use rope_store::Store;

/// Bytes of a rope from a place on, as many as `out` takes, up to the end of the run there.
pub fn read_part(
    store: &Store<Coded>,
    sources: &[CordSource],
    rope: Rope,
    place: u64,
    out: &mut [u8],
    count: &mut usize,
) -> u32
    requires { IsRope (table_of coded_byte store.now) rope }
    ensures { ReadsPart (table_of coded_byte store.now) (stated_as_held sources.now) rope place
        out.old out.new count.new result }
{
    *count = 0;
    let Ok(mut held) = HeldSources::new(sources) else {
        return BAD_SOURCES;
    };
    match read_run(store, &mut held, rope, place, out) {
        Ok(n) => {
            *count = n;
            DONE
        }
        Err(_) => UNHELD,
    }
}

/// The byte at a place of a rope.
pub fn fetch_place(
    store: &Store<Coded>,
    sources: &[CordSource],
    rope: Rope,
    place: u64,
    byte: &mut u8,
) -> u32
    requires { IsRope (table_of coded_byte store.now) rope }
    ensures { FetchesPlace (table_of coded_byte store.now) (stated_as_held sources.now) rope place
        byte.old byte.new result }
{
    let Ok(mut held) = HeldSources::new(sources) else {
        return BAD_SOURCES;
    };
    match fetch(store, &mut held, rope, place) {
        Ok((Some(found), _)) => {
            *byte = found;
            DONE
        }
        Ok((None, _)) => RANGE,
        Err(_) => UNHELD,
    }
}

/// Where the byte at a place of a rope stands, and how many bytes follow it there.
pub fn locate_place(store: &Store<Coded>, rope: Rope, place: u64, run: &mut CordRun) -> u32
    requires { IsRope (table_of coded_byte store.now) rope }
    ensures { LocatesPlace (table_of coded_byte store.now) (held_coded store.now) rope place run.old run.new result }
{
    match located(store, rope, place) {
        Some(found) => {
            *run = found;
            DONE
        }
        None => RANGE,
    }
}

//! The limits, sizes and codes that definitions take from the code, as numbers.

ghost use Rattle.std.specs.Prelude.{◌≡◌, ◌+◌, ◌*◌, ◌-◌, [], length, replicate};
ghost use Rattle.worked_tests.specs.Keys.{stated_of_size};
ghost use Rattle.command_parts.specs.declared.codes.TheConstants.{BACK, BALANCE, CUT, DELETE, FILL, INSERT, JOIN, MANY, NEW, OPEN, PASTE, REPLACE};
ghost use Rattle.command_parts.specs.declared.edit.TheConstants.{MOST_REVISIONS, MOST_SPLICES, SPLICES_LIMIT};
ghost use Rattle.cord_search.specs.declared.pattern.TheConstants.{PATTERN_LIMIT as SEARCH_LIMIT};
ghost use Rattle.function_leaf.specs.declared.pattern.TheConstants.{PATTERN_LIMIT};
ghost use Rattle.image_reader.specs.declared.codes.TheConstants.{BYTES_ROW, CONCATENATION, CYCLE, FILL as FILL_FUNCTION, FUNCTION, LEAF_ROW, LITERAL, RAMP, SHARED_ROW, SOURCE_SPAN, SUBSTRING};
ghost use Rattle.image_reader.specs.declared.decode.TheConstants.{NIL_ROOT};
ghost use Rattle.image_reader.specs.declared.header.TheConstants.{LONGEST_IMAGE, MAGIC, MOST_POOL};
ghost use Rattle.image_reader.specs.declared.version.TheConstants.{VERSION_ONE, VERSION_TWO};
ghost use Rattle.image_reader.specs.declared.layout.TheConstants.{HEADER_SIZE, NODE_SIZE, REVISION_SIZE, ROW_SIZE, SOURCE_SIZE, SPLICE_SIZE};
ghost use Rattle.lazy_file.specs.declared.sources.TheConstants.{COUNT_LIMIT, SOURCE_LIMIT};
ghost use Rattle.rebalance.specs.declared.pieces.TheConstants.{MOST_PIECES};
ghost use Rattle.leaf_buffer.specs.declared.block.TheConstants.{BLOCK_SIZE};
ghost use Rattle.leaf_buffer.specs.declared.pool.TheConstants.{POOL_LIMIT};
ghost use Rattle.rope_node.specs.declared.limits.TheConstants.{MOST_DEPTH, MOST_NODES, MOST_SOURCES, TEXT_LIMIT};
ghost use Rattle.rope_store.specs.declared.endings.TheConstants.{MOST_MERGED};
ghost use Rattle.screen_editor.specs.declared.cut_span.TheConstants.{MOST_CUTS};
ghost use Rattle.text_lines.specs.declared.rows.TheConstants.{SCREEN_COLUMNS};
ghost use Rattle.screen_editor.specs.declared.running.TheConstants.{MOST_KEYS};
ghost use Rattle.text_lines.specs.Screen.{first_line, rows_of_text};
ghost use Rattle.screen_editor.specs.Refusals.{IsTooLong};
ghost use Rattle.span_certificate.specs.declared.looks.TheConstants.{LOOKS_LIMIT};
ghost use Rattle.span_certificate.specs.declared.making.TheConstants.{ROWS_LIMIT};
ghost use Rattle.span_certificate.specs.declared.walk.TheConstants.{BYTES_LIMIT};

/// Of texts, nodes and the pool: a text has fewer than 2^40 bytes, the pool fewer than 2^32.
fn limits_of_ropes()
    ensures text { TEXT_LIMIT ≡ 1099511627776 }
    ensures nodes { MOST_NODES ≡ 16777216 }
    ensures depth { MOST_DEPTH ≡ 64 }
    ensures sources { MOST_SOURCES ≡ 255 }
    ensures pool { POOL_LIMIT ≡ 4294967296 }
    ensures block { BLOCK_SIZE ≡ 65536 }
    ensures merged { MOST_MERGED ≡ 31 }
    ensures pieces { MOST_PIECES ≡ 1048576 }
    ensures pattern { PATTERN_LIMIT ≡ 16 }
    ensures searched { SEARCH_LIMIT ≡ 4096 }
{}

/// Of the texts that sources have: one byte fewer than 2^40.
fn limits_of_sources()
    ensures count { COUNT_LIMIT ≡ 255 }
    ensures longest { SOURCE_LIMIT ≡ 1099511627775 }
{}

/// Of images: what they begin with, the root that is none, and the largest,
/// which has as many records of each kind, and of bytes, as there may be.
fn limits_of_images()
    ensures magic { MAGIC ≡ 0x434F524453455353 }
    ensures one { VERSION_ONE ≡ 1 }
    ensures two { VERSION_TWO ≡ 2 }
    ensures nil { NIL_ROOT ≡ 0xFFFFFFFF }
    ensures pool { MOST_POOL ≡ 4294967295 }
    ensures longest { LONGEST_IMAGE ≡ 40 + MOST_SOURCES * 8 + MOST_NODES * 32 + MOST_REVISIONS * 56
        + SPLICES_LIMIT * 32 + ROWS_LIMIT * 24 + MOST_POOL }
    ensures bytes { LONGEST_IMAGE ≡ 5830084639 }
{}

/// Of an image's header and records, in bytes.
fn sizes_of_records()
    ensures header { HEADER_SIZE ≡ 40 }
    ensures source { SOURCE_SIZE ≡ 8 }
    ensures node { NODE_SIZE ≡ 32 }
    ensures revision { REVISION_SIZE ≡ 56 }
    ensures splice { SPLICE_SIZE ≡ 32 }
    ensures row { ROW_SIZE ≡ 24 }
{}

/// What a node is, and which function.
fn codes_of_nodes()
    ensures literal { LITERAL ≡ 1 }
    ensures source { SOURCE_SPAN ≡ 2 }
    ensures function { FUNCTION ≡ 3 }
    ensures concatenation { CONCATENATION ≡ 4 }
    ensures substring { SUBSTRING ≡ 5 }
    ensures fill { FILL_FUNCTION ≡ 1 }
    ensures ramp { RAMP ≡ 2 }
    ensures cycle { CYCLE ≡ 3 }
{}

/// Which command made a revision, and what its rows are.
fn codes_of_revisions()
    ensures new { NEW ≡ 1 }
    ensures open { OPEN ≡ 2 }
    ensures insert { INSERT ≡ 3 }
    ensures delete { DELETE ≡ 4 }
    ensures replace { REPLACE ≡ 5 }
    ensures paste { PASTE ≡ 6 }
    ensures join { JOIN ≡ 7 }
    ensures cut { CUT ≡ 8 }
    ensures fill { FILL ≡ 9 }
    ensures back { BACK ≡ 10 }
    ensures balance { BALANCE ≡ 11 }
    ensures many { MANY ≡ 12 }
    ensures shared { SHARED_ROW ≡ 1 }
    ensures leaf { LEAF_ROW ≡ 2 }
    ensures bytes { BYTES_ROW ≡ 3 }
{}

/// Of sessions and their rows.
fn limits_of_sessions()
    ensures revisions { MOST_REVISIONS ≡ 1048576 }
    ensures splices { SPLICES_LIMIT ≡ 16777216 }
    ensures spliced { MOST_SPLICES ≡ 4096 }
    ensures rows { ROWS_LIMIT ≡ 16777216 }
    ensures bytes { BYTES_LIMIT ≡ 4096 }
    ensures looks { LOOKS_LIMIT ≡ 132 }
{}

/// Of the editor and its screen: an empty row is two bytes.
fn limits_of_the_editor()
    ensures too_long { IsTooLong (stated_of_size 2147483648) }
    ensures longest { ¬ IsTooLong (stated_of_size 2147483647) }
    ensures keys { MOST_KEYS ≡ 16777216 }
    ensures cuts { MOST_CUTS ≡ 16 }
    ensures rows { length (rows_of_text [] 0) ≡ 2 * 23 }
    ensures columns { SCREEN_COLUMNS ≡ 80 }
    ensures above { first_line (replicate 20 0x0A) 20 ≡ 20 - 11 }
{}

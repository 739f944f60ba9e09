//! How images are spelled and read, on worked examples.

ghost use Rattle.std.specs.Prelude.{◌≡◌, ◌∷◌, [], ◌++◌, take, slice_range, slice_set, Some, None};
ghost use Rattle.image_reader.specs.declared.fault.ReadFault.TheVariants.{Truncated, Trailing, Version, Count, NonZeroPad, Kind};
ghost use Rattle.image_reader.specs.Spelling.{source_spelling, node_spelling, revision_spelling, splice_spelling, row_spelling, spelling};
ghost use Rattle.image_reader.specs.Reading.{image_in, fault_of};
ghost use Rattle.worked_tests.specs.Images.{literal, insertion, one_insert};
ghost use Rattle.worked_tests.specs.Commands.{splice, leaf_row};

/// The image of one insertion of `abc`: its header, node, two revisions, row and pool.
const ONE_INSERT: &[u8] = b"CORDSESS\0\0\0\x01\0\0\0\0\0\0\0\x01\0\0\0\x02\
    \0\0\0\x01\0\0\0\0\0\0\0\0\0\0\0\x03\
    \x01\0\0\0\0\0\0\0\0\0\0\0\0\0\0\x03\0\0\0\0\0\0\0\0\
    \0\0\0\0\0\0\0\0\
    \x01\0\0\0\xff\xff\xff\xff\0\0\0\0\0\0\0\0\0\0\0\0\0\0\0\0\
    \0\0\0\0\0\0\0\0\0\0\0\0\0\0\0\0\0\0\0\0\0\0\0\0\
    \0\0\0\0\0\0\0\0\
    \x03\x01\0\0\0\0\0\0\0\0\0\0\0\0\0\0\0\0\0\0\0\0\0\0\
    \0\0\0\0\0\0\0\0\0\0\0\0\0\0\0\0\0\0\0\0\0\0\0\x03\
    \0\0\0\x01\0\0\0\0\
    \x02\0\0\0\0\0\0\0\0\0\0\0\0\0\0\x03\0\0\0\0\0\0\0\0\
    abc";

/// The record of the splice that puts in the 2 bytes of the pool from 12 on, at 4.
const SPLICE: &[u8] = b"\0\0\0\0\0\0\0\x04\0\0\0\0\0\0\0\0\0\0\0\0\0\0\0\x0c\0\0\0\0\0\0\0\x02";

/// Each record's numbers stand in its fields, the highest byte of each first.
#[tactic(auto, unfolding(image_reader::specs::Layout::spelled, image_reader::specs::Spelling::source_spelling, image_reader::specs::Spelling::view_spelling, image_reader::specs::Spelling::revision_spelling, image_reader::specs::Spelling::splice_spelling, image_reader::specs::Spelling::row_spelling))]
fn records_are_spelled_field_by_field()
    ensures source { source_spelling 5 ≡ 0 ∷ 0 ∷ 0 ∷ 0 ∷ 0 ∷ 0 ∷ 0 ∷ 5 ∷ [] }
    ensures longest_source { source_spelling 1099511627775
        ≡ 0 ∷ 0 ∷ 0 ∷ 255 ∷ 255 ∷ 255 ∷ 255 ∷ 255 ∷ [] }
    ensures literal { node_spelling literal ≡ slice_range ONE_INSERT.now 40 72 }
    ensures insertion { revision_spelling insertion ≡ slice_range ONE_INSERT.now 128 184 }
    ensures splice { splice_spelling (splice 4 0 12 2) ≡ SPLICE.now }
    ensures row { row_spelling (leaf_row 3) ≡ slice_range ONE_INSERT.now 184 208 }
{}

/// The image's one spelling, and what is read of it.
#[tactic(auto, unfolding(image_reader::specs::Layout::spelled, image_reader::specs::Layout::number_in, image_reader::specs::Layout::records, image_reader::specs::Spelling::view_spelling, image_reader::specs::Spelling::revision_spelling, image_reader::specs::Spelling::row_spelling, image_reader::specs::Spelling::spelling, image_reader::specs::Reading::view_of, image_reader::specs::Reading::function_of, image_reader::specs::Reading::revision_of, image_reader::specs::Reading::revisions_of, image_reader::specs::Reading::splice_of, image_reader::specs::Reading::row_of, image_reader::specs::Reading::records_value))]
fn one_insertion_is_spelled_and_read()
    ensures spelling { spelling one_insert ≡ ONE_INSERT.now }
    ensures image { image_in ONE_INSERT.now ≡ one_insert }
{}

/// The first fault of the image cut short, made longer, or with one byte changed.
#[tactic(auto, unfolding(image_reader::specs::Layout::number_in, image_reader::specs::Layout::records, image_reader::specs::Reading::first_fault, image_reader::specs::Reading::stated_len, image_reader::specs::Reading::front_fault, image_reader::specs::Reading::header_fault, image_reader::specs::Reading::source_record_fault, image_reader::specs::Reading::node_record_fault, image_reader::specs::Reading::revision_record_fault, image_reader::specs::Reading::row_record_fault, image_reader::specs::Reading::revision_of, image_reader::specs::Reading::counted_rows, image_reader::specs::Reading::counted_splices, image_reader::specs::Reading::sections_fault, image_reader::specs::Reading::fault_of))]
fn changed_image_has_a_first_fault()
    ensures none { fault_of ONE_INSERT.now ≡ None }
    ensures cut_short { fault_of (take 210 ONE_INSERT.now) ≡ Some Truncated }
    ensures cut_in_the_header { fault_of (take 39 ONE_INSERT.now) ≡ Some Truncated }
    ensures one_byte_more { fault_of (ONE_INSERT.now ++ 120 ∷ []) ≡ Some Trailing }
    ensures version_two { fault_of (slice_set ONE_INSERT.now 11 2) ≡ None }
    ensures later_version { fault_of (slice_set ONE_INSERT.now 11 3) ≡ Some Version }
    ensures header_pad { fault_of (slice_set ONE_INSERT.now 31 1) ≡ Some NonZeroPad }
    ensures splice_not_there { fault_of (slice_set (slice_set ONE_INSERT.now 11 2) 31 1) ≡ Some Truncated }
    ensures node_kind { fault_of (slice_set ONE_INSERT.now 40 6) ≡ Some Kind }
    ensures many_in_version_one { fault_of (slice_set ONE_INSERT.now 128 12) ≡ Some Kind }
    ensures row_count { fault_of (slice_set ONE_INSERT.now 179 2) ≡ Some Count }
{}

//! The records of nodes.

ghost use Rattle.std.specs.Prelude.{◌≡◌, ◌≤◌, ◌++◌, length};
ghost use Rattle.function_leaf.specs.Pattern.{padded};
ghost use Rattle.function_leaf.specs.declared.pattern.TheConstants.{PATTERN_LIMIT};
ghost use Rattle.image_reader.specs.Layout.{spelled};
ghost use Rattle.image_reader.specs.Spelling.{span_layout, span_numbers, concatenation_layout, concatenation_numbers, function_layout, function_numbers, function_spelling, view_spelling};
ghost use Rattle.image_reader.specs.Value.{FitsFunction};
ghost use Rattle.session_image.specs.Written.{FitsHeld};

use crate::held::Record;
use function_leaf::{Coded, PATTERN_LIMIT};
use image_reader::codes::{
    CONCATENATION, CYCLE, FILL, FUNCTION, LITERAL, RAMP, SOURCE_SPAN, SUBSTRING,
};
use rope_node::NodeView;

/// The record of a span of the pool, of a source or of another node: `kind` says of which, and `x` is its number.
#[tactic(auto, unfolding(image_reader::specs::Layout::spelled))]
fn span_record(kind: u8, depth: u8, x: u32, len: u64, start: u64) -> Record
    ensures { result ≡ spelled span_layout (span_numbers kind depth x len start) }
{
    let mut record = Record::new();
    record.push_u8(kind);
    record.push_u8(depth);
    record.push_u8(0);
    record.push_u8(0);
    record.push_u32(x);
    record.push_u64(len);
    record.push_u64(start);
    record.push_u64(0);
    record
}

/// The record of a concatenation of nodes `l` and `r`.
#[tactic(auto, unfolding(image_reader::specs::Layout::spelled))]
fn concatenation_record(depth: u8, len: u64, l: u32, r: u32) -> Record
    ensures { result ≡ spelled concatenation_layout (concatenation_numbers depth len l r) }
{
    let mut record = Record::new();
    record.push_u8(CONCATENATION);
    record.push_u8(depth);
    record.push_u8(0);
    record.push_u8(0);
    record.push_u32(l);
    record.push_u64(len);
    record.push_u32(r);
    record.push_u32(0);
    record.push_u64(0);
    record
}

/// The fields of a function's record in front of its bytes.
#[tactic(auto, unfolding(image_reader::specs::Layout::spelled))]
fn function_fields(depth: u8, len: u64, code: u8, size: u8) -> Record
    ensures value { result ≡ spelled function_layout (function_numbers depth len code size) }
    ensures len { length result ≡ 16 }
{
    let mut record = Record::new();
    record.push_u8(FUNCTION);
    record.push_u8(depth);
    record.push_u8(code);
    record.push_u8(size);
    record.push_u32(0);
    record.push_u64(len);
    record
}

/// The record of a function of these bytes.
fn padded_record(depth: u8, len: u64, code: u8, size: u8, bytes: &[u8]) -> Record
    requires { length bytes.now ≤ PATTERN_LIMIT }
    ensures { result ≡ spelled function_layout (function_numbers depth len code size) ++ padded bytes.now }
{
    let zeros = [0; PATTERN_LIMIT];
    let mut record = function_fields(depth, len, code, size);
    record.push(bytes);
    record.push(&zeros[bytes.len()..]);
    record
}

/// The record of a function.
#[tactic(auto, unfolding(image_reader::specs::Spelling::function_spelling))]
fn function_record(depth: u8, len: u64, function: Coded) -> Record
    ensures value { result ≡ function_spelling depth len function }
    ensures fits { FitsFunction function }
{
    match function {
        Coded::Fill(byte) => padded_record(depth, len, FILL, 0, &[byte]),
        Coded::Ramp(byte) => padded_record(depth, len, RAMP, 0, &[byte]),
        Coded::Cycle(pattern) => {
            let bytes = pattern.as_slice();
            padded_record(depth, len, CYCLE, bytes.len() as u8, bytes)
        }
    }
}

/// The record of a node, with its function where it is one.
#[tactic(auto, unfolding(image_reader::specs::Spelling::view_spelling))]
pub fn node_record(view: NodeView, len: u64, depth: u8, function: Option<Coded>) -> Record
    ensures value { result ≡ view_spelling depth len view function }
    ensures fits { FitsHeld view function }
{
    match view {
        NodeView::Lit { a } => span_record(LITERAL, depth, 0, len, a),
        NodeView::Src { s, a } => span_record(SOURCE_SPAN, depth, s, len, a),
        NodeView::Fun => match function {
            None => Record::new(),
            Some(function) => function_record(depth, len, function),
        },
        NodeView::Cat { l, r } => concatenation_record(depth, len, l.0, r.0),
        NodeView::Sub { b, i } => span_record(SUBSTRING, depth, b.0, len, i),
    }
}

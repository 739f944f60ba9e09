//! What the record of a node says, and what in it is at fault.

ghost use Rattle.std.specs.Prelude.{◌≡◌, length, false, None, Some};
ghost use Rattle.function_leaf.specs.Pattern.{IsPatternLength};
ghost use Rattle.image_reader.specs.declared.codes.TheConstants.{FUNCTION};
ghost use Rattle.image_reader.specs.declared.layout.TheConstants.{NODE_SIZE};
ghost use Rattle.image_reader.specs.Reading.{image_node, view_of, kind_in, pattern_size_in, pattern_of, coded_of, function_of, any_nonzero, is_unknown_function, is_unknown_node, unused_in_span, unused_in_concatenation, unused_in_function, unused_in_node, node_record_fault};

use crate::codes::{CONCATENATION, CYCLE, FILL, FUNCTION, LITERAL, RAMP, SOURCE_SPAN, SUBSTRING};
use crate::number::{bytes_from, u8_in, u32_in, u64_in};
use function_leaf::{Coded, PATTERN_LIMIT};
use rope_node::{NodeId, NodeView};

/// The length of a node.
pub fn len_in(bytes: &[u8]) -> u64
    requires { length bytes.now ≡ NODE_SIZE }
    ensures { result ≡ (image_node bytes.now).node.len }
{
    u64_in(bytes, 8)
}

/// The depth of a node.
pub fn depth_in(bytes: &[u8]) -> u8
    requires { length bytes.now ≡ NODE_SIZE }
    ensures { result ≡ (image_node bytes.now).node.depth }
{
    u8_in(bytes, 1)
}

/// What a node is.
#[tactic(auto, unfolding(crate::specs::Reading::view_of))]
pub fn view_in(bytes: &[u8]) -> NodeView
    requires { length bytes.now ≡ NODE_SIZE }
    ensures { result ≡ view_of bytes.now }
{
    match u8_in(bytes, 0) {
        LITERAL => NodeView::Lit {
            a: u64_in(bytes, 16),
        },
        SOURCE_SPAN => NodeView::Src {
            s: u32_in(bytes, 4),
            a: u64_in(bytes, 16),
        },
        CONCATENATION => NodeView::Cat {
            l: NodeId(u32_in(bytes, 4)),
            r: NodeId(u32_in(bytes, 16)),
        },
        SUBSTRING => NodeView::Sub {
            b: NodeId(u32_in(bytes, 4)),
            i: u64_in(bytes, 16),
        },
        _ => NodeView::Fun,
    }
}

/// The cycle that a function node holds.
fn cycle_in(bytes: &[u8]) -> Coded
    requires len { length bytes.now ≡ NODE_SIZE }
    requires pattern { IsPatternLength (pattern_size_in bytes.now) }
    ensures { result ≡ Coded.Cycle (pattern_of bytes.now) }
{
    let payload = bytes_from(bytes, 16);
    let pattern = &payload[..u8_in(bytes, 3) as usize];
    match Coded::cycle(pattern) {
        Some(coded) => coded,
        None => unreachable!(),
    }
}

/// The function that a function node holds.
#[tactic(auto, unfolding(crate::specs::Reading::function_of, crate::specs::Reading::coded_of, crate::specs::Reading::node_record_fault))]
pub fn function_in(bytes: &[u8]) -> Coded
    requires len { length bytes.now ≡ NODE_SIZE }
    requires kind { kind_in bytes.now ≡ FUNCTION }
    requires sound { node_record_fault bytes.now ≡ None }
    ensures { function_of bytes.now ≡ Some result }
{
    match u8_in(bytes, 2) {
        FILL => Coded::Fill(u8_in(bytes, 16)),
        RAMP => Coded::Ramp(u8_in(bytes, 16)),
        _ => cycle_in(bytes),
    }
}

/// Whether a function code stands for none, or a pattern has a length that none may have.
fn is_unknown_function(bytes: &[u8]) -> bool
    requires { length bytes.now ≡ NODE_SIZE }
    ensures { result ≡ is_unknown_function bytes.now }
{
    let code = u8_in(bytes, 2);
    let size = u8_in(bytes, 3);
    code < FILL
        || code > CYCLE
        || (code == CYCLE && (size < 1 || usize::from(size) > PATTERN_LIMIT))
}

/// Whether a node is of no known kind, or a function that is not known.
pub fn is_unknown_node(bytes: &[u8]) -> bool
    requires { length bytes.now ≡ NODE_SIZE }
    ensures { result ≡ is_unknown_node bytes.now }
{
    let kind = u8_in(bytes, 0);
    kind < LITERAL || kind > SUBSTRING || (kind == FUNCTION && is_unknown_function(bytes))
}

/// Whether one of the bytes is not zero.
fn has_nonzero(bytes: &[u8]) -> bool
    ensures { result ≡ any_nonzero bytes.now }
{
    for byte in bytes {
        if *byte != 0 {
            return true;
        }
    }
    false
}

/// Whether a field that a function of this code does not use is not zero.
fn has_unused_function_field(bytes: &[u8]) -> bool
    requires len { length bytes.now ≡ NODE_SIZE }
    requires known { is_unknown_function bytes.now ≡ false }
    ensures { result ≡ any_nonzero (unused_in_function bytes.now) }
{
    if u32_in(bytes, 4) != 0 {
        return true;
    }
    let payload = bytes_from(bytes, 16);
    let size = u8_in(bytes, 3);
    if u8_in(bytes, 2) == CYCLE {
        has_nonzero(bytes_from(payload, size as usize))
    } else {
        size != 0 || has_nonzero(bytes_from(payload, 1))
    }
}

/// Whether a field that a concatenation does not use is not zero.
fn has_unused_concatenation_field(bytes: &[u8]) -> bool
    requires { length bytes.now ≡ NODE_SIZE }
    ensures { result ≡ any_nonzero (unused_in_concatenation bytes.now) }
{
    u8_in(bytes, 2) != 0 || u8_in(bytes, 3) != 0 || u32_in(bytes, 20) != 0 || u64_in(bytes, 24) != 0
}

/// Whether a field that no literal, span of a source or substring uses is not zero.
fn has_unused_span_field(bytes: &[u8]) -> bool
    requires { length bytes.now ≡ NODE_SIZE }
    ensures { result ≡ any_nonzero (unused_in_span bytes.now) }
{
    u8_in(bytes, 2) != 0 || u8_in(bytes, 3) != 0 || u64_in(bytes, 24) != 0
}

/// Whether a field that a node of this kind does not use is not zero.
pub fn has_unused_node_field(bytes: &[u8]) -> bool
    requires len { length bytes.now ≡ NODE_SIZE }
    requires known { is_unknown_node bytes.now ≡ false }
    ensures { result ≡ any_nonzero (unused_in_node bytes.now) }
{
    match u8_in(bytes, 0) {
        LITERAL => u32_in(bytes, 4) != 0 || has_unused_span_field(bytes),
        FUNCTION => has_unused_function_field(bytes),
        CONCATENATION => has_unused_concatenation_field(bytes),
        _ => has_unused_span_field(bytes),
    }
}

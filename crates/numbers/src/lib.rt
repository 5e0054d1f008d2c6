// The sizes of docs/RULES.md, section 2.
#![tactic(auto)]

// ---- sizes: the largest that is accepted

// 2.1: the bytes of an encoded reference.
pub const BYTES: usize = 4096;

// 1.2, 1.3: the items of a reference, and of one that opens with a discard.
pub const ITEMS: u64 = 5;

pub const DISCARD_ITEMS: usize = 4;

// 2.2: the segments of a path.
pub const SEGMENTS: usize = 160;

// 2.3: the parameters of a query.
pub const PARAMETERS: usize = 16;

// 2.2 to 2.4: the bytes of a segment, a parameter or a fragment.
pub const TEXT_BYTES: u64 = 255;

// 2.5: the labels of an authority, the bytes of a label, and the bytes of all labels with the dots between them.
pub const LABELS: usize = 8;

pub const LABEL_BYTES: u64 = 63;

pub const NAME_BYTES: usize = 255;

// 2.6: the items of an authority, a host's labels and a port; a port.
pub const AUTHORITY_ITEMS: u64 = LABELS as u64 + 1;

pub const PORT: u64 = 65535;

// 2.7: the bytes of a scheme text; a discard.
pub const SCHEME_BYTES: u64 = 16;

pub const DISCARD: u64 = 127;

// ---- rooms that are always long enough

// 9.5: the numbers that tell where the labels, segments and parameters of a reference stand, two for each.
pub const SPANS: usize = 2 * (LABELS + SEGMENTS + PARAMETERS);

// 6.6: the URI text of a reference of n bytes has at most 3n + 13.
pub const TEXT_ROOM: usize = 3 * BYTES + 13;

// 7.8: the options of a reference of n bytes have at most 2n + 16.
pub const OPTIONS_ROOM: usize = 2 * BYTES + 16;

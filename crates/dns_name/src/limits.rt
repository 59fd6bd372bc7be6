//! The limits on labels and names (RFC 1035, section 2.3.4).

ghost use Rattle.std.specs.Prelude.{◌≡◌};

/// The most octets of a label.
pub const MAX_LABEL_OCTETS: usize = 63;

/// The most octets of a name in a message: its labels, each preceded by its length, and the zero octet that ends it.
pub const MAX_NAME_OCTETS: usize = 255;

/// The most labels of a name: each takes two octets or more.
pub const MAX_LABELS: usize = (MAX_NAME_OCTETS - 1) / 2;

/// The most octets that the labels of a name take, each preceded by its length.
pub(crate) const MAX_SPELLED_OCTETS: usize = MAX_NAME_OCTETS - 1;

/// A label has at most 63 octets, a name 255 and 127 labels.
pub fn limits_law()
    ensures label { MAX_LABEL_OCTETS ≡ 63 }
    ensures name { MAX_NAME_OCTETS ≡ 255 }
    ensures labels { MAX_LABELS ≡ 127 }
{}

//! A name, its labels and its order.

ghost use Rattle.std.specs.Prelude.{◌≡◌, ◌↔◌, ◌++◌, IsTrue, IfOk, IfErr, OnOk, MatchOption, List, ℕ, ◌+◌, ◌≤◌, [], true, length, drop, map};
ghost use Rattle.std.specs.Iterator.{YieldsFirstBy, item_count};
ghost use Rattle.std.specs.Cmp.Lexicographic.{slice_cmp};
ghost use Rattle.std.specs.Ordering.{nat_cmp};
ghost use Rattle.dns_name.specs.Labels.{Labels, IsAtOrBelow, octets_of, spelled, wire_len, IsName, IsOctets, labels_in, labels_of, parent_of};
ghost use Rattle.dns_name.specs.Below.{is_at_or_below};
ghost use Rattle.dns_name.specs.Making.{Gives, name_after, lowercase_labels};
ghost use Rattle.dns_name.specs.Building.{IsComing, starts_from, Begins, Ends, IsOver};
ghost use Rattle.dns_name.specs.Order.{labels_cmp, ZoneIsFirst, SubtreeIsContiguous};

use crate::NoMemory;
use crate::builder::NameBuilder;
use crate::fault::NameFault;
use crate::limits::{MAX_LABELS, MAX_SPELLED_OCTETS};
use crate::octets::NameOctets;
use arrayvec::ArrayVec;
use std::alloc::Global;
use std::cmp::Ordering;
use std::hash::{Hash, Hasher};
use std::marker::Model;

/// A domain name (RFC 1034, section 3.1): its labels in lower case, the leftmost first. The root has
/// none. Each has 1 to `MAX_LABEL_OCTETS` octets, and the name at most `MAX_NAME_OCTETS` in a message.
///
/// Two names are equal if their labels are. They are ordered by labels from the root, each label
/// compared as octets, so a zone comes right before the names below it.
///
/// A copy takes no memory: copies of a name of more than 31 octets in a message share the same
/// octets. If there are too many copies to count, `clone` returns `NoMemory`.
#[derive(Drop)]
pub struct Name {
    // The labels from the root, each preceded by its length: those of a zone are a prefix.
    octets: NameOctets,
}

impl Model for Name {
    ghost use Rattle.std.specs.Prelude.{List, ℕ};
    ghost use Rattle.dns_name.specs.Labels.{labels_of, IsOctets};

    ghost Value = { List (List ℕ) };

    ghost view = { λ n. labels_of n.octets };

    ghost invariant = { λ n. IsOctets n.octets };
}

impl Name {
    /// The root. It takes no memory.
    pub fn root(_alloc: Global) -> Name
        ensures { result ≡ [] }
    {
        Name {
            octets: NameOctets::none(),
        }
    }

    /// The name of these labels, the leftmost first. Capitals become small letters.
    ///
    /// Each label is checked as a whole, from the left: `EmptyLabel`, `LongLabel`, then `LongName`.
    pub fn from_labels(alloc: Global, labels: &[&[u8]]) -> Result<Name, NameFault>
        ensures exact { Gives result (name_after [] (map (λ l. l.now) labels.now)) }
        ensures value { IfOk result (λ n. n ≡ lowercase_labels (map (λ l. l.now) labels.now)) }
        ensures only { IfErr result (λ e. IsName (lowercase_labels (map (λ l. l.now) labels.now)) → e ≡ NameFault.NoMemory) }
    {
        build(alloc, labels)
    }

    /// The name of the labels that a buffer spells from `start` on, the one next to the root first.
    pub(crate) fn from_buffer(
        alloc: Global,
        buffer: &[u8; MAX_SPELLED_OCTETS],
        start: usize,
    ) -> Result<Name, NoMemory>
        requires within { start ≤ MAX_SPELLED_OCTETS }
        requires octets { IsOctets (drop start buffer.now) }
        ensures { IfOk result (λ n. n ≡ labels_of (drop start buffer.now)) }
    {
        Ok(Name {
            octets: NameOctets::from_buffer(alloc, buffer, start)?,
        })
    }

    /// The name without its leftmost label; the root has none.
    pub fn parent(&self, alloc: Global) -> Result<Option<Name>, NoMemory>
        ensures { IfOk result (λ p. p ≡ parent_of self.now) }
    {
        let mut labels = self.labels();
        match labels.next() {
            None => Ok(None),
            Some(_) => Ok(Some(NameBuilder::from_octets(labels.octets).name(alloc)?)),
        }
    }

    /// The labels, the leftmost first, in lower case. It takes no memory.
    pub fn labels(&self) -> Labels<'_>
        ensures value { result ≡ self.now }
        ensures name { IsName self.now }
    {
        let octets = self.octets();
        Labels {
            octets,
            starts: label_starts(octets),
        }
    }

    /// The labels, the one next to the root first, each preceded by its length. It takes no memory.
    pub fn octets(&self) -> &[u8]
        ensures value { result.now ≡ octets_of self.now }
        ensures spelled { IsOctets result.now }
        ensures labels { labels_of result.now ≡ self.now }
        ensures name { IsName self.now }
    {
        self.octets.as_slice()
    }

    /// How many octets the name takes in a message, with the zero octet that ends it: 1 to `MAX_NAME_OCTETS` (RFC 1035, section 3.1).
    pub fn wire_len(&self) -> usize
        ensures len { result ≡ wire_len self.now }
        ensures name { IsName self.now }
    {
        self.octets().len() + 1
    }

    /// Writes the labels after what `out` holds, each preceded by its length, as in a message but
    /// without the zero octet that ends a name (RFC 1035, section 3.1). If memory runs out, some of
    /// them may have been written.
    pub fn push_spelled(&self, out: &mut Vec<u8>) -> Result<(), NoMemory>
        ensures { OnOk result (out.new.items ≡ out.old.items ++ spelled self.now) }
    {
        push_labels(self.octets(), out)
    }

    /// Whether the labels of this name end with those of `zone`. It takes no memory.
    pub fn at_or_below(&self, zone: &Name) -> bool
        ensures value { result ≡ is_at_or_below self.now zone.now }
        ensures fact { IsTrue result ↔ IsAtOrBelow self.now zone.now }
    {
        begins(self.octets(), zone.octets())
    }
}

/// An iterator over the labels of a name, the leftmost first. Contracts see the labels that are left.
#[derive(Drop)]
pub struct Labels<'a> {
    octets: &'a [u8],
    // The place where each label begins, the one next to the root first. A label takes two octets or more.
    starts: ArrayVec<u8, MAX_LABELS>,
}

impl<'a> Model for Labels<'a> {
    ghost use Rattle.std.specs.Prelude.{List, ℕ};
    ghost use Rattle.dns_name.specs.Labels.{labels_of};
    ghost use Rattle.dns_name.specs.Building.{IsComing};

    ghost Value = { List (List ℕ) };

    ghost view = { λ n. labels_of n.octets.now };

    ghost invariant = { λ n. IsComing n.octets.now n.starts.items };
}

impl<'a> Iterator for Labels<'a> {
    type Item = &'a [u8];

    ghost next_gives = { YieldsFirstBy (λ label. label.now) (λ s. s) };

    ghost remaining = { item_count (λ s. s) };

    fn next(&mut self) -> Option<&'a [u8]> {
        let (label, front) = pop_label(self.octets, &mut self.starts)?;
        self.octets = front;
        Some(label)
    }
}

/// Adds labels one by one to a new name.
#[tactic(auto, unfolding(crate::specs::Making::name_after))]
fn build(alloc: Global, labels: &[&[u8]]) -> Result<Name, NameFault>
    ensures { Gives result (name_after [] (map (λ l. l.now) labels.now)) }
{
    let mut builder = NameBuilder::new();
    for label in labels {
        builder.try_push(label)?;
    }
    Ok(builder.name(alloc)?)
}

/// The first label of a run of octets, and the octets after it.
pub(crate) fn split_label(octets: &[u8]) -> Option<(&[u8], &[u8])>
    requires { IsOctets octets.now }
    ensures { MatchOption result (labels_in octets.now ≡ []) (λ r. Begins octets.now r.0.now r.1.now) }
{
    let (n, rest) = octets.split_first()?;
    Some(rest.split_at(*n as usize))
}

/// Writes the labels that a run of octets spells, the last one first, each preceded by its length.
fn push_labels(octets: &[u8], out: &mut Vec<u8>) -> Result<(), NoMemory>
    requires { IsOctets octets.now }
    ensures { OnOk result (out.new.items ≡ out.old.items ++ spelled (labels_of octets.now)) }
{
    let Some((label, rest)) = split_label(octets) else {
        return Ok(());
    };
    push_labels(rest, out)?;
    out.extend_from_slice(&octets[..label.len() + 1])
}

/// The place where each label of a run of octets begins.
fn label_starts(octets: &[u8]) -> ArrayVec<u8, MAX_LABELS>
    requires { IsOctets octets.now }
    ensures { result.items ≡ starts_from 0 (labels_in octets.now) }
{
    let mut starts = ArrayVec::new();
    let mut at = 0;
    let mut rest = octets;
    while let Some((label, after)) = split_label(rest) {
        starts.push(at as u8);
        at += label.len() + 1;
        rest = after;
    }
    starts
}

/// The last label of a run of octets, whose start it removes, and the octets before it.
fn pop_label<'a>(
    octets: &'a [u8],
    starts: &mut ArrayVec<u8, MAX_LABELS>,
) -> Option<(&'a [u8], &'a [u8])>
    requires { IsComing octets.now starts.old.items }
    ensures { MatchOption result (IsOver octets.now starts.new.items) (λ r. Ends octets.now r.0.now r.1.now starts.new.items) }
{
    let start = usize::from(starts.pop()?);
    let (front, last) = octets.split_at(start);
    Some((&last[1..], front))
}

/// Whether a run of octets may begin with another, by its length and its last octets. Most names begin alike, with the same
/// top-level domain, and the last of these octets differ.
#[inline]
fn may_begin(octets: &[u8], front: &[u8]) -> bool
    ensures { (rest : List ℕ) → octets.now ≡ front.now ++ rest → result ≡ true }
{
    if octets.len() < front.len() {
        return false;
    }
    let (begin, _) = octets.split_at(front.len());
    match (begin.last_chunk::<4>(), front.last_chunk::<4>()) {
        (Some(a), Some(b)) => *a == *b,
        _ => true,
    }
}

/// Whether a run of octets begins with another.
#[inline]
fn begins(octets: &[u8], front: &[u8]) -> bool
    ensures yes { result ≡ true → octets.now ≡ front.now ++ drop (length front.now) octets.now }
    ensures no { (rest : List ℕ) → octets.now ≡ front.now ++ rest → result ≡ true }
{
    may_begin(octets, front) && octets.starts_with(front)
}

/// Compares two labels, first by their first octets, which mostly differ.
#[inline]
fn compare_labels(x: &[u8], y: &[u8]) -> Ordering
    ensures { result ≡ slice_cmp nat_cmp x.now y.now }
{
    match (x, y) {
        ([a, ..], [b, ..]) if *a != *b => a.cmp(b),
        _ => x.cmp(&y),
    }
}

/// Compares the labels that two runs of octets spell.
fn compare(a: &[u8], b: &[u8]) -> Ordering
    requires a { IsOctets a.now }
    requires b { IsOctets b.now }
    ensures { result ≡ labels_cmp (labels_in a.now) (labels_in b.now) }
{
    let mut left = a;
    let mut right = b;
    while let Some((x, rest_left)) = split_label(left) {
        let Some((y, rest_right)) = split_label(right) else {
            return Ordering::Greater;
        };
        let order = compare_labels(x, y);
        if order != Ordering::Equal {
            return order;
        }
        left = rest_left;
        right = rest_right;
    }
    match split_label(right) {
        None => Ordering::Equal,
        Some(_) => Ordering::Less,
    }
}

/// In the order of names a zone and the names below it are contiguous, and the zone comes first. So a
/// walk from the zone on finds them all before the first name that is not among them.
pub fn subtree_law()
    ensures zone_is_first { ZoneIsFirst }
    ensures contiguous { SubtreeIsContiguous }
{}

/// The octets of a zone are a prefix of those of a name exactly if the name is at or below the zone.
pub fn octets_law()
    ensures below { (n z : Labels) → IsAtOrBelow n z → (rest : List ℕ) × (octets_of n ≡ octets_of z ++ rest) }
    ensures prefix { (n z : Labels) (rest : List ℕ) → octets_of n ≡ octets_of z ++ rest → IsAtOrBelow n z }
{}

impl PartialEq for Name {
    ghost use Rattle.dns_name.specs.Order.{name_eq, name_per};

    ghost eq = { name_eq };

    ghost laws = { name_per };

    fn eq(&self, other: &Name) -> bool {
        self.octets() == other.octets()
    }
}

impl Eq for Name {
    ghost use Rattle.dns_name.specs.Order.{name_equiv};

    ghost laws = { name_equiv };
}

impl PartialOrd for Name {
    ghost use Rattle.dns_name.specs.Order.{name_partial_cmp, name_partial_order};

    ghost partial_cmp = { name_partial_cmp };

    ghost laws = { name_partial_order };

    fn partial_cmp(&self, other: &Name) -> Option<Ordering> {
        Some(self.cmp(other))
    }
}

impl Ord for Name {
    ghost use Rattle.std.specs.Prelude.{refl};
    ghost use Rattle.dns_name.specs.Order.{name_cmp, name_total, name_eq-is_eq};

    ghost cmp = { name_cmp };

    ghost total = { name_total };

    ghost matches_partial_cmp = { λ _ _. refl };

    ghost matches_eq = { name_eq-is_eq };

    fn cmp(&self, other: &Name) -> Ordering {
        compare(self.octets(), other.octets())
    }
}

impl Hash for Name {
    ghost use Rattle.dns_name.specs.Order.{name_hash_input, name_hash_respects_eq};

    ghost hash_input = { name_hash_input };

    ghost respects_eq = { name_hash_respects_eq };

    fn hash<H: Hasher>(&self, state: &mut H) {
        state.write(self.octets());
    }
}

impl Clone for Name {
    fn clone(&self) -> Result<Name, NoMemory>
        ensures { IfOk result (λ n. n ≡ self.now) }
    {
        Ok(Name {
            octets: self.octets.clone()?,
        })
    }
}

ghost use Rattle.std.specs.Prelude.{◌≡◌, ◌-◌, ◌≤◌, map, length, drop, IfErr, if◌then◌else◌, Some, None};
ghost use Rattle.names.specs.Laws.{WireAndParse};
ghost use Rattle.names.specs.Types.{is_star, starred};
ghost use Rattle.names.specs.View.{octets as octets_in, labels as labels_in, read_octets, read_labels};
ghost use Rattle.names.specs.Wire.{lower, is_name, first_label, parse, parent_of, ancestor_of, after_label, after_labels};
ghost use Rattle.std.specs.Option.{option_map};

use crate::name::labels::Labels;
use crate::name::{MAX_NAME, Name, STAR};
use crate::refusal::Refusal;

const MAX_LABEL: usize = 63;

// The octet that closes a name.
const END: u8 = 0;

// The first label of a wire form and the octets after it; none at the closing 0, and where no whole label of 1 to 63
// octets stands.
pub(crate) fn first_label(s: &[u8]) -> Option<(&[u8], &[u8])>
    ensures { option_map (λ p. (p.0.now, p.1.now)) result ≡ first_label s.now }
{
    let (first, rest) = s.split_first()?;
    let k = *first as usize;
    if k == 0 || k > MAX_LABEL || k > rest.len() {
        return None;
    }
    Some(rest.split_at(k))
}

// Whether the label is `*`.
fn is_star(label: &[u8]) -> bool
    ensures { result ≡ is_star (map lower label.now) }
{
    label == [STAR].as_slice()
}

impl<'a> Name<'a> {
    // The octets that the name was read from.
    pub fn octets(&self) -> &'a [u8]
        ensures { result.now ≡ octets_in self.now }
    {
        self.octets
    }

    // The name that the octets are.
    pub fn read(octets: &'a [u8]) -> Result<Name<'a>, Refusal>
        ensures octets { read_octets result ≡ (if is_name octets.now then Some octets.now else None) }
        ensures labels { read_labels result ≡ parse octets.now }
        ensures refused { IfErr result (λ e. e ≡ Refusal.NoName) }
        ensures undo { WireAndParse }
    {
        if octets.len() > MAX_NAME {
            return Err(Refusal::NoName);
        }
        let mut left = octets;
        while let Some((_, rest)) = first_label(left) {
            left = rest;
        }
        let [END] = left else {
            return Err(Refusal::NoName);
        };
        Ok(Name { octets })
    }

    // The labels, as they stand.
    pub fn labels(&self) -> Labels<'a>
        ensures { labels_in result.left ≡ labels_in self.now }
    {
        Labels { left: *self }
    }

    // How many labels the name has.
    pub fn label_count(&self) -> usize
        ensures value { result ≡ length (labels_in self.now) }
        ensures bound { result ≤ length (octets_in self.now) }
    {
        self.labels().count()
    }

    // The first label, as it stands, and the name after it; the root has none.
    pub fn split_first(&self) -> Option<(&'a [u8], Name<'a>)>
        ensures { option_map (λ p. (p.0.now, octets_in p.1)) result ≡ first_label (octets_in self.now) }
    {
        let (label, rest) = first_label(self.octets)?;
        Some((label, Name { octets: rest }))
    }

    // The name without its first label, as a part of the same octets; the root has none.
    pub fn parent(&self) -> Option<Name<'a>>
        ensures labels { option_map labels_in result ≡ parent_of (labels_in self.now) }
        ensures octets { option_map octets_in result ≡ option_map (λ _. after_label (octets_in self.now)) result }
    {
        let (_, rest) = self.split_first()?;
        Some(rest)
    }

    // Whether one of the labels is `*`.
    pub fn has_star_label(&self) -> bool
        ensures { result ≡ starred (labels_in self.now) }
    {
        self.labels().any(|label| is_star(label))
    }

    // The name without its first k labels, or the root where it has fewer.
    pub(crate) fn without(&self, k: usize) -> Name<'a>
        ensures labels { labels_in result ≡ drop k (labels_in self.now) }
        ensures octets { k ≤ length (labels_in self.now) → octets_in result ≡ after_labels k (octets_in self.now) }
    {
        let mut name = *self;
        for _ in 0..k {
            let Some(up) = name.parent() else {
                return name;
            };
            name = up;
        }
        name
    }

    // The ancestor that has so many labels, or the name itself, as a part of the same octets.
    pub fn ancestor(&self, count: usize) -> Option<Name<'a>>
        ensures labels { option_map labels_in result ≡ ancestor_of count (labels_in self.now) }
        ensures octets { option_map octets_in result ≡ option_map (λ _. after_labels (length (labels_in self.now) - count) (octets_in self.now)) result }
    {
        let total = self.label_count();
        if count > total {
            return None;
        }
        Some(self.without(total - count))
    }
}

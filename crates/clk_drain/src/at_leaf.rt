//! What stands at leaves, each at one of its own.

ghost use Rattle.std.specs.Prelude.{◌≡◌, false, Some, MatchOption, map, slice_get};
ghost use Rattle.clk_packet.specs.Lists.{AreRising, stands_in};

/// Something that stands at a leaf of a tree.
pub trait AtLeaf {
    ghost use Rattle.std.specs.Prelude.{◌≡◌, ℕ};

    // The leaf.
    ghost leaf: { Self → ℕ };

    /// The number of its leaf.
    fn leaf(&self) -> u16
        ensures { result ≡ leaf self.now };
}

/// The place of what stands at a leaf, if anything does. What is searched stands by rising leaves. If one device has all queues, each
/// stands at the place of its leaf's number, so that place is tried first.
pub fn place_of<L: AtLeaf>(each: &[L], leaf: u16) -> Option<usize>
    requires { AreRising (map L.AtLeaf.leaf each.now) }
    ensures { MatchOption result (stands_in leaf (map L.AtLeaf.leaf each.now) ≡ false) (λ place. slice_get (map L.AtLeaf.leaf each.now) place ≡ Some leaf) }
{
    let place = usize::from(leaf);
    if let Some(it) = each.get(place) {
        if it.leaf() == leaf {
            return Some(place);
        }
    }
    match each.binary_search_by_key(&leaf, |it| it.leaf()) {
        Ok(place) => Some(place),
        Err(_) => None,
    }
}

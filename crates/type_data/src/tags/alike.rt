// Whether the same is known of the tags of two units.
ghost use Rattle.std.specs.Prelude.{◌≡◌, true};
ghost use Rattle.std.specs.Cmp.Lexicographic.{pointwise};
ghost use Rattle.type_data.specs.Alike.{same_entry};

use super::Tags;

impl Tags {
    fn has_same_entries(&self, other: &Tags) -> bool
        ensures { result ≡ pointwise same_entry self.now other.now }
    {
        self.map.as_slice() == other.map.as_slice()
    }

    /// True only where the same is known of the same tags, in the same order. It costs what is known of all tags.
    pub fn are_alike(&self, other: &Tags) -> bool
        ensures { result ≡ true → self.now ≡ other.now }
    {
        self.has_same_entries(other)
    }
}

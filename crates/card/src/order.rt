// The order of the fields of a card, by the field before: the mode first, then settings rising by place and field, then rows.
ghost use Rattle.std.specs.Prelude.{◌≡◌};
ghost use Rattle.card.specs.Helpers.{follows};

use crate::entry::Entry;

impl Entry {
    // Whether this field may stand after the last one, which is none at the start of a card.
    pub(crate) fn may_follow(self, last: Option<Entry>) -> bool
        ensures { result ≡ follows last self }
    {
        match (self, last) {
            (Entry::Mode { .. }, last) => last.is_none(),
            (Entry::Setting { .. }, None | Some(Entry::Mode { .. })) => true,
            (
                Entry::Setting { place, field, .. },
                Some(
                    Entry::Setting {
                        place: last_place,
                        field: last_field,
                        ..
                    },
                ),
            ) => (last_place, last_field) < (place, field),
            (Entry::Setting { .. }, Some(Entry::Row { .. })) => false,
            (Entry::Row { .. }, _) => true,
        }
    }
}

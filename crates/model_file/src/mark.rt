// How far the reading of a file has come: its place, the last tag, and what was counted until there.
ghost use Rattle.std.specs.Prelude.{◌≡◌, ◌+◌, ◌^◌, ◌<◌, length, ◌==◌};
ghost use Rattle.model_file.specs.Fields.{tag_of, body_of};
ghost use Rattle.model_file.specs.Tags.{last_code};

use crate::draft::Draft;
use crate::field::Field;
use crate::tag::Tag;

#[derive(Clone, Copy, Default)]
pub struct Mark {
    pub place: usize,
    pub last: Option<Tag>,
    pub draft: Draft,
    pub roots: usize,
}

impl Mark {
    // The mark after a field: `draft` and `roots` have the counts with its entries.
    pub fn after(self, field: Field<'_>, draft: Draft, roots: usize) -> Mark
        requires { self.place + (3 + length (body_of field)) < 2 ^ 64 }
        ensures place { result.place ≡ self.place + (3 + length (body_of field.entry)) }
        ensures last { last_code result.last ≡ tag_of field.entry }
        ensures draft { result.draft ≡ draft }
        ensures roots { result.roots ≡ roots }
    {
        Mark {
            place: self.place + (3 + field.body().len()),
            last: Some(field.tag()),
            draft,
            roots,
        }
    }

    // Whether the field that comes last is read.
    pub fn is_complete(self) -> bool
        ensures { result ≡ (last_code self.last == 6) }
    {
        self.last == Some(Tag::Roots)
    }
}

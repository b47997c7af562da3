// A field of the file, its body a part of the file, and the tests that a field must pass.
ghost use Rattle.std.specs.Prelude.{◌≡◌, ℕ, ◌-◌, ◌<◌, ◌≤◌, ◌%◌, ◌==◌, ◌&&◌, nat_lt, length, Some, None, MatchResult};
ghost use Rattle.faults.specs.Tests.{first_fault};
ghost use Rattle.model_file.specs.Fields.{body_length, whole, in_turn, right_length, tag_of, body_of, place_of, shape_tests, FieldAt};
ghost use Rattle.model_file.specs.Tags.{code, last_code};

use crate::entry::Entry;
use crate::sizes::Sizes;
use crate::tag::Tag;
use diagram::nodes::Node;
use faults::FileFault;

#[derive(Clone, Copy, Debug)]
pub enum Field<'a> {
    Sizes { body: &'a [u8], place: usize },
    Rewards { body: &'a [u8], place: usize },
    Chances { body: &'a [u8], place: usize },
    RewardNodes { body: &'a [u8], place: usize },
    ChanceNodes { body: &'a [u8], place: usize },
    Roots { body: &'a [u8], place: usize },
}

impl<'a> Field<'a> {
    fn new(tag: Tag, body: &'a [u8], place: usize) -> Field<'a>
        ensures tag { tag_of result ≡ code tag }
        ensures body { body_of result ≡ body.now }
        ensures place { place_of result ≡ place }
    {
        match tag {
            Tag::Sizes => Field::Sizes { body, place },
            Tag::Rewards => Field::Rewards { body, place },
            Tag::Chances => Field::Chances { body, place },
            Tag::RewardNodes => Field::RewardNodes { body, place },
            Tag::ChanceNodes => Field::ChanceNodes { body, place },
            Tag::Roots => Field::Roots { body, place },
        }
    }

    pub fn tag(self) -> Tag
        ensures { code result ≡ tag_of self.entry }
    {
        match self {
            Field::Sizes { .. } => Tag::Sizes,
            Field::Rewards { .. } => Tag::Rewards,
            Field::Chances { .. } => Tag::Chances,
            Field::RewardNodes { .. } => Tag::RewardNodes,
            Field::ChanceNodes { .. } => Tag::ChanceNodes,
            Field::Roots { .. } => Tag::Roots,
        }
    }

    pub fn body(self) -> &'a [u8]
        ensures { result.now ≡ body_of self.entry }
    {
        match self {
            Field::Sizes { body, .. }
            | Field::Rewards { body, .. }
            | Field::Chances { body, .. }
            | Field::RewardNodes { body, .. }
            | Field::ChanceNodes { body, .. }
            | Field::Roots { body, .. } => body,
        }
    }
}

// The number in the two bytes after the tag.
fn length_of(rest: &[u8]) -> usize
    requires { 3 ≤ length rest.now }
    ensures { result ≡ body_length rest.now }
{
    u16::from_be_bytes([rest[1], rest[2]]) as usize
}

// Whether the file goes on to the end of the field.
fn is_whole(rest: &[u8]) -> bool
    ensures { result ≡ whole rest.now }
{
    rest.len() >= 3 && rest.len() >= 3 + length_of(rest)
}

// Whether a tag may follow the last one, if a field stands before it.
fn is_in_turn(last: Option<Tag>, tag: Tag) -> bool
    ensures { result ≡ in_turn (last_code last) (code tag) }
{
    match last {
        None => tag == Tag::Sizes,
        Some(last) => last < tag || (last == tag && Tag::Sizes < tag && tag < Tag::Roots),
    }
}

// Whether a body of that length has whole entries of one type, and some.
fn has_entries<E: Entry>(length: usize) -> bool
    ensures { result ≡ (nat_lt 0 length && (length % E.Entry.SIZE == 0)) }
{
    0 < length && length % E::SIZE == 0
}

fn is_right_length(sizes: Sizes, tag: Tag, length: usize) -> bool
    ensures { result ≡ right_length sizes.conditions sizes.moves (code tag) length }
{
    match tag {
        Tag::Sizes => length == 4,
        Tag::Rewards => has_entries::<i64>(length),
        Tag::Chances => has_entries::<u16>(length),
        Tag::RewardNodes | Tag::ChanceNodes => has_entries::<Node>(length),
        Tag::Roots => length == 4 * sizes.roots(),
    }
}

// The field with which the rest of the file begins, at a place and after the tag `last`, or the first fault in its shape.
pub fn next_field(
    rest: &[u8],
    place: usize,
    last: Option<Tag>,
    sizes: Sizes,
) -> Result<Field<'_>, FileFault>
    requires { 0 < length rest.now }
    ensures { MatchResult result
        (λ field. FieldAt place rest.now field × (first_fault (shape_tests place (last_code last) sizes.conditions sizes.moves rest.now) ≡ None))
        (λ fault. first_fault (shape_tests place (last_code last) sizes.conditions sizes.moves rest.now) ≡ Some fault) }
{
    let number = rest[0];
    if !is_whole(rest) {
        return Err(FileFault::CutShort { tag: number, place });
    }
    let Ok(tag) = Tag::try_from(number) else {
        return Err(FileFault::UnknownTag { tag: number, place });
    };
    if !is_in_turn(last, tag) {
        return Err(FileFault::OutOfTurn { tag: number, place });
    }
    let length = length_of(rest);
    if !is_right_length(sizes, tag, length) {
        return Err(FileFault::BadLength { tag: number, place });
    }
    Ok(Field::new(tag, &rest[3..3 + length], place))
}

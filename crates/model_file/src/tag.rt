// The tag of a field: to which list its entries go, in the order in which the fields stand.
ghost use Rattle.std.specs.Prelude.{◌≡◌};
ghost use Rattle.model_file.specs.Fields.{Numbered};
ghost use Rattle.model_file.specs.Tags.{code};

#[derive(Clone, Copy, PartialEq, Eq, PartialOrd, Ord, Debug)]
pub enum Tag {
    Sizes = 1,
    Rewards,
    Chances,
    RewardNodes,
    ChanceNodes,
    Roots,
}

// A number that is no tag's.
#[derive(Clone, Copy, PartialEq, Eq, Debug)]
pub struct NoSuchTag(pub u8);

impl From<Tag> for u8 {
    ghost from_gives = { λ tag number. number ≡ code tag };

    fn from(tag: Tag) -> u8 {
        tag as u8
    }
}

impl TryFrom<u8> for Tag {
    type Error = NoSuchTag;

    ghost try_from_gives = { Numbered };

    fn try_from(number: u8) -> Result<Tag, NoSuchTag> {
        match number {
            1 => Ok(Tag::Sizes),
            2 => Ok(Tag::Rewards),
            3 => Ok(Tag::Chances),
            4 => Ok(Tag::RewardNodes),
            5 => Ok(Tag::ChanceNodes),
            6 => Ok(Tag::Roots),
            _ => Err(NoSuchTag(number)),
        }
    }
}

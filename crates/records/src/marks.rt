// The two letters that each record begins with.
ghost use Rattle.std.specs.Prelude.{◌≡◌, MatchResult, Some, None};
ghost use Rattle.records.specs.Marks.{letters, mark_of};

// the letters, as the number that they write
pub const RQ: u16 = 0x5251;

pub const PP: u16 = 0x5050;

pub const PE: u16 = 0x5045;

pub const CC: u16 = 0x4343;

pub const IN: u16 = 0x494e;

pub const FA: u16 = 0x4641;

pub const VS: u16 = 0x5653;

pub const NV: u16 = 0x4e56;

#[derive(Clone, Copy, PartialEq, Eq, Debug)]
pub enum Mark {
    Request,
    Propose,
    Prepare,
    CheckCommit,
    Inform,
    Failure,
    ViewState,
    NewView,
}

// Two letters that no record begins with.
#[derive(Clone, Copy, PartialEq, Eq, Debug)]
pub struct UnknownMark;

impl From<Mark> for u16 {
    ghost from_gives = { λ mark n. n ≡ letters mark };

    fn from(mark: Mark) -> u16 {
        match mark {
            Mark::Request => RQ,
            Mark::Propose => PP,
            Mark::Prepare => PE,
            Mark::CheckCommit => CC,
            Mark::Inform => IN,
            Mark::Failure => FA,
            Mark::ViewState => VS,
            Mark::NewView => NV,
        }
    }
}

impl TryFrom<u16> for Mark {
    type Error = UnknownMark;

    ghost try_from_gives = { λ n r. MatchResult r (λ mark. mark_of n ≡ Some mark) (λ _. mark_of n ≡ None) };

    fn try_from(letters: u16) -> Result<Mark, UnknownMark> {
        match letters {
            RQ => Ok(Mark::Request),
            PP => Ok(Mark::Propose),
            PE => Ok(Mark::Prepare),
            CC => Ok(Mark::CheckCommit),
            IN => Ok(Mark::Inform),
            FA => Ok(Mark::Failure),
            VS => Ok(Mark::ViewState),
            NV => Ok(Mark::NewView),
            _ => Err(UnknownMark),
        }
    }
}
